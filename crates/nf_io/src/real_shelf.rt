//! The shelf of the real files and of standard input. It is the trusted edge.
ghost use Rattle.std.specs.Prelude.{◌≡◌, ◌<◌, ◌≤◌, false, length, drop, None, IfOk, is_err};
ghost use Rattle.nf_io.specs.Causes.{HasCause, faults_after};
ghost use Rattle.nf_io.specs.Real.{real_shelf_tells};

use crate::failure::Failed;
use crate::shelves::Shelf;
use std::fs;
use std::io::Read;
use std::marker::Model;
use std::rt::Files;

// What is read from: nothing where no file is current.
#[derive(Drop)]
enum Source<I, F> {
    Nothing,
    Input(I),
    File(F),
}

impl<I: Read, F: Read> Source<I, F> {
    // Reads first bytes into the piece, and answers how many.
    fn read(&mut self, piece: &mut [u8]) -> Result<usize, Failed>
        ensures { IfOk result (λ n. n ≤ length piece.new) }
    {
        let outcome = match self {
            Source::Nothing => return Err(Failed),
            Source::Input(input) => input.read(piece),
            Source::File(file) => file.read(piece),
        };
        match outcome {
            Ok(count) => Ok(count),
            Err(_) => Err(Failed),
        }
    }
}

/// The files by their names, and standard input by the name `-`. It tells no content.
///
/// A contract sees the count of its faults, which rises at each failure and stands still at
/// 2^64 - 1, and whether its last call failed (`RealShelfState` in specs/Real.antt).
#[derive(Drop)]
pub struct RealShelf<R: Files + Input> {
    rt: R,
    source: Source<R::Reader, R::File>,
    faults: u64,
    failed: bool,
}

impl<R: Files + Input> Model for RealShelf<R> {
    ghost use Rattle.nf_io.specs.Real.{RealShelfState};

    ghost Value = { RealShelfState };

    ghost view = { λ s. record { faults = s.faults; failed = s.failed } };
}

impl<R: Files + Input> RealShelf<R> {
    /// The shelf of the files and of the standard input of `rt`, a runtime or a reference to one.
    /// No file is current yet.
    pub fn new(rt: R) -> RealShelf<R>
        ensures faults { result.faults ≡ 0 }
        ensures failed { result.failed ≡ false }
    {
        RealShelf {
            rt,
            source: Source::Nothing,
            faults: 0,
            failed: false,
        }
    }

    // Keeps whether this call failed, and counts the failure.
    fn record<T>(&mut self, outcome: Result<T, Failed>) -> Result<T, Failed>
        ensures same { result ≡ outcome }
        ensures faults { self.new.faults ≡ faults_after self.old.faults outcome }
        ensures failed { self.new.failed ≡ is_err outcome }
        ensures cause { HasCause self.old.faults self.new.faults outcome }
        ensures never_falls { self.old.faults ≤ self.new.faults }
    {
        self.failed = outcome.is_err();
        if self.failed {
            self.faults = self.faults.saturating_add(1);
        }
        outcome
    }

    fn open(&self, name: &str) -> Result<Source<R::Reader, R::File>, Failed> {
        if name == "-" {
            return Ok(Source::Input(self.rt.reader()));
        }
        match fs::open(&self.rt, name) {
            Ok(file) => Ok(Source::File(file)),
            Err(_) => Err(Failed),
        }
    }
}

// How many bytes one read asks for at most.
const PIECE: usize = 8192;

impl<R: Files + Input> Shelf for RealShelf<R> {
    ghost tells = { real_shelf_tells };

    /// Opens the file of this name, or standard input.
    ///
    /// Answers Failed where the file can't be opened; then no file is current.
    fn pick(&mut self, name: &str) -> Result<(), Failed>
        ensures faults { self.new.faults ≡ faults_after self.old.faults result }
        ensures failed { self.new.failed ≡ is_err result }
        ensures cause { HasCause self.old.faults self.new.faults result }
        ensures never_falls { self.old.faults ≤ self.new.faults }
    {
        self.source = Source::Nothing;
        match self.open(name) {
            Ok(source) => {
                self.source = source;
                self.record(Ok(()))
            }
            Err(Failed) => self.record(Err(Failed)),
        }
    }

    /// Reads the next bytes of the current file into the first places of the buffer, and answers
    /// how many bytes these are; 0 is the end of the file.
    ///
    /// Answers Failed where the read fails or no file is current.
    fn read(&mut self, buf: &mut [u8]) -> Result<usize, Failed>
        requires { 0 < length buf.old }
        ensures within { IfOk result (λ n. n ≤ length buf.new) }
        ensures others { IfOk result (λ n. drop n buf.new ≡ drop n buf.old) }
        ensures faults { self.new.faults ≡ faults_after self.old.faults result }
        ensures failed { self.new.failed ≡ is_err result }
        ensures cause { HasCause self.old.faults self.new.faults result }
        ensures never_falls { self.old.faults ≤ self.new.faults }
    {
        let mut piece = [0; PIECE];
        let most = buf.len().min(PIECE);
        let outcome = self.source.read(&mut piece[..most]);
        let count = self.record(outcome)?;
        buf[..count].copy_from_slice(&piece[..count]);
        Ok(count)
    }

    ghost asked_told = { λ _ h. h };
}
