//! A shelf in memory whose failures are chosen.
ghost use Rattle.std.specs.Prelude.{◌≡◌, ◌<◌, ◌≤◌, ◌||◌, [], length, take, drop, false, max, Some, None, IfSome, IfOk, OnOk, OnErr, option_map, is_none, is_err, refl};
ghost use Rattle.nf_io.specs.Files.{file_of, asked_of, bytes_of};
ghost use Rattle.nf_io.specs.Bytes.{Gives};
ghost use Rattle.nf_io.specs.Causes.{HasCause, faults_after, risen};
ghost use Rattle.nf_io.specs.Memory.{is_next_listed, left_of, mem_shelf_tells, read_count};

use crate::call_list::CallList;
use crate::counted::Calls;
use crate::failure::Failed;
use crate::file_map::FileMap;
use crate::shelves::Shelf;
use crate::sure_shelf::SureShelf;
use std::marker::Model;

/// A shelf in memory that tells everything. The listed calls of `pick` and `read`, counted
/// together from 1, fail, and so does `pick` of an unknown name; no other call does.
///
/// A contract sees its files, the most bytes of one read, the listed calls, the calls and faults
/// so far, the name asked for, what is left of the current file, and whether the last call failed
/// (`MemShelfState` in specs/Memory.antt).
#[derive(Drop)]
pub struct MemShelf {
    inner: SureShelf,
    calls: Calls,
    failed: bool,
}

impl Model for MemShelf {
    ghost use Rattle.nf_io.specs.Memory.{MemShelfState};

    ghost Value = { MemShelfState };

    ghost view = { λ s. record {
      files = s.inner.files;
      most = s.inner.most;
      fails = s.calls.fails;
      calls = s.calls.count;
      faults = s.calls.faults;
      asked = s.inner.asked;
      rest = s.inner.rest;
      failed = s.failed;
    } };
}

impl MemShelf {
    /// The shelf of these files, of which a read gives at most `most` bytes, and at least one
    /// where there is one, and of which the calls in `fails` fail. No file is current yet.
    pub fn new(files: FileMap, most: usize, fails: CallList) -> MemShelf
        ensures files { result.files ≡ files }
        ensures most { result.most ≡ max most 1 }
        ensures fails { result.fails ≡ fails }
        ensures calls { result.calls ≡ 0 }
        ensures faults { result.faults ≡ 0 }
        ensures asked { result.asked ≡ [] }
        ensures rest { result.rest ≡ None }
        ensures failed { result.failed ≡ false }
    {
        MemShelf {
            inner: SureShelf::new(files, most),
            calls: Calls::new(fails),
            failed: false,
        }
    }
}

impl Shelf for MemShelf {
    ghost tells = { mem_shelf_tells };

    /// Makes the file of this name the current one.
    ///
    /// Answers Failed exactly where the call is listed or the name is unknown; then no file is
    /// current, and the name is asked for all the same, where it is known.
    fn pick(&mut self, name: &str) -> Result<(), Failed>
        ensures fails { is_err result
            ≡ (is_next_listed self.old.fails self.old.calls
            || is_none (file_of self.old.files name.now)) }

        ensures files { self.new.files ≡ self.old.files }
        ensures most { self.new.most ≡ self.old.most }
        ensures listed { self.new.fails ≡ self.old.fails }

        ensures asked { self.new.asked ≡ asked_of self.old.files name.now }
        ensures rest { OnOk result (self.new.rest ≡ Some (bytes_of self.old.files name.now)) }
        ensures untold { OnErr result (self.new.rest ≡ None) }

        ensures calls { self.new.calls ≡ risen self.old.calls }
        ensures faults { self.new.faults ≡ faults_after self.old.faults result }
        ensures failed { self.new.failed ≡ is_err result }
        ensures cause { HasCause self.old.faults self.new.faults result }
        ensures never_falls { self.old.faults ≤ self.new.faults }
    {
        let place = self.inner.find(name);
        let outcome = self.calls.next(place.is_some());
        self.failed = outcome.is_err();
        self.inner.go_to(place, outcome.is_ok());
        outcome
    }

    /// Reads the next bytes of the current file into the first places of the buffer, and answers
    /// how many bytes these are: the least of the most of one read, the buffer's length and the
    /// bytes left (`read_count` in specs/Memory.antt); where no file is current, 0.
    ///
    /// Answers Failed exactly where the call is listed; then the buffer and what is left stay.
    fn read(&mut self, buf: &mut [u8]) -> Result<usize, Failed>
        requires { 0 < length buf.old }
        ensures fails { is_err result ≡ is_next_listed self.old.fails self.old.calls }

        ensures files { self.new.files ≡ self.old.files }
        ensures most { self.new.most ≡ self.old.most }
        ensures listed { self.new.fails ≡ self.old.fails }
        ensures asked { self.new.asked ≡ self.old.asked }

        ensures count { IfOk result (λ n.
            n ≡ read_count self.old.most (length buf.old) (left_of self.old.rest)) }
        ensures bytes { IfOk result (λ n. take n buf.new ≡ take n (left_of self.old.rest)) }
        ensures others { IfOk result (λ n. drop n buf.new ≡ drop n buf.old) }
        ensures rest { IfOk result (λ n. self.new.rest ≡ option_map (drop n) self.old.rest) }
        ensures gives { IfOk result (λ n. IfSome self.old.rest (Gives buf.new n)) }
        ensures err { OnErr result (self.new.rest ≡ self.old.rest) }
        ensures buffer { OnErr result (buf.new ≡ buf.old) }

        ensures calls { self.new.calls ≡ risen self.old.calls }
        ensures faults { self.new.faults ≡ faults_after self.old.faults result }
        ensures failed { self.new.failed ≡ is_err result }
        ensures cause { HasCause self.old.faults self.new.faults result }
        ensures never_falls { self.old.faults ≤ self.new.faults }
    {
        let outcome = self.calls.next(true);
        self.failed = outcome.is_err();
        outcome?;
        Ok(self.inner.read_some(buf))
    }

    ghost asked_told = { λ _ _. refl };
}
