//! A sink in memory that never fails.
ghost use Rattle.std.specs.Prelude.{◌≡◌, ◌<◌, ◌≤◌, [], length, take, Some, Ok, IfOk, OnErr};
ghost use Rattle.std.specs.Option.{option_copied};
ghost use Rattle.nf_io.specs.Bytes.{Took};
ghost use Rattle.nf_io.specs.Causes.{HasCause};
ghost use Rattle.nf_io.specs.Memory.{sure_sink_tells, told_after};

use crate::copied::copy_after;
use crate::failure::Failed;
use crate::sinks::Sink;
use std::marker::Model;

/// A sink in memory that takes every byte, and keeps those that fit its buffer. It never fails,
/// and tells what it took as long as every byte fitted.
///
/// A contract sees what it took, where told, and the places of its buffer (`SureSinkState` in
/// specs/Memory.antt).
#[derive(Drop)]
pub struct SureSink<'a> {
    buffer: &'a mut [u8],
    used: usize,
    is_whole: bool,
}

impl<'a> Model for SureSink<'a> {
    ghost use Rattle.std.specs.Prelude.{◌≤◌, length, take, Some, None, if◌then◌else◌};
    ghost use Rattle.nf_io.specs.Memory.{SureSinkState};

    ghost Value = { SureSinkState };

    ghost view = { λ s. record {
      taken = if s.is_whole then Some (take s.used s.buffer.now) else None;
      room = length s.buffer.now;
    } };

    ghost invariant = { λ s. s.used ≤ length s.buffer.now };
}

impl<'a> SureSink<'a> {
    /// The sink over this buffer. It has taken nothing yet.
    pub fn new(buffer: &'a mut [u8]) -> SureSink<'a>
        ensures taken { result.taken ≡ Some [] }
        ensures room { result.room ≡ length buffer.old }
    {
        SureSink {
            buffer,
            used: 0,
            is_whole: true,
        }
    }

    /// What the sink took; None exactly where it doesn't tell, since some byte didn't fit.
    pub fn bytes(&self) -> Option<&[u8]>
        ensures { option_copied result ≡ self.now.taken }
    {
        if self.is_whole {
            Some(&self.buffer[..self.used])
        } else {
            None
        }
    }

    // Takes the bytes, and keeps those that fit.
    pub(crate) fn keep(&mut self, bytes: &[u8])
        ensures room { self.new.room ≡ self.old.room }
        ensures taken { self.new.taken ≡ told_after self.old.room self.old.taken bytes.now }
        ensures took { Took self.old.taken self.new.taken bytes.now }
        ensures stays { bytes.now ≡ [] → self.new.taken ≡ self.old.taken }
    {
        let places = &mut *self.buffer;
        let count = copy_after(places, self.used, bytes);
        self.used += count;
        self.is_whole &= count == bytes.len();
    }
}

impl<'a> Sink for SureSink<'a> {
    ghost tells = { sure_sink_tells };

    /// Takes the whole piece. Never fails.
    fn write(&mut self, bytes: &[u8]) -> Result<usize, Failed>
        ensures all { result ≡ Ok (length bytes.now) }
        ensures room { self.new.room ≡ self.old.room }
        ensures told { self.new.taken ≡ told_after self.old.room self.old.taken bytes.now }

        ensures empty { bytes.now ≡ [] → result ≡ Ok 0 }
        ensures stays { bytes.now ≡ [] → self.new.taken ≡ self.old.taken }
        ensures some { IfOk result (λ n. 0 < length bytes.now → 0 < n) }
        ensures within { IfOk result (λ n. n ≤ length bytes.now) }
        ensures taken { IfOk result (λ n. Took self.old.taken self.new.taken (take n bytes.now)) }
        ensures err { OnErr result (self.new.taken ≡ self.old.taken) }

        // No fault is ever counted.
        ensures cause { HasCause 0 0 result }
        ensures never_falls { 0 ≤ 0 }
    {
        self.keep(bytes);
        Ok(bytes.len())
    }
}
