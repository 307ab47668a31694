//! A sink in memory whose failures are chosen.
ghost use Rattle.std.specs.Prelude.{◌≡◌, ◌<◌, ◌≤◌, ◌&&◌, ◌==◌, [], length, take, min, max, nat_lt, Some, Ok, IfOk, OnErr, is_err, if◌then◌else◌};
ghost use Rattle.std.specs.Option.{option_copied};
ghost use Rattle.nf_io.specs.Bytes.{Took};
ghost use Rattle.nf_io.specs.Causes.{HasCause, faults_after, risen};
ghost use Rattle.nf_io.specs.Memory.{is_next_listed, mem_sink_tells, told_after};

use crate::call_list::CallList;
use crate::counted::Calls;
use crate::failure::Failed;
use crate::sinks::Sink;
use crate::sure_sink::SureSink;
use std::marker::Model;

/// A sink in memory that takes at most a number of bytes a call. The listed calls of `write`,
/// counted from 1, fail, and no others; a call with an empty piece isn't counted. It keeps its
/// bytes and tells them as `SureSink` does.
///
/// A contract sees what it took, where told, the places of its buffer, the most bytes of one
/// call, the listed calls, and the calls and faults so far (`MemSinkState` in specs/Memory.antt).
#[derive(Drop)]
pub struct MemSink<'a> {
    inner: SureSink<'a>,
    most: usize,
    calls: Calls,
}

impl<'a> Model for MemSink<'a> {
    ghost use Rattle.std.specs.Prelude.{◌<◌};
    ghost use Rattle.nf_io.specs.Memory.{MemSinkState};

    ghost Value = { MemSinkState };

    ghost view = { λ s. record {
      taken = s.inner.taken;
      room = s.inner.room;
      most = s.most;
      fails = s.calls.fails;
      calls = s.calls.count;
      faults = s.calls.faults;
    } };

    ghost invariant = { λ s. 0 < s.most };
}

impl<'a> MemSink<'a> {
    /// The sink over this buffer, which takes at most `most` bytes a call, and at least one, and
    /// of which the calls in `fails` fail. It has taken nothing yet.
    pub fn new(buffer: &'a mut [u8], most: usize, fails: CallList) -> MemSink<'a>
        ensures taken { result.taken ≡ Some [] }
        ensures room { result.room ≡ length buffer.old }
        ensures most { result.most ≡ max most 1 }
        ensures fails { result.fails ≡ fails }
        ensures calls { result.calls ≡ 0 }
        ensures faults { result.faults ≡ 0 }
    {
        MemSink {
            inner: SureSink::new(buffer),
            most: most.max(1),
            calls: Calls::new(fails),
        }
    }

    /// What the sink took; None exactly where it doesn't tell, since some byte didn't fit.
    pub fn bytes(&self) -> Option<&[u8]>
        ensures { option_copied result ≡ self.now.taken }
    {
        self.inner.bytes()
    }
}

impl<'a> Sink for MemSink<'a> {
    ghost tells = { mem_sink_tells };

    /// Takes the first bytes of the piece, as many as one call takes, and answers how many.
    ///
    /// Answers Failed exactly where the piece isn't empty and the call is listed; then what was
    /// taken stays.
    fn write(&mut self, bytes: &[u8]) -> Result<usize, Failed>
        ensures fails { is_err result
            ≡ (nat_lt 0 (length bytes.now) && is_next_listed self.old.fails self.old.calls) }
        ensures empty { bytes.now ≡ [] → result ≡ Ok 0 }

        ensures room { self.new.room ≡ self.old.room }
        ensures most { self.new.most ≡ self.old.most }
        ensures listed { self.new.fails ≡ self.old.fails }

        ensures count { IfOk result (λ n. n ≡ min self.old.most (length bytes.now)) }
        ensures some { IfOk result (λ n. 0 < length bytes.now → 0 < n) }
        ensures within { IfOk result (λ n. n ≤ length bytes.now) }
        ensures told { IfOk result (λ n. 0 < n →
            self.new.taken ≡ told_after self.old.room self.old.taken (take n bytes.now)) }
        ensures taken { IfOk result (λ n. Took self.old.taken self.new.taken (take n bytes.now)) }
        ensures stays { bytes.now ≡ [] → self.new.taken ≡ self.old.taken }
        ensures err { OnErr result (self.new.taken ≡ self.old.taken) }

        ensures calls { self.new.calls
            ≡ (if length bytes.now == 0 then self.old.calls else risen self.old.calls) }
        ensures faults { self.new.faults ≡ faults_after self.old.faults result }
        ensures cause { HasCause self.old.faults self.new.faults result }
        ensures never_falls { self.old.faults ≤ self.new.faults }
    {
        if bytes.is_empty() {
            return Ok(0);
        }
        self.calls.next(true)?;
        let count = self.most.min(bytes.len());
        self.inner.keep(&bytes[..count]);
        Ok(count)
    }
}
