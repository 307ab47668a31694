//! Sources that come and go, and the candidates that they make.

ghost use Rattle.std.specs.Prelude.{◌<◌, ◌≤◌, OnOk};
ghost use Rattle.nf_tally.specs.Numbers.{often};

use crate::judging::Judging;
use nf_core::{Interval, IntervalList, NoMemory};
use nf_tally::Tally;
use std::alloc::Global;

/// Candidates, each of which has a source, and how many sources each has besides that one. After an
/// error both may be anything.
#[derive(Drop)]
pub struct Counting {
    pub judging: Judging,
    pub more: Tally,
}

impl Counting {
    ghost use Rattle.nf_minimal.specs.inner.Counts.{total, IsRight, Gains, GainAll, Loses, LoseAll};

    /// Each of a list gains a source, as often as it stands there.
    pub fn gain_all(&mut self, alloc: Global, come: IntervalList) -> Result<(), NoMemory>
        requires { IsRight self.old }
        ensures { OnOk result (GainAll come self.old self.new) }
    {
        let mut rest = come.into_vec();
        while let Some(interval) = rest.pop() {
            self.gain(alloc, interval)?;
        }
        Ok(())
    }

    /// Each of a list loses a source, as often as it stands there.
    pub fn lose_all(&mut self, alloc: Global, gone: IntervalList) -> Result<(), NoMemory>
        requires right { IsRight self.old }
        requires there { (q : _) → often gone q ≤ total self.old q }
        ensures { OnOk result (LoseAll gone self.old self.new) }
    {
        let mut rest = gone.into_vec();
        while let Some(interval) = rest.pop() {
            self.lose(alloc, interval)?;
        }
        Ok(())
    }

    /// An interval gains a source. With its first one it becomes a candidate.
    fn gain(&mut self, alloc: Global, interval: Interval) -> Result<(), NoMemory>
        requires { IsRight self.old }
        ensures { OnOk result (Gains interval self.old self.new) }
    {
        if self.judging.has(&interval) {
            return self.more.raise(interval);
        }
        self.judging.arrive(alloc, interval)
    }

    /// An interval loses a source. Without its last one it is no candidate any more.
    fn lose(&mut self, alloc: Global, interval: Interval) -> Result<(), NoMemory>
        requires right { IsRight self.old }
        requires there { 0 < total self.old interval }
        ensures { OnOk result (Loses interval self.old self.new) }
    {
        if self.more.number(&interval) > 0 {
            self.more.lower(&interval);
            return Ok(());
        }
        self.judging.leave(alloc, interval)
    }
}
