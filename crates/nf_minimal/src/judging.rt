//! Candidates that arrive and leave, and what is held of them.

ghost use Rattle.std.specs.Prelude.{◌≡◌, ℕ, ◌+◌, ◌≤◌, ◌||◌, true, false, List, IfOk, OnOk};
ghost use Rattle.nf_core.specs.Sets.{IsSet, has};
ghost use Rattle.nf_tally.specs.Numbers.{one_at, often};
ghost use Rattle.nf_minimal.specs.inner.Barred.{bars};
ghost use Rattle.nf_minimal.specs.inner.Judged.{IsJudged, present, once_if};

use crate::lookups::{first_barred, is_barred};
use nf_core::{Interval, IntervalList, NoMemory};
use nf_index::Store;
use nf_tally::Net;
use std::alloc::Global;

/// Candidates in two stores, those that are held and those that are suppressed, and what the held ones
/// lost and gained so far. After an error the stores may be anything.
#[derive(Drop)]
pub struct Judging {
    pub full: bool,
    pub held: Store,
    pub suppressed: Store,
    pub net: Net,
}

impl Judging {
    ghost use Rattle.nf_minimal.specs.inner.Moves.{Suppresses, GivesWay, Arrives, ArriveAll, Leaves};

    /// Whether an interval is a candidate.
    pub fn has(&self, interval: &Interval) -> bool
        ensures { result ≡ (has self.now.held interval.now || has self.now.suppressed interval.now) }
    {
        self.held.has(interval) || self.suppressed.has(interval)
    }

    /// An interval becomes a candidate. It is suppressed where a held one lies strictly inside it; else
    /// it is held, and the held ones strictly around it are suppressed.
    pub fn arrive(&mut self, alloc: Global, interval: Interval) -> Result<(), NoMemory>
        requires judged { IsJudged self.old.full self.old.held self.old.suppressed }
        requires new { present self.old.held self.old.suppressed interval ≡ 0 }
        ensures { OnOk result (Arrives interval self.old self.new) }
    {
        if is_barred(self.full, &self.held, &interval) {
            self.suppressed.insert(interval)?;
            return Ok(());
        }
        self.give_way(alloc, &interval)?;
        self.net.enter(alloc, &interval)?;
        self.held.insert(interval)?;
        Ok(())
    }

    /// A candidate is none any more. Where it was held, the suppressed ones strictly around it arrive
    /// again.
    pub fn leave(&mut self, alloc: Global, interval: Interval) -> Result<(), NoMemory>
        requires judged { IsJudged self.old.full self.old.held self.old.suppressed }
        requires there { present self.old.held self.old.suppressed interval ≡ 1 }
        ensures { OnOk result (Leaves interval self.old self.new) }
    {
        if self.suppressed.remove(&interval) {
            return Ok(());
        }
        self.held.remove(&interval);
        let outer = release(self.full, alloc, &mut self.suppressed, &interval)?;
        self.net.leave(interval)?;
        self.arrive_all(alloc, outer)
    }

    /// Each of a list becomes a candidate.
    fn arrive_all(&mut self, alloc: Global, come: IntervalList) -> Result<(), NoMemory>
        requires judged { IsJudged self.old.full self.old.held self.old.suppressed }
        requires new { (q : _) → present self.old.held self.old.suppressed q + often come q ≤ 1 }
        ensures { OnOk result (ArriveAll come self.old self.new) }
    {
        let mut rest = come.into_vec();
        while let Some(interval) = rest.pop() {
            self.arrive(alloc, interval)?;
        }
        Ok(())
    }

    /// Suppresses the held intervals that another one bars.
    fn give_way(&mut self, alloc: Global, interval: &Interval) -> Result<(), NoMemory>
        requires held { IsSet self.old.held }
        requires suppressed { IsSet self.old.suppressed }
        ensures { OnOk result (GivesWay interval.now self.old self.new) }
    {
        while let Some(outer) = first_barred(self.full, alloc, &self.held, interval)? {
            self.suppress(outer)?;
        }
        Ok(())
    }

    /// Suppresses a held interval: it moves from one store to the other.
    fn suppress(&mut self, outer: Interval) -> Result<(), NoMemory>
        requires set { IsSet self.old.held }
        requires held { has self.old.held outer ≡ true }
        ensures { OnOk result (Suppresses outer self.old self.new) }
    {
        let Some(stored) = self.held.take(&outer) else {
            return Ok(());
        };
        self.net.leave(outer)?;
        self.suppressed.insert(stored)?;
        Ok(())
    }
}

/// Takes the intervals that another one bars out of a store, and answers them.
fn release(
    full: bool,
    alloc: Global,
    store: &mut Store,
    interval: &Interval,
) -> Result<IntervalList, NoMemory>
    requires { IsSet store.old }
    ensures counts { IfOk result (λ outer. (q : _)
        → often outer q + once_if (has store.new q) ≡ once_if (has store.old q)) }
    ensures rest { OnOk result ((q : _) → bars full interval.now q ≡ false
        → has store.new q ≡ has store.old q) }
    ensures out { OnOk result ((q : _) → has store.new q ≡ true
        → bars full interval.now q ≡ false) }
    ensures set { OnOk result (IsSet store.new) }
{
    let mut outer = IntervalList::new(alloc);
    while let Some(one) = first_barred(full, alloc, store, interval)? {
        store.remove(&one);
        outer.push(one)?;
    }
    Ok(outer)
}
