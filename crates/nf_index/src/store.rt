//! The store.

ghost use Rattle.std.specs.Prelude.{◌≡◌, [], not, ◌&&◌, false, filter, int_lt, IfSome, IfOk, OnOk, OnErr};
ghost use Rattle.std.specs.Option.{is_some};
ghost use Rattle.std.specs.List.Sorted.{IsPermutation};
ghost use Rattle.nf_core.specs.Sets.{IsSet, has, inserted, removed};
ghost use Rattle.nf_index.specs.Matching.{matches};
ghost use Rattle.nf_index.specs.declared.times.Times as declared;
ghost use Rattle.nf_index.specs.inner.Orders.{IsIndex, has_end, is_same_end};

use crate::falls::{counted, turns_at, turns_where_new};
use crate::forgetting::pop_before;
use crate::matching::Matching;
use crate::plans::walk_of;
use crate::relations::{Rel, Which};
use crate::rest::next_in;
use crate::times::{Times, own_times, with_times};
use crate::windows::window_of;
use nf_blocks::BlockSet;
use nf_core::{Held, Interval, IntervalSet, NoMemory};
use std::alloc::Global;
use std::marker::Model;

/// The intervals of one name, each once, in two orders.
#[derive(Debug, Drop)]
pub struct Store {
    alloc: Global,
    begins: IntervalSet,
    ends: BlockSet<Times>,
    falls: usize,
}

impl Model for Store {
    ghost use Rattle.std.specs.Prelude.{List};
    ghost use Rattle.nf_core.specs.Intervals as interval;

    ghost Value = { List interval.Interval };

    ghost use Rattle.nf_index.specs.inner.Orders.{IsIndex};

    ghost view = { λ s. s.begins };

    ghost invariant = { λ s. IsIndex s.begins s.ends s.falls };
}

impl Store {
    /// The store without intervals. Takes no memory.
    pub fn new(alloc: Global) -> Store
        ensures { result ≡ [] }
    {
        Store {
            alloc,
            begins: IntervalSet::new(alloc),
            ends: BlockSet::new(alloc),
            falls: 0,
        }
    }

    /// Adds an interval, and answers whether it wasn't there. Where memory is wanted the store stays
    /// as it was.
    pub fn insert(&mut self, interval: Interval) -> Result<bool, NoMemory>
        ensures added { IfOk result (λ added. added ≡ not (has self.old interval)) }
        ensures ok { OnOk result (self.new ≡ inserted interval self.old) }
        ensures err { OnErr result (self.new ≡ self.old) }
    {
        let Some(turns) = turns_where_new(&self.begins, &interval) else {
            return Ok(false);
        };
        let times = own_times(&interval);
        let entered = self.ends.insert(times)?;
        match self.begins.insert(interval) {
            Ok(added) => {
                self.falls = counted(&self.begins, self.falls, turns.without, turns.with);
                Ok(added)
            }
            Err(error) => {
                leave(&mut self.ends, &times, entered);
                Err(error)
            }
        }
    }

    /// Takes an interval away, and answers whether it was there. Takes no memory.
    pub fn remove(&mut self, interval: &Interval) -> bool
        ensures found { result ≡ has self.old interval.now }
        ensures rest { self.new ≡ removed interval.now self.old }
    {
        self.take(interval).is_some()
    }

    /// Takes an interval away and answers it, None where it wasn't there. Takes no memory.
    pub fn take(&mut self, interval: &Interval) -> Option<Interval>
        ensures found { is_some result ≡ has self.old interval.now }
        ensures itself { IfSome result (λ i. i ≡ interval.now) }
        ensures rest { self.new ≡ removed interval.now self.old }
    {
        let Some(one) = self.begins.take(interval) else {
            return None;
        };
        self.falls = taken(
            self.alloc,
            &self.begins,
            &mut self.ends,
            self.falls,
            interval,
        );
        Some(one)
    }

    /// Takes away the intervals that begin before a time. Takes no memory.
    pub fn forget(&mut self, before: i64)
        ensures { self.new ≡ filter (λ i. not (int_lt i.start before)) self.old }
    {
        while let Some(interval) = pop_before(&mut self.begins, &before) {
            self.falls = taken(
                self.alloc,
                &self.begins,
                &mut self.ends,
                self.falls,
                &interval,
            );
        }
    }

    /// Whether an interval is in the store. Takes no memory.
    pub fn has(&self, interval: &Interval) -> bool
        ensures { result ≡ has self.now interval.now }
    {
        self.begins.has(interval)
    }

    /// The intervals, as borrowed, ascending. Takes no memory.
    pub fn walk(&self) -> Held<'_>
        ensures all { result ≡ self.now }
        ensures sorted { IsSet self.now }
    {
        self.begins.walk()
    }

    /// The intervals that stand in a relation, as its first or its second member, to given times as
    /// the other member, as borrowed, in no order that is promised. Takes no memory.
    ///
    /// What it looks at: for `before`, `meet`, `coincide`, `start`, `finish`, `after` and `follow`
    /// what it gives and nothing else. For `during`, `contain`, `overlap`, `slice` and `Inside` the
    /// same, if in the order by begin no interval ends before the one in front of it. Else for the
    /// intervals within the given times those that begin within them, and for those around them or
    /// overlapping them those that end late enough.
    pub fn matching(&self, rel: Rel, which: Which, start: i64, stop: i64) -> Matching<'_>
        ensures exactly { IsPermutation (filter (matches rel which start stop) self.now) result }
        ensures sorted { IsSet self.now }
    {
        let times = Times { stop, start };
        let window = window_of(rel, which);
        Matching {
            rest: walk_of(
                self.alloc,
                &self.begins,
                &self.ends,
                self.falls,
                window,
                &times,
            ),
            window,
            times,
            visits: 0,
        }
    }

    /// The same for an interval's own times.
    pub fn matching_with(&self, rel: Rel, which: Which, interval: &Interval) -> Matching<'_>
        ensures exactly { IsPermutation
            (filter (matches rel which interval.now.start interval.now.stop) self.now) result }
    {
        let times = own_times(interval);
        let window = window_of(rel, which);
        Matching {
            rest: walk_of(
                self.alloc,
                &self.begins,
                &self.ends,
                self.falls,
                window,
                &times,
            ),
            window,
            times,
            visits: 0,
        }
    }
}

// Takes times out of the order by end if they are to go. Takes no memory.
fn leave(ends: &mut BlockSet<Times>, times: &Times, goes: bool)
    ensures { (t : declared.Times) → has_end ends.new t
        ≡ (has_end ends.old t && not (goes && is_same_end times.now t)) }
{
    if goes {
        ends.remove(times);
    }
}

// Brings the order by end and the count of falls, which it answers, to what the order by begin is
// once an interval was taken out of it. Takes no memory.
fn taken(
    alloc: Global,
    begins: &IntervalSet,
    ends: &mut BlockSet<Times>,
    falls: usize,
    interval: &Interval,
) -> usize
    requires index { IsIndex (inserted interval.now begins.now) ends.old falls }
    requires absent { has begins.now interval.now ≡ false }
    ensures { IsIndex begins.now ends.new result }
{
    let times = own_times(interval);
    let mut others = with_times(alloc, begins, &times);
    let others = next_in(&mut others).is_some();
    let turns = turns_at(begins, interval);
    leave(ends, &times, !others);
    counted(begins, falls, turns.with, turns.without)
}
