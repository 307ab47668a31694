//! Sorted sets of intervals.

ghost use Rattle.std.specs.Prelude.{◌≡◌, [], ◌∷◌, length, not, filter, IfSome, IfNone, IfOk, OnOk, OnErr};
ghost use Rattle.std.specs.Option.{is_some};
ghost use Rattle.std.specs.Iterator.{YieldsFirstRef, YieldsLastRef, item_count};
ghost use Rattle.std.specs.BTreeMap.Range.{range_contains};
ghost use Rattle.nf_core.specs.Intervals.{interval_cmp};
ghost use Rattle.nf_core.specs.Sets.{IsSet, has, inserted, removed};

use crate::errors::NoMemory;
use crate::intervals::Interval;
use nf_blocks::{BlockSet, Walk};
use std::alloc::Global;
use std::marker::Model;
use std::ops::RangeBounds;

/// A sorted list of intervals, each once. Contracts see that list.
#[derive(Debug, Drop)]
pub struct IntervalSet {
    set: BlockSet<Interval>,
}

impl Model for IntervalSet {
    ghost use Rattle.std.specs.Prelude.{List};
    ghost use Rattle.nf_core.specs.Intervals as interval;

    ghost Value = { List interval.Interval };

    ghost use Rattle.nf_core.specs.Sets.{IsSet};

    ghost view = { λ s. s.set };

    ghost invariant = { λ s. IsSet s.set };
}

impl IntervalSet {
    /// The set without intervals. Takes no memory.
    pub fn new(alloc: Global) -> IntervalSet
        ensures { result ≡ [] }
    {
        IntervalSet {
            set: BlockSet::new(alloc),
        }
    }

    /// Adds an interval, and answers whether it wasn't there. Where memory is wanted the set stays
    /// as it was.
    pub fn insert(&mut self, interval: Interval) -> Result<bool, NoMemory>
        ensures added { IfOk result (λ added. added ≡ not (has self.old interval)) }
        ensures ok { OnOk result (self.new ≡ inserted interval self.old) }
        ensures err { OnErr result (self.new ≡ self.old) }
    {
        Ok(self.set.insert(interval)?)
    }

    /// Takes an interval away, and answers whether it was there. Takes no memory.
    pub fn remove(&mut self, interval: &Interval) -> bool
        ensures found { result ≡ has self.old interval.now }
        ensures rest { self.new ≡ removed interval.now self.old }
    {
        self.set.remove(interval)
    }

    /// Takes an interval away and answers it, None where it wasn't there. Takes no memory.
    pub fn take(&mut self, interval: &Interval) -> Option<Interval>
        ensures found { is_some result ≡ has self.old interval.now }
        ensures itself { IfSome result (λ i. i ≡ interval.now) }
        ensures rest { self.new ≡ removed interval.now self.old }
    {
        self.set.take(interval)
    }

    /// Takes the first interval away and answers it, None where there is none. Takes no memory.
    pub fn pop_first(&mut self) -> Option<Interval>
        ensures first { IfSome result (λ i. self.old ≡ i ∷ self.new) }
        ensures none { IfNone result (self.old ≡ []) }
        ensures empty { IfNone result (self.new ≡ []) }
        ensures sorted { IsSet self.old }
    {
        self.set.pop_first()
    }

    /// How many intervals there are. Takes no memory.
    pub fn len(&self) -> usize
        ensures { result ≡ length self.now }
    {
        self.set.len()
    }

    /// Whether an interval is in the set. Takes no memory.
    pub fn has(&self, interval: &Interval) -> bool
        ensures { result ≡ has self.now interval.now }
    {
        self.set.contains(interval)
    }

    /// The intervals, as borrowed, ascending. Takes no memory.
    pub fn walk(&self) -> Held<'_>
        ensures items { result ≡ self.now }
        ensures sorted { IsSet self.now }
    {
        Held {
            rest: self.set.iter(),
        }
    }

    /// The intervals between two bounds, as borrowed, ascending, from either end. Takes no memory.
    pub fn range<R: RangeBounds<Interval> + Drop>(&self, range: R) -> Part<'_>
        ensures between { R.has_bounds range → result ≡ filter
            (range_contains interval_cmp (R.start_bound range) (R.end_bound range)) self.now }
        ensures sorted { IsSet self.now }
    {
        Part {
            rest: self.set.range(range),
        }
    }
}

/// Walks a sorted list of intervals as borrows, ascending. Contracts see the intervals that are
/// left.
#[derive(Drop)]
pub struct Held<'a> {
    rest: Walk<'a, Interval>,
}

impl<'a> Model for Held<'a> {
    ghost use Rattle.std.specs.Prelude.{List};
    ghost use Rattle.nf_core.specs.Intervals as interval;

    ghost Value = { List interval.Interval };

    ghost view = { λ h. h.rest };
}

impl<'a> Iterator for Held<'a> {
    type Item = &'a Interval;

    ghost next_gives = { YieldsFirstRef (λ h. h) };

    ghost remaining = { item_count (λ h. h) };

    fn next(&mut self) -> Option<&'a Interval> {
        self.rest.next()
    }
}

/// Walks a part of a sorted list of intervals as borrows, ascending, from either end. Contracts see
/// the intervals that are left.
#[derive(Drop)]
pub struct Part<'a> {
    rest: Walk<'a, Interval>,
}

impl<'a> Model for Part<'a> {
    ghost use Rattle.std.specs.Prelude.{List};
    ghost use Rattle.nf_core.specs.Intervals as interval;

    ghost Value = { List interval.Interval };

    ghost view = { λ p. p.rest };
}

impl<'a> Iterator for Part<'a> {
    type Item = &'a Interval;

    ghost next_gives = { YieldsFirstRef (λ p. p) };

    ghost remaining = { item_count (λ p. p) };

    fn next(&mut self) -> Option<&'a Interval> {
        self.rest.next()
    }
}

impl<'a> DoubleEndedIterator for Part<'a> {
    ghost next_back_gives = { YieldsLastRef (λ p. p) };

    fn next_back(&mut self) -> Option<&'a Interval> {
        self.rest.next_back()
    }
}
