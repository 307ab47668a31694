//! Walks over a part of a store: over one or two parts of the order by begin, or from times of the
//! order by end to the intervals that have them.

ghost use Rattle.std.specs.Iterator.{YieldsFirstRef, item_count};
ghost use Rattle.nf_index.specs.inner.Orders.{or_none};
ghost use Rattle.nf_index.specs.inner.Walks.{left};

use crate::times::{Times, with_times};
use nf_blocks::Walk;
use nf_core::{Interval, IntervalSet, Part};
use std::alloc::Global;
use std::marker::Model;

/// The next interval of a part, where there is one. Takes no memory.
pub fn next_in<'a>(part: &mut Option<Part<'a>>) -> Option<&'a Interval>
    ensures { YieldsFirstRef or_none part.old result part.new }
{
    match part {
        Some(part) => part.next(),
        None => None,
    }
}

/// A part of the order by begin, and one more after it. Contracts see the intervals that are left.
#[derive(Drop)]
pub struct Parts<'a> {
    pub(crate) part: Option<Part<'a>>,
    pub(crate) then: Option<Part<'a>>,
}

impl<'a> Model for Parts<'a> {
    ghost use Rattle.std.specs.Prelude.{List, ◌++◌};
    ghost use Rattle.nf_core.specs.Intervals as interval;
    ghost use Rattle.nf_index.specs.inner.Orders.{or_none};

    ghost Value = { List interval.Interval };

    ghost view = { λ p. or_none p.part ++ or_none p.then };
}

impl<'a> Iterator for Parts<'a> {
    type Item = &'a Interval;

    ghost next_gives = { YieldsFirstRef (λ p. p) };

    ghost remaining = { item_count (λ p. p) };

    fn next(&mut self) -> Option<&'a Interval> {
        if let Some(interval) = next_in(&mut self.part) {
            return Some(interval);
        }
        self.part = self.then.take();
        next_in(&mut self.part)
    }
}

/// The intervals with given times, one of these after the other, in the order by end. Contracts see
/// the intervals that are left.
#[derive(Drop)]
pub struct Ends<'a> {
    pub(crate) alloc: Global,
    pub(crate) begins: &'a IntervalSet,
    pub(crate) part: Option<Part<'a>>,
    pub(crate) times: Walk<'a, Times>,
}

impl<'a> Model for Ends<'a> {
    ghost use Rattle.std.specs.Prelude.{List, ◌++◌};
    ghost use Rattle.nf_core.specs.Intervals as interval;
    ghost use Rattle.nf_index.specs.inner.Orders.{AreStored, AreInOrder, by_times, or_none};

    ghost Value = { List interval.Interval };

    ghost view = { λ e. or_none e.part ++ by_times e.begins.now e.times };

    ghost invariant = { λ e. AreStored e.begins.now × AreInOrder e.times };
}

impl<'a> Iterator for Ends<'a> {
    type Item = &'a Interval;

    ghost next_gives = { YieldsFirstRef (λ e. e) };

    ghost remaining = { item_count (λ e. e) };

    fn next(&mut self) -> Option<&'a Interval> {
        loop {
            if let Some(interval) = next_in(&mut self.part) {
                return Some(interval);
            }
            let Some(times) = self.times.next() else {
                return None;
            };
            self.part = with_times(self.alloc, self.begins, times);
        }
    }
}

/// One of the two walks, or none.
#[derive(Drop)]
pub enum Rest<'a> {
    Nothing,
    Parts(Parts<'a>),
    Ends(Ends<'a>),
}

/// The next interval of a walk. Takes no memory.
pub fn next_of<'a>(rest: &mut Rest<'a>) -> Option<&'a Interval>
    ensures { YieldsFirstRef left rest.old result rest.new }
{
    match rest {
        Rest::Nothing => None,
        Rest::Parts(parts) => parts.next(),
        Rest::Ends(ends) => ends.next(),
    }
}
