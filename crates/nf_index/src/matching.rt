//! The intervals of a store that stand in a relation to given times.

ghost use Rattle.std.specs.Iterator.{YieldsFirstRef, item_count};

use crate::rest::{Rest, next_of};
use crate::times::Times;
use crate::windows::{Window, contains};
use nf_core::Interval;
use std::marker::Model;

/// Walks the intervals of a store that stand in a relation to given times, as borrows, in no order
/// that is promised. Contracts see the intervals that are left.
#[derive(Drop)]
pub struct Matching<'a> {
    pub(crate) rest: Rest<'a>,
    pub(crate) window: Window,
    pub(crate) times: Times,
    pub(crate) visits: u64,
}

impl<'a> Model for Matching<'a> {
    ghost use Rattle.std.specs.Prelude.{List, filter};
    ghost use Rattle.nf_core.specs.Intervals as interval;
    ghost use Rattle.nf_index.specs.inner.Windows.{in_window};
    ghost use Rattle.nf_index.specs.inner.Walks.{left};

    ghost Value = { List interval.Interval };

    ghost view = { λ m. filter (in_window m.window m.times.start m.times.stop) (left m.rest) };
}

impl<'a> Matching<'a> {
    /// How many intervals of the store were looked at so far. Stands still at `u64::MAX`.
    pub fn visits(&self) -> u64 {
        self.visits
    }
}

impl<'a> Iterator for Matching<'a> {
    type Item = &'a Interval;

    ghost next_gives = { YieldsFirstRef (λ m. m) };

    ghost remaining = { item_count (λ m. m) };

    fn next(&mut self) -> Option<&'a Interval> {
        while let Some(interval) = next_of(&mut self.rest) {
            self.visits = self.visits.saturating_add(1);
            if contains(self.window, &self.times, interval) {
                return Some(interval);
            }
        }
        None
    }
}
