//! Intervals, and what a step gains and loses.

use crate::copies::TryCopy;
use crate::errors::NoMemory;
use crate::lists::ListOf;
use crate::rows::Row;
use std::alloc::Global;
use std::marker::Model;

/// An interval: it begins at `start`, ends at `stop`, which is not before `start`, and carries a
/// row. Intervals are ordered by begin, then end, then row (`interval_cmp` of specs/Intervals).
#[derive(Debug, Drop, PartialEq, Eq, PartialOrd, Ord)]
pub struct Interval {
    pub start: i64,
    pub stop: i64,
    pub row: Row,
}

impl Model for Interval {
    ghost use Rattle.std.specs.Prelude.{◌≤ℤ◌};
    ghost use Rattle.nf_core.specs.Intervals as spec;

    ghost Value = { spec.Interval };

    ghost view = { λ i. record { start = i.start; stop = i.stop; row = i.row } };

    ghost invariant = { λ i. i.start ≤ℤ i.stop };

    ghost inverse = { λ i. record { start = i.start; stop = i.stop; row = i.row } };
}

impl TryCopy for Interval {
    fn copy(&self, alloc: Global) -> Result<Interval, NoMemory> {
        Ok(Interval {
            start: self.start,
            stop: self.stop,
            row: self.row.copy(alloc)?,
        })
    }
}

/// An interval of a name, by the name's number in the plan.
#[derive(Debug, Drop)]
pub struct Named {
    pub name: u32,
    pub interval: Interval,
}

/// A list of intervals with their names.
pub type NamedList = ListOf<Named>;

/// A list of intervals.
pub type IntervalList = ListOf<Interval>;

/// What the held intervals of all heads lost and gained.
#[derive(Debug, Drop)]
pub struct Change {
    pub gone: NamedList,
    pub come: NamedList,
}

/// What a list of intervals lost and gained.
#[derive(Debug, Drop)]
pub struct Delta {
    pub gone: IntervalList,
    pub come: IntervalList,
}
