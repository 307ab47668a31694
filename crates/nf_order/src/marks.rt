//! The marks of numbers in the search for their levels.

ghost use Rattle.std.specs.Prelude.{◌≡◌, ◌+◌, ◌^◌, ◌<◌, ◌≤◌, length, take, slice_index_or, All, IfOk};
ghost use Rattle.std.proofs.Common.{replicate};
ghost use Rattle.nf_order.specs.inner.Marks.{HasLevel, is_new, is_leveled, level_in, level_at, level_over};

use nf_core::NoMemory;
use std::alloc::Global;

/// What the search knows of a number: nothing, that it is on the path that is followed, its level, or
/// that a cycle stands below it.
#[derive(Debug, Clone, Copy)]
pub(crate) enum Mark {
    New,
    Open,
    Leveled(usize),
    Stuck,
}

impl Mark {
    /// Whether nothing is known of the number.
    pub(crate) fn is_new(self) -> bool
        ensures { result ≡ is_new self }
    {
        matches!(self, Mark::New)
    }

    /// Whether the number has a level.
    pub(crate) fn is_leveled(self) -> bool
        ensures { result ≡ is_leveled self }
    {
        matches!(self, Mark::Leveled(_))
    }

    /// The level, and 0 where there is none.
    pub(crate) fn level(self) -> usize
        ensures { result ≡ level_in self }
    {
        match self {
            Mark::Leveled(level) => level,
            _ => 0,
        }
    }
}

/// Some numbers of which nothing is known.
pub(crate) fn new_marks(alloc: Global, numbers: usize) -> Result<Vec<Mark>, NoMemory>
    ensures { IfOk result (λ marks. marks.items ≡ replicate numbers Mark.New) }
{
    let mut marks = Vec::new(alloc);
    for _ in 0..numbers {
        marks.push(Mark::New)?;
    }
    Ok(marks)
}

/// The first place, from one on, at which a number has no level, and the number of places where there is
/// none. Before that one every number has its level.
pub(crate) fn next_unleveled(below: &[usize], marks: &[Mark], from: usize) -> usize
    requires within { All (λ m. m < length marks.now) below.now }
    requires from_within { from ≤ length below.now }
    requires leveled { All (HasLevel marks.now) (take from below.now) }
    ensures within { result ≤ length below.now }
    ensures leveled { All (HasLevel marks.now) (take result below.now) }
    ensures stops { result < length below.now
        → ¬ HasLevel marks.now (slice_index_or below.now result 0) }
{
    let mut place = from;
    while place < below.len() && marks[below[place]].is_leveled() {
        place += 1;
    }
    place
}

/// The level of a number, from those of the numbers below it: 0 where there are none, else one more than the
/// greatest.
pub(crate) fn level_above(below: &[usize], marks: &[Mark]) -> usize
    requires within { All (λ m. m < length marks.now) below.now }
    requires fits { All (λ m. level_at marks.now m + 1 < 2 ^ 64) below.now }
    ensures { result ≡ level_over marks.now below.now }
{
    let mut level = 0;
    for number in below {
        level = level.max(marks[*number].level() + 1);
    }
    level
}
