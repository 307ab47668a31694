//! How often ends fall from one interval to the next in the order by begin.

ghost use Rattle.std.specs.Prelude.{◌≡◌, ◌+◌, ◌≤◌, false, not, IfSome};
ghost use Rattle.std.specs.Option.{is_some, option_copied};
ghost use Rattle.nf_core.specs.Sets.{IsSet, has};
ghost use Rattle.nf_index.specs.inner.Orders.{fall, falls};
ghost use Rattle.nf_index.specs.inner.Turning.{AreTurns, IsBehind};

use nf_core::{Interval, IntervalSet};
use std::ops::Bound;

/// How often ends fall at an interval's place in a set: from the one before it to it and on to the
/// one after it, and from the one before to the one after without it.
#[derive(Debug, Clone, Copy, PartialEq, Eq)]
pub struct Turns {
    pub with: usize,
    pub without: usize,
}

// 1 where the first of two neighbours ends after the second, else 0.
fn fall_of(before: Option<&Interval>, after: Option<&Interval>) -> usize
    ensures is { result ≡ fall (option_copied before.entry) (option_copied after.entry) }
    ensures most { result ≤ 1 }
{
    match (before, after) {
        (Some(before), Some(after)) if after.stop < before.stop => 1,
        _ => 0,
    }
}

// The turns at the place of an interval behind all others, None where it isn't behind all. Takes no
// memory.
fn turns_behind(begins: &IntervalSet, interval: &Interval) -> Option<Turns>
    ensures behind { IfSome result (λ turns. IsBehind begins.now interval.now turns) }
    ensures sorted { IsSet begins.now }
{
    let mut all = begins.range(..);
    let last = all.next_back()?;
    if last.cmp(interval).is_lt() {
        Some(Turns {
            with: fall_of(Some(last), Some(interval)),
            without: 0,
        })
    } else {
        None
    }
}

// The turns between an interval's neighbours. Takes no memory.
fn turns_between(begins: &IntervalSet, interval: &Interval) -> Turns
    ensures { has begins.now interval.now ≡ false → AreTurns begins.now interval.now result }
{
    let mut part = begins.range(..interval);
    let before = part.next_back();
    let mut part = begins.range((Bound::Excluded(interval), Bound::Unbounded));
    let after = part.next();
    Turns {
        with: fall_of(before, Some(interval)) + fall_of(Some(interval), after),
        without: fall_of(before, after),
    }
}

/// How often ends fall at the place in a set of an interval that isn't there. One behind all others,
/// as in a trace it mostly is, is looked for no further. Takes no memory.
pub fn turns_at(begins: &IntervalSet, interval: &Interval) -> Turns
    requires { has begins.now interval.now ≡ false }
    ensures turns { AreTurns begins.now interval.now result }
    ensures sorted { IsSet begins.now }
{
    match turns_behind(begins, interval) {
        Some(turns) => turns,
        None => turns_between(begins, interval),
    }
}

/// The same, and None exactly where the interval is there.
pub fn turns_where_new(begins: &IntervalSet, interval: &Interval) -> Option<Turns>
    ensures new { IfSome result (λ turns. AreTurns begins.now interval.now turns) }
    ensures absent { is_some result ≡ not (has begins.now interval.now) }
    ensures sorted { IsSet begins.now }
{
    match turns_behind(begins, interval) {
        Some(turns) => Some(turns),
        None if begins.has(interval) => None,
        None => Some(turns_between(begins, interval)),
    }
}

/// The count of falling ends of a set that one interval was put into or taken out of, from the count
/// before that, where so many falls went and so many came. Takes no memory.
pub fn counted(begins: &IntervalSet, count: usize, gone: usize, come: usize) -> usize
    requires changes { falls begins.now + gone ≡ count + come }
    requires within { gone ≤ count }
    ensures { result ≡ falls begins.now }
{
    // a set has fewer intervals than a `usize` counts, so the falls fit
    let _ = begins.len();
    count - gone + come
}
