//! Parts of the order by end, and where they lead to in the order by begin.

ghost use Rattle.std.specs.Prelude.{◌≡◌, ◌≤ℤ◌, ℕ, List, true, int_lt, int_le, IfSome};
ghost use Rattle.std.specs.Ordering.{int_eq};
ghost use Rattle.std.specs.List.Sorted.{IsStrictlySortedBy};
ghost use Rattle.nf_core.specs.Intervals as spec;
ghost use Rattle.nf_core.specs.Sets.{has};
ghost use Rattle.nf_index.specs.declared.times.Times as spec_times;
ghost use Rattle.nf_index.specs.inner.Orders.{IsIndex, IsPart, IsPlace, has_end, reached, times_cmp};

use crate::times::Times;
use nf_blocks::{BlockSet, Walk};
use std::ops::Bound;

/// The times that end before a time. Takes no memory.
pub fn ends_before<'a>(ends: &'a BlockSet<Times>, time: &i64) -> Walk<'a, Times>
    ensures part { IsPart (λ t. int_lt t.stop time.now) ends.now result }
    ensures sorted { IsStrictlySortedBy times_cmp ends.now }
{
    ends.range(
        ..Times {
            stop: *time,
            start: i64::MIN,
        },
    )
}

/// The times that end at a time. Takes no memory.
pub fn ends_at<'a>(ends: &'a BlockSet<Times>, time: &i64) -> Walk<'a, Times>
    ensures part { IsPart (λ t. int_eq t.stop time.now) ends.now result }
    ensures sorted { IsStrictlySortedBy times_cmp ends.now }
{
    let first = Times {
        stop: *time,
        start: i64::MIN,
    };
    let last = Times {
        stop: *time,
        start: i64::MAX,
    };
    ends.range((Bound::Included(first), Bound::Included(last)))
}

/// The times that end at a time or later. Takes no memory.
pub fn ends_from<'a>(ends: &'a BlockSet<Times>, time: &i64) -> Walk<'a, Times>
    ensures part { IsPart (λ t. int_le time.now t.stop) ends.now result }
    ensures sorted { IsStrictlySortedBy times_cmp ends.now }
{
    let first = Times {
        stop: *time,
        start: i64::MIN,
    };
    ends.range(first..)
}

/// The times that end after a time. Takes no memory.
pub fn ends_after<'a>(ends: &'a BlockSet<Times>, time: &i64) -> Walk<'a, Times>
    ensures part { IsPart (λ t. int_lt time.now t.stop) ends.now result }
    ensures sorted { IsStrictlySortedBy times_cmp ends.now }
{
    let last = Times {
        stop: *time,
        start: i64::MAX,
    };
    ends.range((Bound::Excluded(last), Bound::Unbounded))
}

// The latest of some ends, None where there is none. Takes no memory.
fn latest(ends: &BlockSet<Times>) -> Option<Times>
    ensures { IfSome result (λ last. (t : spec_times.Times) →
        has_end ends.now t ≡ true → t.stop ≤ℤ last.stop) }
{
    ends.iter().next_back().copied()
}

/// The place of the first interval that ends at a time or later, where ends fall nowhere. Takes no
/// memory.
pub fn end_from(ends: &BlockSet<Times>, time: &i64) -> Option<Times>
    ensures place { (is : List spec.Interval) (n : ℕ) →
        IsIndex is ends.now n → IsPlace result }
    ensures is { (is : List spec.Interval) → IsIndex is ends.now 0 →
        (i : spec.Interval) → has is i ≡ true → reached result i ≡ int_le time.now i.stop }
{
    match latest(ends) {
        Some(latest) if latest.stop < *time => None,
        _ => ends_from(ends, time).next().copied(),
    }
}

/// The place of the first interval that ends after a time, where ends fall nowhere. Takes no memory.
pub fn end_after(ends: &BlockSet<Times>, time: &i64) -> Option<Times>
    ensures place { (is : List spec.Interval) (n : ℕ) →
        IsIndex is ends.now n → IsPlace result }
    ensures is { (is : List spec.Interval) → IsIndex is ends.now 0 →
        (i : spec.Interval) → has is i ≡ true → reached result i ≡ int_lt time.now i.stop }
{
    match latest(ends) {
        Some(latest) if latest.stop <= *time => None,
        _ => ends_after(ends, time).next().copied(),
    }
}
