//! Times of intervals, and the parts of a set of intervals between two of them.

ghost use Rattle.std.specs.Prelude.{◌≡◌, ◌≤ℤ◌, true, Some, None, filter, not, ◌&&◌, int_lt, int_le};
ghost use Rattle.nf_core.specs.Intervals as spec;
ghost use Rattle.nf_core.specs.Sets.{IsSet};
ghost use Rattle.nf_index.specs.inner.Orders.{IsPlace, IsStored, AreStored, AreBefore, is_between, or_none, reached, has_times, key_of, times_of};

use nf_core::{Interval, IntervalSet, Part, Row};
use std::alloc::Global;

/// When an interval ends and when it begins. Times are ordered by end, then by begin.
#[derive(Debug, Clone, Copy, PartialEq, Eq, PartialOrd, Ord)]
pub struct Times {
    pub stop: i64,
    pub start: i64,
}

/// The times of an interval. Takes no memory.
pub fn own_times(interval: &Interval) -> Times
    ensures is { result ≡ times_of interval.now }
    ensures place { result.start ≤ℤ result.stop }
{
    Times {
        stop: interval.stop,
        start: interval.start,
    }
}

// The interval before which no other one with these times comes. Takes no memory.
fn key(alloc: Global, times: &Times) -> Interval
    requires { times.now.start ≤ℤ times.now.stop }
    ensures { result ≡ key_of times.now }
{
    Interval {
        start: times.start,
        stop: times.stop,
        row: Row::new(alloc),
    }
}

// Whether all intervals of a set come before another one. Takes no memory.
fn are_before(begins: &IntervalSet, key: &Interval) -> bool
    ensures before { result ≡ true → AreBefore begins.now key.now }
    ensures sorted { IsSet begins.now }
{
    match begins.range(..).next_back() {
        Some(last) => last.cmp(key).is_lt(),
        None => false,
    }
}

/// The intervals of a set from one place to before another one, where a place that is None is past
/// the last one. None only where there are none: past the last one nothing is searched. Takes no
/// memory.
pub fn between<'a>(
    alloc: Global,
    begins: &'a IntervalSet,
    low: &Option<Times>,
    high: &Option<Times>,
) -> Option<Part<'a>>
    requires low { IsPlace low.now }
    requires high { IsPlace high.now }
    ensures { or_none result ≡ filter (is_between low.now high.now) begins.now }
{
    let Some(low) = low else {
        return None;
    };
    let low = key(alloc, low);
    if are_before(begins, &low) {
        return None;
    }
    let Some(high) = high else {
        return Some(begins.range(low..));
    };
    let high = key(alloc, high);
    if high < low {
        return None;
    }
    Some(begins.range(low..high))
}

/// The place of the first interval that begins at a time or later. Takes no memory.
pub fn begin_from(time: &i64) -> Option<Times>
    ensures place { IsPlace result }
    ensures is { (i : spec.Interval) → IsStored i → reached result i ≡ int_le time.now i.start }
{
    Some(Times {
        stop: *time,
        start: *time,
    })
}

/// The place of the first interval that begins after a time. Takes no memory.
pub fn begin_after(time: &i64) -> Option<Times>
    ensures place { IsPlace result }
    ensures is { (i : spec.Interval) → IsStored i → reached result i ≡ int_lt time.now i.start }
{
    if *time < i64::MAX {
        begin_from(&(*time + 1))
    } else {
        None
    }
}

/// The place after the intervals with given times. Takes no memory.
pub fn after_times(times: &Times) -> Option<Times>
    requires { times.now.start ≤ℤ times.now.stop }
    ensures place { IsPlace result }
    ensures is { (i : spec.Interval) → IsStored i →
        reached result i ≡ (reached (Some times.now) i && not (has_times times.now i)) }
{
    if times.stop < i64::MAX {
        Some(Times {
            stop: times.stop + 1,
            start: times.start,
        })
    } else {
        begin_after(&times.start)
    }
}

/// The intervals of a set with given times. Takes no memory.
pub fn with_times<'a>(alloc: Global, begins: &'a IntervalSet, times: &Times) -> Option<Part<'a>>
    requires place { times.now.start ≤ℤ times.now.stop }
    requires stored { AreStored begins.now }
    ensures { or_none result ≡ filter (has_times times.now) begins.now }
{
    between(alloc, begins, &Some(*times), &after_times(times))
}
