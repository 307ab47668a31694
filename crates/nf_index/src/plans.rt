//! Which part of a store a window needs: the walk that loses nothing of it.

ghost use Rattle.std.specs.Prelude.{◌≡◌, ◌≤ℤ◌, ◌<ℤ◌, ◌++◌, Bool, List, true, false, filter, int_lt};
ghost use Rattle.std.specs.Ordering.{int_eq};
ghost use Rattle.nf_core.specs.Intervals as spec;
ghost use Rattle.nf_core.specs.Sets.{has};
ghost use Rattle.nf_index.specs.inner.Orders.{AreStored, AreInOrder, Covers, IsApart, IsIndex, IsPlace, is_between, by_times, has_times, reached};
ghost use Rattle.nf_index.specs.inner.Walks.{left, IsWithin, IsAround, IsOverlapping};
ghost use Rattle.nf_index.specs.inner.Windows.{in_window};

use crate::ends::{end_after, end_from, ends_after, ends_at, ends_before, ends_from};
use crate::rest::{Ends, Parts, Rest, next_in};
use crate::times::{Times, after_times, begin_after, begin_from, between, with_times};
use crate::windows::Window;
use nf_blocks::{BlockSet, Walk};
use nf_core::IntervalSet;
use std::alloc::Global;

// The intervals from one place to before another one.
fn part<'a>(
    alloc: Global,
    begins: &'a IntervalSet,
    low: &Option<Times>,
    high: &Option<Times>,
) -> Rest<'a>
    requires low { IsPlace low.now }
    requires high { IsPlace high.now }
    ensures { left result ≡ filter (is_between low.now high.now) begins.now }
{
    Rest::Parts(Parts {
        part: between(alloc, begins, low, high),
        then: None,
    })
}

// The same without those that have given times, where that is asked and an interval may have them.
// Mostly there are none at all, which is asked first.
fn run<'a>(
    alloc: Global,
    begins: &'a IntervalSet,
    low: &Option<Times>,
    high: &Option<Times>,
    times: &Times,
    strictly: bool,
) -> Rest<'a>
    requires low { IsPlace low.now }
    requires high { IsPlace high.now }
    requires stored { AreStored begins.now }
    ensures { (w : spec.Interval → Bool) → IsApart strictly w times.now
        → ((i : spec.Interval) → has begins.now i ≡ true → w i ≡ true
        → is_between low.now high.now i ≡ true)
        → Covers w begins.now (left result) }
{
    if !strictly || times.stop < times.start {
        return part(alloc, begins, low, high);
    }
    let mut whole = between(alloc, begins, low, high);
    if next_in(&mut whole).is_none() {
        return Rest::Nothing;
    }
    Rest::Parts(Parts {
        part: between(alloc, begins, low, &Some(*times)),
        then: between(alloc, begins, &after_times(times), high),
    })
}

// The intervals with given times, one of these after the other.
fn by_end<'a>(alloc: Global, begins: &'a IntervalSet, times: Walk<'a, Times>) -> Rest<'a>
    requires stored { AreStored begins.now }
    requires order { AreInOrder times }
    ensures { left result ≡ by_times begins.now times.entry }
{
    Rest::Ends(Ends {
        alloc,
        begins,
        part: None,
        times,
    })
}

// The intervals with given times, of which none are kept in a store if they aren't in order.
fn at<'a>(alloc: Global, begins: &'a IntervalSet, times: &Times) -> Rest<'a>
    requires stored { AreStored begins.now }
    ensures { (w : spec.Interval → Bool)
        → ((i : spec.Interval) → w i ≡ true → has_times times.now i ≡ true)
        → Covers w begins.now (left result) }
{
    if times.stop < times.start {
        return Rest::Nothing;
    }
    Rest::Parts(Parts {
        part: with_times(alloc, begins, times),
        then: None,
    })
}

// A place that no interval that ends at a time or before is at or after.
fn past_ends(ends: &BlockSet<Times>, falls: usize, time: &i64) -> Option<Times>
    ensures place { (is : List spec.Interval) → IsIndex is ends.now falls → IsPlace result }
    ensures past { (is : List spec.Interval) → IsIndex is ends.now falls →
        (i : spec.Interval) → has is i ≡ true → i.stop ≤ℤ time.now → reached result i ≡ false }
{
    if falls == 0 {
        end_after(ends, time)
    } else {
        begin_after(time)
    }
}

/// The walk over the intervals within given times, or strictly within them, which an instant has
/// none of.
pub fn within<'a>(
    alloc: Global,
    begins: &'a IntervalSet,
    ends: &'a BlockSet<Times>,
    falls: usize,
    times: &Times,
    strictly: bool,
) -> Rest<'a>
    requires index { IsIndex begins.now ends.now falls }
    ensures { (w : spec.Interval → Bool) → IsWithin w times.now.start times.now.stop
        → IsApart strictly w times.now → Covers w begins.now (left result) }
{
    if strictly && times.stop <= times.start {
        return Rest::Nothing;
    }
    let low = begin_from(&times.start);
    let high = past_ends(ends, falls, &times.stop);
    run(alloc, begins, &low, &high, times, strictly)
}

/// The walk over the intervals around given times, or strictly around them.
pub fn around<'a>(
    alloc: Global,
    begins: &'a IntervalSet,
    ends: &'a BlockSet<Times>,
    falls: usize,
    times: &Times,
    strictly: bool,
) -> Rest<'a>
    requires index { IsIndex begins.now ends.now falls }
    ensures { (w : spec.Interval → Bool) → IsAround w times.now.start times.now.stop
        → IsApart strictly w times.now → Covers w begins.now (left result) }
{
    if falls != 0 {
        return by_end(alloc, begins, ends_from(ends, &times.stop));
    }
    let low = end_from(ends, &times.stop);
    let high = begin_after(&times.start);
    run(alloc, begins, &low, &high, times, strictly)
}

/// The walk over the intervals that overlap given times.
pub fn overlapping<'a>(
    alloc: Global,
    begins: &'a IntervalSet,
    ends: &'a BlockSet<Times>,
    falls: usize,
    times: &Times,
) -> Rest<'a>
    requires index { IsIndex begins.now ends.now falls }
    ensures { (w : spec.Interval → Bool) → IsOverlapping w times.now.start times.now.stop
        → Covers w begins.now (left result) }
{
    if falls != 0 {
        return by_end(alloc, begins, ends_after(ends, &times.start));
    }
    let low = end_after(ends, &times.start);
    let high = begin_from(&times.stop);
    part(alloc, begins, &low, &high)
}

// The intervals that end before a time.
fn ending_before<'a>(
    alloc: Global,
    begins: &'a IntervalSet,
    ends: &'a BlockSet<Times>,
    falls: usize,
    time: &i64,
) -> Rest<'a>
    requires index { IsIndex begins.now ends.now falls }
    ensures { (w : spec.Interval → Bool)
        → ((i : spec.Interval) → w i ≡ true → int_lt i.stop time.now ≡ true)
        → Covers w begins.now (left result) }
{
    if falls != 0 {
        return by_end(alloc, begins, ends_before(ends, time));
    }
    let low = begin_from(&i64::MIN);
    let high = end_from(ends, time);
    part(alloc, begins, &low, &high)
}

// The intervals that end at a time.
fn ending_at<'a>(
    alloc: Global,
    begins: &'a IntervalSet,
    ends: &'a BlockSet<Times>,
    falls: usize,
    time: &i64,
) -> Rest<'a>
    requires index { IsIndex begins.now ends.now falls }
    ensures { (w : spec.Interval → Bool)
        → ((i : spec.Interval) → w i ≡ true → int_eq i.stop time.now ≡ true)
        → Covers w begins.now (left result) }
{
    if falls != 0 {
        return by_end(alloc, begins, ends_at(ends, time));
    }
    let low = end_from(ends, time);
    let high = end_after(ends, time);
    part(alloc, begins, &low, &high)
}

// The intervals that begin at a time.
fn begins_at<'a>(alloc: Global, begins: &'a IntervalSet, time: &i64) -> Rest<'a>
    requires stored { AreStored begins.now }
    ensures { (w : spec.Interval → Bool)
        → ((i : spec.Interval) → w i ≡ true → int_eq i.start time.now ≡ true)
        → Covers w begins.now (left result) }
{
    part(alloc, begins, &begin_from(time), &begin_after(time))
}

/// The walk over a part of a store that loses no interval in a window at given times. Takes no
/// memory.
pub fn walk_of<'a>(
    alloc: Global,
    begins: &'a IntervalSet,
    ends: &'a BlockSet<Times>,
    falls: usize,
    window: Window,
    times: &Times,
) -> Rest<'a>
    requires index { IsIndex begins.now ends.now falls }
    ensures { Covers (in_window window times.now.start times.now.stop) begins.now (left result) }
{
    match window {
        Window::BeginsAfter => part(alloc, begins, &begin_after(&times.stop), &None),
        Window::BeginsAtEnd => begins_at(alloc, begins, &times.stop),
        Window::SameBegin => begins_at(alloc, begins, &times.start),
        Window::EndsBefore => ending_before(alloc, begins, ends, falls, &times.start),
        Window::EndsAtBegin => ending_at(alloc, begins, ends, falls, &times.start),
        Window::SameEnd => ending_at(alloc, begins, ends, falls, &times.stop),
        Window::SameTimes => at(alloc, begins, times),
        Window::Within => within(alloc, begins, ends, falls, times, false),
        Window::StrictlyWithin => within(alloc, begins, ends, falls, times, true),
        Window::Around => around(alloc, begins, ends, falls, times, false),
        Window::StrictlyAround => around(alloc, begins, ends, falls, times, true),
        Window::Overlaps => overlapping(alloc, begins, ends, falls, times),
    }
}
