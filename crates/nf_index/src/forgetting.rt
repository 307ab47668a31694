//! The intervals that begin before a time, which stand first in the order by begin.

ghost use Rattle.std.specs.Prelude.{◌≡◌, ◌∷◌, true, not, filter, int_lt, IfSome, IfNone};
ghost use Rattle.std.specs.List.{list_any};
ghost use Rattle.nf_core.specs.Sets.{IsSet};

use nf_core::{Interval, IntervalSet};

// Whether an interval begins before a time. Takes no memory.
fn begins_before(interval: &Interval, time: &i64) -> bool
    ensures { result ≡ int_lt interval.now.start time.now }
{
    interval.start < *time
}

// Whether an interval of a set begins before a time. Takes no memory.
fn is_any_before(begins: &IntervalSet, time: &i64) -> bool
    ensures any { result ≡ list_any (λ i. int_lt i.start time.now) begins.now }
    ensures sorted { IsSet begins.now }
{
    match begins.walk().next() {
        Some(first) => begins_before(first, time),
        None => false,
    }
}

/// Takes the first interval out of a set if it begins before a time, and answers it. None exactly
/// where no interval begins before that. Takes no memory.
pub fn pop_before(begins: &mut IntervalSet, time: &i64) -> Option<Interval>
    ensures rest { IfSome result (λ i. begins.old ≡ i ∷ begins.new) }
    ensures before { IfSome result (λ i. int_lt i.start time.now ≡ true) }
    ensures same { IfNone result (begins.new ≡ begins.old) }
    ensures kept { IfNone result
        (filter (λ i. not (int_lt i.start time.now)) begins.old ≡ begins.old) }
    ensures sorted { IsSet begins.old }
{
    if is_any_before(begins, time) {
        begins.pop_first()
    } else {
        None
    }
}
