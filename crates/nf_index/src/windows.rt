//! Windows: what a relation to given times asks of the times of an interval.

ghost use Rattle.std.specs.Prelude.{◌≡◌, ◌&&◌, ℤ};
ghost use Rattle.std.specs.Ordering.{int_eq};
ghost use Rattle.nf_core.specs.Intervals as spec;
ghost use Rattle.nf_index.specs.Matching.{matches};
ghost use Rattle.nf_index.specs.inner.Windows.{in_window};
ghost use Rattle.nf_index.specs.declared.relations.Rel.TheVariants as rels;

use crate::relations::{Rel, Which};
use crate::times::Times;
use nf_core::{Interval, Op, Xop};

/// What the begin and the end of an interval have to be to given times (`in_window` of
/// specs/inner/Windows).
#[derive(Debug, Clone, Copy, PartialEq, Eq)]
pub enum Window {
    BeginsAfter,
    BeginsAtEnd,
    EndsBefore,
    EndsAtBegin,
    SameBegin,
    SameEnd,
    SameTimes,
    Within,
    Around,
    StrictlyWithin,
    StrictlyAround,
    Overlaps,
}

/// The window of the intervals that stand in a relation, as one of its members, to given times as the
/// other member. Takes no memory.
pub fn window_of(rel: Rel, which: Which) -> Window
    ensures { (start stop : ℤ) (i : spec.Interval) → in_window result start stop i
        ≡ matches rel which start stop i }
{
    match rel {
        Rel::Pair(op) => pair_window(op, which),
        Rel::Unless(xop) => blocker_window(xop, which),
        Rel::Inside => match which {
            Which::First => Window::StrictlyWithin,
            Which::Second => Window::StrictlyAround,
        },
    }
}

// The window of an inclusive operator.
fn pair_window(op: Op, which: Which) -> Window
    ensures { (start stop : ℤ) (i : spec.Interval) → in_window result start stop i
        ≡ matches (rels.Pair op) which start stop i }
{
    match (op, which) {
        (Op::Before, Which::First) => Window::EndsBefore,
        (Op::Before, Which::Second) => Window::BeginsAfter,
        (Op::Meet, Which::First) => Window::EndsAtBegin,
        (Op::Meet, Which::Second) => Window::BeginsAtEnd,
        (Op::During, Which::First) => Window::Within,
        (Op::During, Which::Second) => Window::Around,
        (Op::Coincide, _) => Window::SameTimes,
        (Op::Start, _) => Window::SameBegin,
        (Op::Finish, _) => Window::SameEnd,
        (Op::Overlap, _) => Window::Overlaps,
        (Op::Slice, _) => Window::Overlaps,
    }
}

// The window of an exclusive operator, of which the second member blocks the first.
fn blocker_window(xop: Xop, which: Which) -> Window
    ensures { (start stop : ℤ) (i : spec.Interval) → in_window result start stop i
        ≡ matches (rels.Unless xop) which start stop i }
{
    match (xop, which) {
        (Xop::After, Which::First) => Window::BeginsAfter,
        (Xop::After, Which::Second) => Window::EndsBefore,
        (Xop::Follow, Which::First) => Window::BeginsAtEnd,
        (Xop::Follow, Which::Second) => Window::EndsAtBegin,
        (Xop::Contain, Which::First) => Window::Around,
        (Xop::Contain, Which::Second) => Window::Within,
    }
}

// Whether an interval has given times. Takes no memory.
fn is_at(times: &Times, i: &Interval) -> bool
    ensures { result ≡ (int_eq i.now.start times.now.start && int_eq i.now.stop times.now.stop) }
{
    i.start == times.start && i.stop == times.stop
}

/// Whether an interval's times are in a window at given times. Takes no memory.
#[tactic(auto, unfolding(crate::specs::inner::Windows::in_window))]
pub fn contains(window: Window, times: &Times, i: &Interval) -> bool
    ensures { result ≡ in_window window times.now.start times.now.stop i.now }
{
    match window {
        Window::BeginsAfter => times.stop < i.start,
        Window::BeginsAtEnd => i.start == times.stop,
        Window::EndsBefore => i.stop < times.start,
        Window::EndsAtBegin => i.stop == times.start,
        Window::SameBegin => i.start == times.start,
        Window::SameEnd => i.stop == times.stop,
        Window::SameTimes => is_at(times, i),
        Window::Within => times.start <= i.start && i.stop <= times.stop,
        Window::Around => i.start <= times.start && times.stop <= i.stop,
        Window::StrictlyWithin => {
            times.start <= i.start && i.stop <= times.stop && !is_at(times, i)
        }
        Window::StrictlyAround => {
            i.start <= times.start && times.stop <= i.stop && !is_at(times, i)
        }
        Window::Overlaps => i.start < times.stop && times.start < i.stop,
    }
}
