//! Bounds on an end of each member.

ghost use Rattle.std.specs.Prelude.{◌≡◌};
ghost use Rattle.nf_demands.specs.Bounds.{end_of, single_end, sign_of, measure_of, limits_of, lowered, turned, signed_bound, bound_of_form, bound_of_sides, bound_of};

use crate::linear::{LinearForm, difference, linear};
use nf_core::{BinOp, Interval, Term};

/// An end of a member: its begin or its end.
#[derive(Debug, Clone, Copy, PartialEq, Eq)]
pub enum End {
    Start,
    Stop,
}

/// What is made of an end of the first member and one of the second: the second minus the first, or
/// their sum (`measured` of specs/Bounds).
#[derive(Debug, Clone, Copy, PartialEq, Eq)]
pub enum Measure {
    Difference,
    Sum,
}

/// The least and the greatest that a whole number may be, where there is a least and where there is
/// a greatest; both may be reached (`IsWithin` of specs/Bounds).
#[derive(Debug, Clone, Copy, PartialEq, Eq)]
pub struct Limits {
    pub least: Option<i128>,
    pub most: Option<i128>,
}

/// A bound: what is made of this end of the first member and that end of the second is within
/// limits (`IsBoundMet` of specs/Bounds).
#[derive(Debug, Clone, Copy, PartialEq, Eq)]
pub struct Bound {
    pub first: End,
    pub second: End,
    pub measure: Measure,
    pub limits: Limits,
}

// An end that is added or, where it is negative, subtracted.
#[derive(Clone, Copy)]
pub(crate) struct SignedEnd {
    pub end: End,
    pub negative: bool,
}

impl End {
    /// This end of a member.
    pub fn of(self, member: &Interval) -> i64
        ensures { result ≡ end_of self member.now }
    {
        match self {
            End::Start => member.start,
            End::Stop => member.stop,
        }
    }
}

/// The bound that a part gives (`bound_of` of specs/Bounds).
#[tactic(auto, unfolding(crate::specs::Bounds::bound_of, crate::specs::Bounds::bound_at_node))]
pub(crate) fn bound_given(part: &Term) -> Option<Bound>
    ensures { result ≡ bound_of part.now }
{
    match part {
        Term::Bin(op, left, right) => of_sides(*op, linear(left.get()), linear(right.get())),
        _ => None,
    }
}

// The bound that a comparison gives, from the linear forms of its sides.
#[tactic(auto, unfolding(crate::specs::Bounds::bound_of_sides))]
fn of_sides(op: BinOp, left: Option<LinearForm>, right: Option<LinearForm>) -> Option<Bound>
    ensures { result ≡ bound_of_sides op left right }
{
    let limits = limits_of(op)?;
    let form = left?.minus(right?)?;
    of_form(limits, form)
}

// The bound that limits on a linear form give.
#[tactic(auto, unfolding(crate::specs::Bounds::bound_of_form))]
fn of_form(limits: Limits, form: LinearForm) -> Option<Bound>
    ensures { result ≡ bound_of_form limits form }
{
    let first = single_end(form.first_start, form.first_stop)?;
    let second = single_end(form.second_start, form.second_stop)?;
    Some(signed_bound(first, second, form.number, limits))
}

// The bound that limits on a number and two signed ends, added up, give.
#[tactic(auto, unfolding(crate::specs::Bounds::signed_bound))]
fn signed_bound(first: SignedEnd, second: SignedEnd, number: i128, limits: Limits) -> Bound
    ensures { result ≡ signed_bound first second number limits }
{
    Bound {
        first: first.end,
        second: second.end,
        measure: measure_of(first.negative, second.negative),
        limits: if second.negative {
            turned(limits, number)
        } else {
            lowered(limits, number)
        },
    }
}

// The sum, where the ends have the same sign, and else the difference.
fn measure_of(first: bool, second: bool) -> Measure
    ensures { result ≡ measure_of first second }
{
    if first == second {
        Measure::Sum
    } else {
        Measure::Difference
    }
}

// Each limit less a number.
#[tactic(auto, unfolding(crate::specs::Bounds::lowered))]
fn lowered(limits: Limits, number: i128) -> Limits
    ensures { result ≡ lowered limits number }
{
    Limits {
        least: limits.least.and_then(|limit| difference(limit, number)),
        most: limits.most.and_then(|limit| difference(limit, number)),
    }
}

// A number less each limit.
#[tactic(auto, unfolding(crate::specs::Bounds::turned))]
fn turned(limits: Limits, number: i128) -> Limits
    ensures { result ≡ turned limits number }
{
    Limits {
        least: limits.most.and_then(|limit| difference(number, limit)),
        most: limits.least.and_then(|limit| difference(number, limit)),
    }
}

// The one end of a member that stands in a form, once added or once subtracted.
#[tactic(auto, unfolding(crate::specs::Bounds::single_end))]
fn single_end(start: i128, stop: i128) -> Option<SignedEnd>
    ensures { result ≡ single_end start stop }
{
    if start == 0 {
        Some(SignedEnd {
            end: End::Stop,
            negative: is_negative(stop)?,
        })
    } else if stop == 0 {
        Some(SignedEnd {
            end: End::Start,
            negative: is_negative(start)?,
        })
    } else {
        None
    }
}

// Whether a number is -1 and not 1. None of other numbers.
#[tactic(auto, unfolding(crate::specs::Bounds::sign_of))]
fn is_negative(times: i128) -> Option<bool>
    ensures { result ≡ sign_of times }
{
    if times == 1 {
        Some(false)
    } else if times == -1 {
        Some(true)
    } else {
        None
    }
}

// The limits of the left side minus the right where a comparison is true.
#[tactic(auto, unfolding(crate::specs::Bounds::limits_of))]
fn limits_of(op: BinOp) -> Option<Limits>
    ensures { result ≡ limits_of op }
{
    let (least, most) = match op {
        BinOp::Eq => (Some(0), Some(0)),
        BinOp::Lt => (None, Some(-1)),
        BinOp::Le => (None, Some(0)),
        BinOp::Gt => (Some(1), None),
        BinOp::Ge => (Some(0), None),
        _ => return None,
    };
    Some(Limits { least, most })
}
