//! The two tables.

ghost use Rattle.std.specs.Prelude.{◌≡◌};
ghost use Rattle.nf_core.specs.Relations as table;

use nf_core::{Op, Xop};

/// Whether an inclusive operator's condition holds of a first interval from `s1` to `e1` and a
/// second one from `s2` to `e2` (`holds` of nf_core's specs/Relations). Takes no memory.
#[tactic(auto, unfolding(nf_core::specs::Relations::holds))]
pub fn holds(op: Op, s1: i64, e1: i64, s2: i64, e2: i64) -> bool
    ensures { result ≡ table.holds s1 e1 s2 e2 op }
{
    match op {
        Op::Before => e1 < s2,
        Op::Meet => e1 == s2,
        Op::During => s2 <= s1 && e1 <= e2,
        Op::Coincide => s1 == s2 && e1 == e2,
        Op::Start => s1 == s2,
        Op::Finish => e1 == e2,
        Op::Overlap | Op::Slice => s1 < e2 && s2 < e1,
    }
}

/// Where the result of an inclusive operator begins and ends, for a first interval from `s1` to
/// `e1` and a second one from `s2` to `e2` (`span` of nf_core's specs/Relations). The answer is that
/// of the table also where the operator's condition doesn't hold. Takes no memory.
#[tactic(auto, unfolding(nf_core::specs::Relations::span))]
pub fn span(op: Op, s1: i64, e1: i64, s2: i64, e2: i64) -> (i64, i64)
    ensures { result ≡ table.span s1 e1 s2 e2 op }
{
    match op {
        Op::Before | Op::Meet => (s1, e2),
        Op::During => (s2, e2),
        Op::Coincide => (s1, e1),
        Op::Start => (s1, e1.max(e2)),
        Op::Finish => (s1.min(s2), e1),
        Op::Overlap => (s1.min(s2), e1.max(e2)),
        Op::Slice => (s1.max(s2), e1.min(e2)),
    }
}

/// Whether, by an exclusive operator, a second interval from `s2` to `e2` blocks a first one from
/// `s1` to `e1` (`blocks` of nf_core's specs/Relations). Takes no memory.
#[tactic(auto, unfolding(nf_core::specs::Relations::blocks))]
pub fn blocks(xop: Xop, s1: i64, e1: i64, s2: i64, e2: i64) -> bool
    ensures { result ≡ table.blocks s1 e1 s2 e2 xop }
{
    match xop {
        Xop::After => e2 < s1,
        Xop::Follow => e2 == s1,
        Xop::Contain => s1 <= s2 && e2 <= e1,
    }
}
