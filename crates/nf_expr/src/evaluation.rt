//! Expressions over one or two members.

ghost use Rattle.std.specs.Prelude.{◌≡◌, ◌+◌};
ghost use Rattle.std.specs.Option.{option_copied};
ghost use Rattle.nf_core.specs.Expressions.{member, value_of};
ghost use Rattle.nf_core.specs.Rows.{IsPlainCell};
ghost use Rattle.nf_expr.specs.Seen.{cell_seen};
ghost use Rattle.nf_expr.specs.Evaluation.{ReadsWithin, IsOfItsKind, StaysPlain};
ghost use Rattle.nf_expr.specs.inner.Keys.{cell_at, HasPlace};

use crate::operators::{binary, inverted, negated};
use crate::seen::Seen;
use nf_core::{Interval, Steps, Term};
use std::sync::ledger::Ledger;

/// The value of an expression over one or two members, as lent: member 0 is `first`, and member 1 is
/// `second`. None exactly where the value is Undefined (`value_of` of nf_core's specs/Expressions).
/// Where the expression has a kind, its value is of that kind (`IsOfItsKind` of specs/Evaluation).
/// Where its texts are plain, a text that is seen is plain, so that it may stand in a row
/// (`StaysPlain`).
///
/// The expression must read no members but these, the second one only where it is given, and keys
/// only at places, counted from 0, that the rows of these members have (`ReadsWithin` of
/// specs/Evaluation).
///
/// All operands are evaluated, so an Undefined one makes the value Undefined, also at `&` and `|`.
/// One call raises the counter by exactly 1, however many operators there are. No memory is taken:
/// a text is lent from the expression or from a row.
///
/// The evaluation calls itself for each operand, so it stands as many calls deep as the expression
/// has nodes on a way down, which is at most one more than it has operators. An expression of a plan
/// has at most 256 operators: at most 257 calls.
#[tactic(auto, using(crate::proofs::KindLemmas::seen_is_of_kind))]
pub fn eval<'a, L: Ledger>(
    term: &'a Term,
    first: &'a Interval,
    second: Option<&'a Interval>,
    steps: &mut Steps<L>,
) -> Option<Seen<'a>>
    requires { ReadsWithin first.now (option_copied second) term.now }
    ensures value { cell_seen result ≡ value_of first.now (option_copied second.entry) term.now }
    ensures plain { StaysPlain term.now result }
    ensures kind { IsOfItsKind term.now result }
    ensures steps { steps.new ≡ steps.old + 1 }
{
    steps.tick();
    value_of(term, first, second)
}

/// The value of an expression, node by node (`value_of` of nf_core's specs/Expressions).
#[tactic(auto, using(crate::proofs::PlainValueLemmas::negated_is_plain, crate::proofs::PlainValueLemmas::inverted_is_plain, crate::proofs::PlainValueLemmas::binary_is_plain, crate::proofs::PlainValueLemmas::first_is_plain), unfolding(nf_core::specs::Expressions::texts_of, nf_core::specs::Expressions::texts_at_node, nf_core::specs::Expressions::value_of, nf_core::specs::Expressions::value_of_node, nf_core::specs::Expressions::reads_within, nf_core::specs::Expressions::reads_within_node))]
fn value_of<'a>(
    term: &'a Term,
    first: &'a Interval,
    second: Option<&'a Interval>,
) -> Option<Seen<'a>>
    requires { ReadsWithin first.now (option_copied second) term.now }
    ensures value { cell_seen result ≡ value_of first.now (option_copied second.entry) term.now }
    ensures plain { StaysPlain term.now result }
{
    match term {
        Term::Bool(b) => Some(Seen::Bool(*b)),
        Term::Int(n) => Some(Seen::Int(*n)),
        Term::Text(text) => Some(Seen::Text(text)),
        Term::Start(number) => Some(Seen::Int(member(first, second, *number)?.start)),
        Term::Stop(number) => Some(Seen::Int(member(first, second, *number)?.stop)),
        Term::Key(number, place) => key(first, second, *number, *place),
        Term::Neg(operand) => negated(value_of(operand.get(), first, second)?),
        Term::Not(operand) => inverted(value_of(operand.get(), first, second)?),
        Term::Bin(op, left, right) => {
            let left = value_of(left.get(), first, second)?;
            let right = value_of(right.get(), first, second)?;
            binary(*op, left, right)
        }
    }
}

/// The member with this number: member 0 is the first one, and member 1 the second.
#[tactic(auto, unfolding(nf_core::specs::Expressions::member))]
pub(crate) fn member<'a>(
    first: &'a Interval,
    second: Option<&'a Interval>,
    number: u8,
) -> Option<&'a Interval>
    ensures { option_copied result ≡ member first.now (option_copied second.entry) number }
{
    match number {
        0 => Some(first),
        1 => second,
        _ => None,
    }
}

/// The value of a key of a member, by its place in the member's row. None where the row has none.
#[tactic(auto, unfolding(nf_core::specs::Expressions::member))]
fn key<'a>(
    first: &'a Interval,
    second: Option<&'a Interval>,
    number: u8,
    place: u32,
) -> Option<Seen<'a>>
    requires { HasPlace first.now (option_copied second) number place }
    ensures value { cell_seen result ≡ cell_at first.now (option_copied second.entry) number place }
    ensures plain { IsPlainCell (cell_seen result) }
{
    let value = member(first, second, number)?.row.get(place as usize)?;
    Some(Seen::of(value))
}
