//! The operators of expressions on values.
#![tactic(auto, using(crate::proofs::TextEqualityLemmas::text_eq_is), unfolding(nf_core::specs::Expressions::negated, nf_core::specs::Expressions::inverted, nf_core::specs::Expressions::binary, nf_core::specs::Expressions::of_bools, nf_core::specs::Expressions::of_ints, nf_core::specs::Expressions::in_range))]

ghost use Rattle.std.specs.Prelude.{◌≡◌, ◌≢◌};
ghost use Rattle.nf_core.specs.Expressions.{negated, inverted, binary};
ghost use Rattle.nf_core.specs.Kinds.{kind_of_value};
ghost use Rattle.nf_core.specs.declared.values.Value.TheVariants as variant;
ghost use Rattle.nf_expr.specs.Seen.{value_seen, cell_seen};

use crate::seen::Seen;
use nf_core::{BinOp, Text};

/// Unary `-`: of a whole number, where the result is in range. Else None (`negated` of nf_core's
/// specs/Expressions).
pub(crate) fn negated(operand: Seen<'_>) -> Option<Seen<'_>>
    ensures { cell_seen result ≡ negated (value_seen operand.entry) }
{
    match operand {
        Seen::Int(n) => Some(Seen::Int(n.checked_neg()?)),
        _ => None,
    }
}

/// `!`: of a truth value. Else None (`inverted` of nf_core's specs/Expressions).
pub(crate) fn inverted(operand: Seen<'_>) -> Option<Seen<'_>>
    ensures { cell_seen result ≡ inverted (value_seen operand.entry) }
{
    match operand {
        Seen::Bool(b) => Some(Seen::Bool(!b)),
        _ => None,
    }
}

/// An operator with two operands. None where it doesn't take values of their kinds, and where the
/// result is out of range (`binary` of nf_core's specs/Expressions).
#[tactic(auto)]
pub(crate) fn binary<'a>(op: BinOp, left: Seen<'a>, right: Seen<'a>) -> Option<Seen<'a>>
    ensures { cell_seen result ≡ binary op (value_seen left.entry) (value_seen right.entry) }
{
    match (left, right) {
        (Seen::Bool(p), Seen::Bool(q)) => of_truths(op, p, q),
        (Seen::Int(m), Seen::Int(n)) => of_numbers(op, m, n),
        (Seen::Text(s), Seen::Text(t)) => of_texts(op, s, t),
        _ => of_unlike(op, left, right),
    }
}

/// An operator on two truth values.
fn of_truths<'a>(op: BinOp, p: bool, q: bool) -> Option<Seen<'a>>
    ensures { cell_seen result ≡ binary op (variant.Bool p) (variant.Bool q) }
{
    match op {
        BinOp::Or => Some(Seen::Bool(p || q)),
        BinOp::And => Some(Seen::Bool(p && q)),
        BinOp::Eq => Some(Seen::Bool(p == q)),
        BinOp::Ne => Some(Seen::Bool(p != q)),
        _ => None,
    }
}

/// An operator on two whole numbers.
fn of_numbers<'a>(op: BinOp, m: i64, n: i64) -> Option<Seen<'a>>
    ensures { cell_seen result ≡ binary op (variant.Int m) (variant.Int n) }
{
    match op {
        BinOp::Or | BinOp::And => None,
        BinOp::Eq => Some(Seen::Bool(m == n)),
        BinOp::Ne => Some(Seen::Bool(m != n)),
        BinOp::Lt => Some(Seen::Bool(m < n)),
        BinOp::Le => Some(Seen::Bool(m <= n)),
        BinOp::Gt => Some(Seen::Bool(m > n)),
        BinOp::Ge => Some(Seen::Bool(m >= n)),
        BinOp::Add => Some(Seen::Int(m.checked_add(n)?)),
        BinOp::Sub => Some(Seen::Int(m.checked_sub(n)?)),
        BinOp::Mul => Some(Seen::Int(m.checked_mul(n)?)),
        BinOp::Div => Some(Seen::Int(m.checked_div(n)?)),
        BinOp::Rem => Some(Seen::Int(m.checked_rem(n)?)),
    }
}

/// An operator on two texts.
fn of_texts<'a>(op: BinOp, s: &Text, t: &Text) -> Option<Seen<'a>>
    ensures { cell_seen result ≡ binary op (variant.Text s.now) (variant.Text t.now) }
{
    match op {
        BinOp::Eq => Some(Seen::Bool(s == t)),
        BinOp::Ne => Some(Seen::Bool(s != t)),
        _ => None,
    }
}

/// An operator on two values of different kinds.
fn of_unlike<'a>(op: BinOp, left: Seen<'a>, right: Seen<'a>) -> Option<Seen<'a>>
    requires { kind_of_value (value_seen left) ≢ kind_of_value (value_seen right) }
    ensures { cell_seen result ≡ binary op (value_seen left.entry) (value_seen right.entry) }
{
    match op {
        BinOp::Eq => Some(Seen::Bool(false)),
        BinOp::Ne => Some(Seen::Bool(true)),
        _ => None,
    }
}
