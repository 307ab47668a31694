//! The kinds of expressions, and which of them operators and clauses take.

ghost use Rattle.std.specs.Prelude.{◌≡◌, Some};
ghost use Rattle.nf_core.specs.Kinds.{may_be_number, may_be_truth, takes, gives};
ghost use Rattle.nf_typing.specs.inner.Meant.{kind_meant};
ghost use Rattle.nf_typing.specs.Faults.{fits};

use crate::clause::Clause;
use nf_core::BinOp;

/// Whole numbers, truth values, texts, or values of every kind.
#[derive(Debug, Clone, Copy)]
pub(crate) enum Kind {
    Number,
    Truth,
    Text,
    Any,
}

impl Kind {
    /// Whether an operator on numbers takes it.
    pub(crate) fn may_be_number(self) -> bool
        ensures { result ≡ may_be_number (kind_meant self) }
    {
        match self {
            Kind::Number | Kind::Any => true,
            Kind::Truth | Kind::Text => false,
        }
    }

    /// Whether an operator on truth values takes it.
    pub(crate) fn may_be_truth(self) -> bool
        ensures { result ≡ may_be_truth (kind_meant self) }
    {
        match self {
            Kind::Truth | Kind::Any => true,
            Kind::Number | Kind::Text => false,
        }
    }
}

/// Whether an operator with two operands takes one of this kind.
pub(crate) fn takes(op: BinOp, kind: Kind) -> bool
    ensures { result ≡ takes op (kind_meant kind) }
{
    match op {
        BinOp::Or | BinOp::And => kind.may_be_truth(),
        BinOp::Eq | BinOp::Ne => true,
        BinOp::Lt | BinOp::Le | BinOp::Gt | BinOp::Ge => kind.may_be_number(),
        BinOp::Add | BinOp::Sub | BinOp::Mul | BinOp::Div | BinOp::Rem => kind.may_be_number(),
    }
}

/// The kind that an operator with two operands gives.
pub(crate) fn gives(op: BinOp) -> Kind
    ensures { kind_meant result ≡ gives op }
{
    match op {
        BinOp::Add | BinOp::Sub | BinOp::Mul | BinOp::Div | BinOp::Rem => Kind::Number,
        _ => Kind::Truth,
    }
}

/// Whether a clause takes an expression of this kind.
pub(crate) fn fits(clause: Clause, kind: Kind) -> bool
    ensures { result ≡ fits clause (Some (kind_meant kind)) }
{
    match clause {
        Clause::Filter => kind.may_be_truth(),
        Clause::Entry => true,
        Clause::Start | Clause::Stop => kind.may_be_number(),
    }
}
