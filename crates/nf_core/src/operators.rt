//! The operators of rules and of expressions.

/// The operators of an inclusive rule, by the table of relations (`holds` and `span` of
/// specs/Relations).
#[derive(Debug, Clone, Copy, PartialEq, Eq)]
pub enum Op {
    Before,
    Meet,
    During,
    Coincide,
    Start,
    Finish,
    Overlap,
    Slice,
}

/// The operators of an exclusive rule, by the table of blockers (`blocks` of specs/Relations).
#[derive(Debug, Clone, Copy, PartialEq, Eq)]
pub enum Xop {
    After,
    Follow,
    Contain,
}

/// The operators of an expression with two operands (`value_of` of specs/Expressions).
#[derive(Debug, Clone, Copy, PartialEq, Eq)]
pub enum BinOp {
    Or,
    And,
    Eq,
    Ne,
    Lt,
    Le,
    Gt,
    Ge,
    Add,
    Sub,
    Mul,
    Div,
    Rem,
}
