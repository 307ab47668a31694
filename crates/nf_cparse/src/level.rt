//! The levels of binary operators.

/// How tightly a binary operator binds its operands, from the loosest on.
#[derive(Debug, Clone, Copy, PartialEq, Eq)]
pub(crate) enum Level {
    Or,
    And,
    Equality,
    Relation,
    Sum,
    Product,
}
