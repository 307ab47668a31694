//! The limits of an expression.

/// The most operators of one expression, unary and binary ones alike (`operators` of specs/Trees).
pub const MOST_OPERATORS: usize = 256;

/// The most parentheses that may be open at once in an expression's canonical text (`open_parens` of
/// specs/Trees).
pub const MOST_OPEN: usize = 64;
