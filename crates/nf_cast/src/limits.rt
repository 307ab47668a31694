//! The limits of a C text.

/// The most blocks that may be open at once in a function, its own body counted.
pub const MOST_BLOCKS: usize = 32;

/// The most parentheses and brackets that may be open at once in one expression.
pub const MOST_OPEN: usize = 32;

/// The most operators of one expression, an element's bracket counted as one.
pub const MOST_OPERATORS: usize = 128;

/// The most cells of all objects together, a scalar counted as one.
pub const MOST_CELLS: u64 = 33_554_432;

/// The greatest depth of calls of a function.
pub const MOST_CALLS: u64 = 16;
