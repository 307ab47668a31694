//! Relations, and which of their two members is looked for.

use nf_core::{Op, Xop};

/// A relation of two intervals: the condition of an inclusive operator, the one under which by an
/// exclusive operator the second interval blocks the first, or that the first lies within the second
/// and has other times (`stands` of specs/Matching).
#[derive(Debug, Clone, Copy, PartialEq, Eq)]
pub enum Rel {
    Pair(Op),
    Unless(Xop),
    Inside,
}

/// Which member of a relation an interval is.
#[derive(Debug, Clone, Copy, PartialEq, Eq)]
pub enum Which {
    First,
    Second,
}
