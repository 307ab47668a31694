//! What a call of a monitor emits.

use nf_core::ListOf;

/// A cell: its kind, which is 0 for a missing value, 1 for a truth value, 2 for a whole number and 3 for
/// a text, and its value, which is 0 or 1 for a truth value and a text's number for a text.
#[derive(Debug, Clone, Copy, PartialEq, Eq)]
pub struct Cell {
    pub kind: i64,
    pub value: i64,
}

/// The cells of a line or of an emission, one for each key of its name.
pub type Cells = ListOf<Cell>;

/// An emission: a head's interval that is announced, where the sign is 1, or withdrawn, where it is 0.
#[derive(Debug, Drop)]
pub struct Emit {
    pub sign: i64,
    pub name: u32,
    pub start: i64,
    pub stop: i64,
    pub cells: Cells,
}

/// The emissions of a call, in the order in which they were made.
pub type EmitList = ListOf<Emit>;
