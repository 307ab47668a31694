//! What a piece gave.

/// What was taken of a piece: how many of its bytes were used, and the line that they ended, where
/// an LF stands in the piece. The line is lent, without its LF and without one CR before it.
#[derive(Debug, Clone, Copy, PartialEq, Eq)]
pub struct Taken<'a> {
    pub used: usize,
    pub line: Option<&'a [u8]>,
}
