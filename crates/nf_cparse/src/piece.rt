//! What stands at the front of bytes.

use crate::symbol::Sym;

/// What stands at the front of bytes: a separator or a comment of so many bytes, a token of so many bytes,
/// or a fault that so many bytes stand before.
#[derive(Debug, Clone, Copy, PartialEq, Eq)]
pub(crate) enum Piece {
    Gap(usize),
    Token(Sym, usize),
    Fault(usize),
}
