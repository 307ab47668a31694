//! What stands at a place of a source.

use crate::token::TokenKind;

/// A separator or a comment, or a token of some kind, with its length in bytes.
#[derive(Debug, Clone, Copy)]
pub(crate) enum Piece {
    Gap(usize),
    Token(TokenKind, usize),
}
