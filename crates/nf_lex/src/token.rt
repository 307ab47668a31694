//! A token and its kinds.

use nf_text::Span;

/// The kinds of tokens: an identifier, a keyword, a number, a text or a mark. What words they are is
/// `kind_of` in specs/Words.antt.
#[derive(Debug, Clone, Copy, PartialEq, Eq)]
pub enum TokenKind {
    Ident,
    Keyword,
    Number,
    Text,
    Mark,
}

/// A token of a source: its kind, and where its text stands there.
#[derive(Debug, Clone, Copy, PartialEq, Eq)]
pub struct Token {
    pub kind: TokenKind,
    pub span: Span,
}
