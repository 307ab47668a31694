//! The longest token at the front of bytes, and the tables of keywords and marks.

ghost use Rattle.std.specs.Prelude.{◌≡◌, ◌<◌, length, slice_index, true, false};
ghost use Rattle.std.specs.Char.{is_ascii_digit};
ghost use Rattle.nf_core.specs.Identifiers.{is_letter};
ghost use Rattle.nf_lex.specs.Bytes.{is_quote};
ghost use Rattle.nf_lex.specs.Words.{name_kind};
ghost use Rattle.nf_lex.specs.inner.Pieces.{FindsToken};

use crate::bytes::{digits_len, is_among, is_letter, name_len, text_len};
use crate::token::TokenKind;

const KEYWORDS: [&[u8]; 20] = [
    b"module",
    b"import",
    b"where",
    b"map",
    b"begin",
    b"end",
    b"unless",
    b"before",
    b"meet",
    b"during",
    b"coincide",
    b"start",
    b"finish",
    b"overlap",
    b"slice",
    b"after",
    b"follow",
    b"contain",
    b"true",
    b"false",
];

const LONG_MARKS: [&[u8]; 5] = [b":-", b"->", b"<=", b">=", b"!="];

const SHORT_MARKS: &[u8] = b"=<>!&|+-*/%(){},;.:";

/// The kind and the length of the longest token at the front of the bytes, which aren't empty, or
/// None exactly where no front of them is a token.
#[tactic(auto, using(crate::proofs::LongestTokenLemmas::name_longest, crate::proofs::LongestTokenLemmas::number_longest))]
pub(crate) fn token_at(bytes: &[u8]) -> Option<(TokenKind, usize)>
    requires { 0 < length bytes.now }
    ensures { FindsToken bytes.now result }
{
    let first = bytes[0];
    if is_letter(first) {
        let length = name_len(bytes);
        return Some((name_kind(&bytes[..length]), length));
    }
    if first.is_ascii_digit() {
        return Some((TokenKind::Number, digits_len(bytes)));
    }
    if first == b'"' {
        return text_at(bytes);
    }
    mark_at(bytes)
}

/// Whether a name is a keyword or an identifier: the keywords are those of nf_core's specs/Identifiers.
#[tactic(auto, unfolding(nf_core::specs::Identifiers::keywords))]
fn name_kind(name: &[u8]) -> TokenKind
    ensures { result ≡ name_kind name.now }
{
    if is_among(&KEYWORDS, name) {
        TokenKind::Keyword
    } else {
        TokenKind::Ident
    }
}

/// The text that opens with the first byte, which is `"`, up to the next `"`.
#[tactic(auto, using(crate::proofs::LongestTokenLemmas::text_longest, crate::proofs::LongestTokenLemmas::text_none))]
fn text_at(bytes: &[u8]) -> Option<(TokenKind, usize)>
    requires { is_quote (slice_index bytes.now 0) ≡ true }
    ensures { FindsToken bytes.now result }
{
    let (_, rest) = bytes.split_first()?;
    let body = text_len(rest);
    if body < rest.len() {
        Some((TokenKind::Text, body + 2))
    } else {
        None
    }
}

/// The mark at the front of the bytes, of two bytes or of one. They begin with no byte of another kind
/// of token.
#[tactic(auto, using(crate::proofs::LongestTokenLemmas::mark_two, crate::proofs::LongestTokenLemmas::mark_one, crate::proofs::LongestTokenLemmas::mark_none))]
fn mark_at(bytes: &[u8]) -> Option<(TokenKind, usize)>
    requires some { 0 < length bytes.now }
    requires no_name { is_letter (slice_index bytes.now 0) ≡ false }
    requires no_number { is_ascii_digit (slice_index bytes.now 0) ≡ false }
    requires no_text { is_quote (slice_index bytes.now 0) ≡ false }
    ensures { FindsToken bytes.now result }
{
    if bytes.len() >= 2 && is_among(&LONG_MARKS, &bytes[..2]) {
        return Some((TokenKind::Mark, 2));
    }
    if SHORT_MARKS.contains(&bytes[0]) {
        return Some((TokenKind::Mark, 1));
    }
    None
}
