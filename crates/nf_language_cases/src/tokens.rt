//! Tokens and identifiers, as they are shown.

use crate::checks::push_item;
use nf_core::NoMemory;
use nf_lex::{Token, TokenKind, Tokens, is_identifier, tokens};
use std::alloc::Global;

/// The tokens of a source, or its first lexical fault.
pub fn tokens_shown(alloc: Global, source: &[u8], between: &str) -> Result<String, NoMemory> {
    match tokens(alloc, source) {
        Ok(found) => list_shown(alloc, source, &found, between),
        Err(fault) => Ok(format!(in alloc; "{fault}")?),
    }
}

fn list_shown(
    alloc: Global,
    source: &[u8],
    found: &Tokens,
    between: &str,
) -> Result<String, NoMemory> {
    let mut out = String::new(alloc);
    for place in 0..found.len() {
        if let Some(token) = found.get(place) {
            push_item(&mut out, between, kind_shown(token.kind))?;
            out.push_str(" ")?;
            out.push_str(slice_of(source, token))?;
        }
    }
    Ok(out)
}

fn kind_shown(kind: TokenKind) -> &'static str {
    match kind {
        TokenKind::Ident => "name",
        TokenKind::Keyword => "keyword",
        TokenKind::Number => "number",
        TokenKind::Text => "text",
        TokenKind::Mark => "mark",
    }
}

// The part of the source that a token is.
fn slice_of<'a>(source: &'a [u8], token: &Token) -> &'a str {
    let slice = source.get(token.span.start..token.span.stop);
    str::from_utf8(slice.unwrap_or(b"?")).unwrap_or("?")
}

/// Whether a source is an identifier.
pub fn identifier_shown(alloc: Global, source: &[u8]) -> Result<String, NoMemory> {
    let word = if is_identifier(source) { "yes" } else { "no" };
    Ok(String::from_str(alloc, word)?)
}
