//! Identifiers apart from a source.

ghost use Rattle.std.specs.Prelude.{◌≡◌};
ghost use Rattle.nf_core.specs.Identifiers.{is_identifier};
ghost use Rattle.nf_lex.specs.Words.{kind_of};

use crate::laws::tokens_are_written;
use crate::token::TokenKind;
use crate::words::token_at;

/// Whether a text is an identifier: a letter or `_`, then letters, digits and `_`, and no keyword
/// (`is_identifier` of nf_core's specs/Identifiers). Takes no memory.
#[tactic(auto, using(crate::proofs::WholeTextLemmas::is_ident, crate::proofs::WholeTextLemmas::no_ident))]
pub fn is_identifier(text: &[u8]) -> bool
    ensures { result ≡ is_identifier text.now }
{
    tokens_are_written();
    matches!(whole_kind(text), Some(TokenKind::Ident))
}

/// The kind of token that the whole text is, if it is one: that of the longest token at its front,
/// where that token is as long as the text.
#[tactic(auto, using(crate::proofs::WholeTextLemmas::kind_whole, crate::proofs::WholeTextLemmas::kind_longer, crate::proofs::WholeTextLemmas::kind_none, crate::proofs::WholeTextLemmas::kind_empty))]
fn whole_kind(text: &[u8]) -> Option<TokenKind>
    ensures { result ≡ kind_of text.now }
{
    if text.is_empty() {
        return None;
    }
    let (kind, length) = token_at(text)?;
    if length < text.len() {
        return None;
    }
    Some(kind)
}
