//! What stands at the front of bytes: a word, a line, an identifier.

ghost use Rattle.std.specs.Prelude.{◌≡◌, ◌<◌, ◌≤◌, ℕ, List, length, IfOk, IfErr, MatchOption, IsTrue};
ghost use Rattle.std.specs.List.{prefix_len};
ghost use Rattle.nf_core.specs.Identifiers.{is_identifier};
ghost use Rattle.nf_lex.specs.Bytes.{is_inner, is_in_line};
ghost use Rattle.nf_cparse.specs.inner.Readings.{IsRefused, IsBehind};
ghost use Rattle.nf_cparse.specs.inner.ManifestParts.{IsIdentifierAt, IsLineAt};

use crate::fault::CFault;
use nf_core::{NoMemory, Text};
use nf_lex::is_identifier;
use std::alloc::Global;
use std::str;

/// What stands behind a word with which the bytes begin, or None exactly where they don't.
#[tactic(auto, using(crate::proofs::PartLemmas::is_behind, crate::proofs::PartLemmas::not_behind))]
pub(crate) fn behind<'a>(bytes: &'a [u8], word: &[u8]) -> Option<&'a [u8]>
    ensures { MatchOption result
        ((rest : List ℕ) → IsBehind bytes.now word.now rest → ⊥)
        (λ rest. IsBehind bytes.now word.now rest.now) }
{
    bytes.strip_prefix(word)
}

/// Whether the byte is a letter, a digit or `_`.
pub(crate) fn is_inner(byte: u8) -> bool
    ensures { result ≡ is_inner byte }
{
    byte.is_ascii_alphanumeric() || byte == b'_'
}

/// How many bytes at the front are letters, digits and `_`.
pub(crate) fn name_len(bytes: &[u8]) -> usize
    ensures len { result ≡ prefix_len is_inner bytes.now }
    ensures within { result ≤ length bytes.now }
{
    bytes.iter().take_while(|byte| is_inner(**byte)).count()
}

/// An identifier as a text.
#[tactic(auto, using(crate::proofs::PartLemmas::identifier_utf8))]
fn name_of(alloc: Global, word: &[u8]) -> Result<Text, NoMemory>
    requires { IsTrue (is_identifier word.now) }
    ensures { IfOk result (λ text. text ≡ word.now) }
{
    match str::from_utf8(word) {
        Ok(text) => Text::new(alloc, text),
        Err(_) => unreachable!(),
    }
}

/// The whole identifier at the front of the bytes, and what stands behind it. Manifest where none stands
/// there.
#[tactic(auto, using(crate::proofs::PartLemmas::identifier_at, crate::proofs::PartLemmas::no_identifier_at))]
pub(crate) fn identifier_at<'a>(alloc: Global, bytes: &'a [u8]) -> Result<(Text, &'a [u8]), CFault>
    ensures ok { IfOk result (λ found. IsIdentifierAt bytes.now found.0 found.1.now) }
    ensures err { IfErr result (IsRefused (IsIdentifierAt bytes.now)) }
{
    let (word, rest) = bytes.split_at(name_len(bytes));
    if !is_identifier(word) {
        return Err(CFault::Manifest);
    }
    let name = name_of(alloc, word)?;
    Ok((name, rest))
}

/// How many bytes stand before the first LF, or all where there is none.
pub(crate) fn line_len(bytes: &[u8]) -> usize
    ensures len { result ≡ prefix_len is_in_line bytes.now }
    ensures within { result ≤ length bytes.now }
{
    bytes.iter().take_while(|byte| **byte != b'\n').count()
}

/// The line at the front of the bytes, without its LF, and what stands behind it. Manifest where there is
/// no LF.
#[tactic(auto, using(crate::proofs::PartLemmas::line_at, crate::proofs::PartLemmas::no_line_at))]
pub(crate) fn line_at<'a>(bytes: &'a [u8]) -> Result<(&'a [u8], &'a [u8]), CFault>
    ensures ok { IfOk result (λ found. IsLineAt bytes.now found.0.now found.1.now) }
    ensures err { IfErr result (IsRefused (IsLineAt bytes.now)) }
{
    let (line, rest) = bytes.split_at(line_len(bytes));
    match behind(rest, b"\n") {
        Some(rest) => Ok((line, rest)),
        None => Err(CFault::Manifest),
    }
}
