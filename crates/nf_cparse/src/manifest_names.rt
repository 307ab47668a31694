//! The names of a manifest.

ghost use Rattle.std.specs.Prelude.{◌≡◌, IfOk, IfErr};
ghost use Rattle.nf_cparse.specs.inner.Readings.{IsRefused, IsBehind};
ghost use Rattle.nf_cparse.specs.inner.ManifestParts.{AreKeysAt, is_below, ascend, word_of_name, IsNameAt, begins_name, AreNamesAt};

use crate::fault::CFault;
use crate::parts::{behind, identifier_at};
use nf_cast::{CName, CNameList};
use nf_core::{Text, TextList};
use std::alloc::Global;

/// The keys at the front of the bytes up to the end of their line, each behind a space, and what stands
/// behind that. Manifest where something else stands there.
pub(crate) fn keys_at<'a>(alloc: Global, bytes: &'a [u8]) -> Result<(TextList, &'a [u8]), CFault>
    ensures ok { IfOk result (λ found. AreKeysAt bytes.now found.0 found.1.now) }
    ensures err { IfErr result (IsRefused (AreKeysAt bytes.now)) }
{
    let mut keys = TextList::new(alloc);
    let mut rest = bytes;
    'keys: while let Some(key) = behind(rest, b" ") {
        let (key, next) = identifier_at(alloc, key)?;
        keys.push(key)?;
        rest = next;
    }
    match behind(rest, b"\n") {
        Some(rest) => Ok((keys, rest)),
        None => Err(CFault::Manifest),
    }
}

/// Whether the text is below the first of some others, if there is one.
fn is_below(text: &Text, others: &[Text]) -> bool
    ensures { result ≡ is_below text.now others.now }
{
    match others {
        [] => true,
        [other, ..] => text < other,
    }
}

/// Whether the texts ascend by their bytes, each once.
fn are_ascending(mut texts: &[Text]) -> bool
    ensures { result ≡ ascend texts.now }
{
    'texts: while let [text, others @ ..] = texts {
        if !is_below(text, others) {
            return false;
        }
        texts = others;
    }
    true
}

/// The word of a name's line at the front of the bytes: whether the name is a head, and what stands behind
/// the word. Manifest where neither of both words stands there.
fn word_at<'a>(bytes: &'a [u8]) -> Result<(bool, &'a [u8]), CFault>
    ensures ok { IfOk result (λ found. IsBehind bytes.now (word_of_name found.0) found.1.now) }
    ensures err { IfErr result (IsRefused (λ is_head. IsBehind bytes.now (word_of_name is_head))) }
{
    if let Some(rest) = behind(bytes, b"head ") {
        return Ok((true, rest));
    }
    match behind(bytes, b"name ") {
        Some(rest) => Ok((false, rest)),
        None => Err(CFault::Manifest),
    }
}

/// The line of a name at the front of the bytes, and what stands behind it. Manifest where none stands
/// there.
#[tactic(auto, using(crate::proofs::AscendingLemmas::ascend_sorted))]
fn name_at<'a>(alloc: Global, bytes: &'a [u8]) -> Result<(CName, &'a [u8]), CFault>
    ensures ok { IfOk result (λ found. IsNameAt bytes.now found.0 found.1.now) }
    ensures err { IfErr result (IsRefused (IsNameAt bytes.now)) }
{
    let (is_head, word) = word_at(bytes)?;
    let (name, rest) = identifier_at(alloc, word)?;
    let (keys, rest) = keys_at(alloc, rest)?;
    if !are_ascending(keys.as_slice()) {
        return Err(CFault::Manifest);
    }
    Ok((
        CName {
            is_head,
            name,
            keys,
        },
        rest,
    ))
}

/// Whether the line of a name comes next.
fn begins_name(bytes: &[u8]) -> bool
    ensures { result ≡ begins_name bytes.now }
{
    bytes.starts_with(b"name ") || bytes.starts_with(b"head ")
}

/// The lines of names at the front of the bytes, as many as there are, and what stands behind them.
/// Manifest where a line begins as that of a name does and is none.
pub(crate) fn names_at<'a>(alloc: Global, bytes: &'a [u8]) -> Result<(CNameList, &'a [u8]), CFault>
    ensures ok { IfOk result (λ found. AreNamesAt bytes.now found.0 found.1.now) }
    ensures err { IfErr result (IsRefused (AreNamesAt bytes.now)) }
{
    let mut names = CNameList::new(alloc);
    let mut rest = bytes;
    'names: while begins_name(rest) {
        let (name, next) = name_at(alloc, rest)?;
        names.push(name)?;
        rest = next;
    }
    Ok((names, rest))
}
