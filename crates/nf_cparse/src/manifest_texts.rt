//! The texts of a manifest.

ghost use Rattle.std.specs.Prelude.{◌≡◌, Ok, IfOk, IfErr};
ghost use Rattle.hex.specs.Hex.{decode_of};
ghost use Rattle.nf_cparse.specs.inner.Readings.{IsRefused};
ghost use Rattle.nf_cparse.specs.inner.ManifestParts.{IsEncoded, AreDigitsAt, AreTextsAt};

use crate::fault::CFault;
use crate::parts::{behind, line_at};
use hex::FromHexError;
use nf_core::{Text, TextList};
use nf_text::is_plain;
use std::alloc::Global;
use std::str;

/// The bytes that these digits are, in either case. Manifest where they are no bytes.
fn bytes_of(alloc: Global, digits: &[u8]) -> Result<Vec<u8>, CFault>
    ensures ok { IfOk result (λ bytes. decode_of digits.now ≡ Ok bytes.items) }
    ensures err { IfErr result (IsRefused (λ bytes rest. decode_of digits.now ≡ Ok bytes)) }
{
    match hex::decode(alloc, digits) {
        Ok(bytes) => Ok(bytes),
        Err(FromHexError::OutOfMemory) => Err(CFault::NoMemory),
        Err(_) => Err(CFault::Manifest),
    }
}

/// The text whose bytes these digits are. Manifest where they are no bytes in lower-case hexadecimal, or
/// the bytes are no UTF-8. Digits are lower-case exactly where the text's own digits are they.
fn decoded(alloc: Global, digits: &[u8]) -> Result<Text, CFault>
    ensures ok { IfOk result (λ text. IsEncoded digits.now text) }
    ensures err { IfErr result (IsRefused (λ text rest. IsEncoded digits.now text)) }
{
    let bytes = bytes_of(alloc, digits)?;
    let Ok(text) = str::from_utf8(bytes.as_slice()) else {
        return Err(CFault::Manifest);
    };
    if hex::encode(alloc, text.as_bytes())?.as_bytes() != digits {
        return Err(CFault::Manifest);
    }
    Ok(Text::new(alloc, text)?)
}

/// The digits of a text at the front of the bytes, up to the end of their line, and what stands behind that.
/// Manifest where something else stands there, or the text isn't plain.
fn digits_at<'a>(alloc: Global, bytes: &'a [u8]) -> Result<(Text, &'a [u8]), CFault>
    ensures ok { IfOk result (λ found. AreDigitsAt bytes.now found.0 found.1.now) }
    ensures err { IfErr result (IsRefused (AreDigitsAt bytes.now)) }
{
    let (digits, rest) = line_at(bytes)?;
    let text = decoded(alloc, digits)?;
    if !is_plain(text.as_str()) {
        return Err(CFault::Manifest);
    }
    Ok((text, rest))
}

/// The lines of texts at the front of the bytes up to the end of the manifest, and what stands behind that.
/// Manifest where something else stands there.
pub(crate) fn texts_at<'a>(alloc: Global, bytes: &'a [u8]) -> Result<(TextList, &'a [u8]), CFault>
    ensures ok { IfOk result (λ found. AreTextsAt bytes.now found.0 found.1.now) }
    ensures err { IfErr result (IsRefused (AreTextsAt bytes.now)) }
{
    let mut texts = TextList::new(alloc);
    let mut rest = bytes;
    'texts: while let Some(digits) = behind(rest, b"text x") {
        let (text, next) = digits_at(alloc, digits)?;
        texts.push(text)?;
        rest = next;
    }
    match behind(rest, b"*/\n") {
        Some(rest) => Ok((texts, rest)),
        None => Err(CFault::Manifest),
    }
}
