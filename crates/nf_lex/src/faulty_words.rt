//! Which words are faulty, and what is faulty where no word stands.

ghost use Rattle.std.specs.Prelude.{◌≡◌, ◌&&◌, ◌≤◌, ◌^◌, length, nat_lt, Some, true, ◌<◌};
ghost use Rattle.std.specs.Str.{is_utf8};
ghost use Rattle.std.specs.Str.Parse.{digits_value};
ghost use Rattle.nf_text.specs.Value.{is_plain};
ghost use Rattle.nf_lex.specs.Words.{is_number, is_text, kind_of};
ghost use Rattle.nf_lex.specs.Faults.{body_of, fault_of, missing_at, line_at};

use crate::comments::opens_block;
use crate::fault::LexFault;
use crate::lines::line_at;
use crate::token::TokenKind;
use nf_text::is_plain;
use std::str;

/// The fault of a word of this kind that stands at the place, if it has one.
#[tactic(auto, using(crate::proofs::Public::KindLemmas::number_word, crate::proofs::Public::KindLemmas::text_word), unfolding(crate::specs::Faults::fault_of))]
pub(crate) fn fault_of(
    kind: TokenKind,
    word: &[u8],
    source: &[u8],
    place: usize,
) -> Option<LexFault>
    requires place { place ≤ length source.now }
    requires word { kind_of word.now ≡ Some kind }
    ensures { result ≡ fault_of kind word.now (line_at source.now place) }
{
    match kind {
        TokenKind::Number => {
            if is_small(word) {
                return None;
            }
            Some(LexFault::BigNumber(line_at(source, place)))
        }
        TokenKind::Text => {
            if is_sound(word) {
                return None;
            }
            Some(LexFault::BadText(line_at(source, place)))
        }
        _ => None,
    }
}

/// Whether a number is at most 2^63 - 1.
#[tactic(auto, using(crate::proofs::WordFormLemmas::small_read, crate::proofs::Public::KindLemmas::number_utf8))]
fn is_small(number: &[u8]) -> bool
    requires { is_number number.now ≡ true }
    ensures { result ≡ nat_lt (digits_value 10 number.now) (2 ^ 63) }
{
    match str::from_utf8(number) {
        Ok(digits) => digits.parse::<i64>().is_ok(),
        Err(_) => false,
    }
}

/// Whether what stands between the `"` of a text is UTF-8 and plain.
#[tactic(auto, using(crate::proofs::Public::KindLemmas::text_long, crate::proofs::WordFormLemmas::utf8_yes, crate::proofs::WordFormLemmas::utf8_no))]
fn is_sound(text: &[u8]) -> bool
    requires { is_text text.now ≡ true }
    ensures { result ≡ (is_utf8 (body_of text.now) && is_plain (body_of text.now)) }
{
    match str::from_utf8(&text[1..text.len() - 1]) {
        Ok(body) => is_plain(body),
        Err(_) => false,
    }
}

/// The fault of a place where no word stands at the front of the bytes, which aren't empty.
#[tactic(auto, unfolding(crate::specs::Faults::missing_at))]
pub(crate) fn missing_at(bytes: &[u8], source: &[u8], place: usize) -> LexFault
    requires some { 0 < length bytes.now }
    requires place { place ≤ length source.now }
    ensures { result ≡ missing_at bytes.now (line_at source.now place) }
{
    let line = line_at(source, place);
    if opens_block(bytes) {
        LexFault::OpenComment(line)
    } else if bytes[0] == b'"' {
        LexFault::OpenText(line)
    } else {
        LexFault::BadByte(line)
    }
}
