//! The readers of values: what a text spells, and whether it is plain.

ghost use Rattle.std.specs.Prelude.{◌≡◌, ◌↔◌, IsTrue, true, All};
ghost use Rattle.std.specs.List.{list_any};
ghost use Rattle.nf_core.specs.Texts.{IsPlainByte, IsPlain};
ghost use Rattle.nf_text.specs.Value.{is_words, spelling, spelling_of, is_positive, is_numeral, whole_of, is_plain, is_separator};

use crate::digits::is_digits;
use crate::value::Read;

/// The value that `text` spells: a truth value where it is `true` or `false`, a whole number where it
/// is `0` or an optional `-` and digits without a leading zero, within i64, else the text itself.
/// The rule is `spelling_of` in specs/Value.antt. Where it is the text itself, and no byte of it is `|`,
/// `;`, CR or LF, it is plain (`IsPlain` of nf_core's specs/Texts).
#[tactic(auto, unfolding(crate::specs::Value::spelling_of))]
pub fn read_value<'a>(text: &'a str) -> Read<'a>
    ensures spelling { spelling result ≡ spelling_of text.now }
    ensures plain { All IsPlainByte text.now → is_words (spelling result) ≡ true
        → IsPlain text.now }
{
    match text {
        "true" => Read::Bool(true),
        "false" => Read::Bool(false),
        _ => match read_whole(text) {
            Some(number) => Read::Int(number),
            None => Read::Text(text),
        },
    }
}

/// Whether `text` is plain: it holds no `|`, `;`, CR or LF, and `read_value` reads it as a text. The
/// rule is `is_plain` in specs/Value.antt, and `IsPlain` of nf_core's specs/Texts says the same.
#[tactic(auto, unfolding(crate::specs::Value::is_plain))]
pub fn is_plain(text: &str) -> bool
    ensures value { result ≡ is_plain text.now }
    ensures plain { IsTrue result ↔ IsPlain text.now }
{
    match read_value(text) {
        Read::Text(_) => !has_separator(text.as_bytes()),
        _ => false,
    }
}

/// Whether one of the bytes is `|`, `;`, CR or LF.
fn has_separator(bytes: &[u8]) -> bool
    ensures { result ≡ list_any is_separator bytes.now }
{
    bytes.iter().any(|byte| *byte == b'|' || *byte == b';' || *byte == b'\r' || *byte == b'\n')
}

/// The whole number that `text` spells, if it does.
#[tactic(auto, using(crate::proofs::NumeralLemmas::whole_read), unfolding(crate::specs::Value::whole_of))]
fn read_whole(text: &str) -> Option<i64>
    ensures { result ≡ whole_of text.now }
{
    if !is_numeral(text.as_bytes()) {
        return None;
    }
    text.parse::<i64>().ok()
}

/// Whether the text is `0`, or an optional `-` and digits without a leading zero.
fn is_numeral(text: &[u8]) -> bool
    ensures { result ≡ is_numeral text.now }
{
    match text.split_first() {
        Some((b'-', digits)) => is_positive(digits),
        Some((b'0', rest)) => rest.is_empty(),
        _ => is_positive(text),
    }
}

/// Whether the bytes are digits, one at least, without a leading zero.
fn is_positive(digits: &[u8]) -> bool
    ensures { result ≡ is_positive digits.now }
{
    match digits.first() {
        Some(first) => *first > b'0' && is_digits(digits),
        None => false,
    }
}
