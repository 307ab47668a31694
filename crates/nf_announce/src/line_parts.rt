//! The parts of an announcement line.

ghost use Rattle.std.specs.Prelude.{◌≡◌, ◌≢◌, ◌∷◌, ℕ, ℤ, Bool, List, length, None, IfSome, IsUtf8};
ghost use Rattle.nf_announce.specs.Reading.{sign_of};
ghost use Rattle.nf_text.specs.Fields.{fields_of};
ghost use Rattle.nf_announce.specs.inner.LineParts as parts;
ghost use Rattle.nf_announce.specs.inner.LineParts.{IsSpelled, IsLineOf, fields_in};

use nf_text::{Read, printed_numbers_are_read, read_value, split};
use std::marker::Model;
use std::str::from_utf8;

/// The parts of a line: its sign, the text of the name, the begin and the end, which isn't before it,
/// and the texts of the keys and of the values. Contracts see the record `Parts` of specs/inner/LineParts.
#[derive(Debug, Drop)]
pub(crate) struct Parts<'a> {
    pub(crate) added: bool,
    pub(crate) name: &'a str,
    pub(crate) start: i64,
    pub(crate) stop: i64,
    pub(crate) keys: &'a str,
    pub(crate) values: &'a str,
}

impl<'a> Model for Parts<'a> {
    ghost use Rattle.nf_announce.specs.inner.LineParts as parts;

    ghost Value = { parts.Parts };

    ghost view = { λ p. record {
      added = p.added;
      name = p.name.now;
      start = p.start;
      stop = p.stop;
      keys = p.keys.now;
      values = p.values.now;
    } };
}

/// The fields of a line behind its sign.
#[derive(Debug, Clone, Copy)]
struct Fields<'a> {
    name: &'a str,
    start: &'a str,
    stop: &'a str,
    keys: &'a str,
    values: &'a str,
}

/// The parts of a line, given without its LF. None exactly where no parts make it (`IsLineOf` of
/// specs/inner/LineParts).
pub(crate) fn read_parts(line: &[u8]) -> Option<Parts<'_>>
    ensures some { IfSome result (IsLineOf line.now) }
    ensures none { result ≡ None → (other : parts.Parts) → ¬ IsLineOf line.now other }
{
    let (added, text) = read_sign(line)?;
    let text = read_text(text)?;
    let fields = read_fields(text)?;
    let start = read_number(fields.start)?;
    let stop = read_number(fields.stop)?;
    if start > stop {
        return None;
    }
    Some(Parts {
        added,
        name: fields.name,
        start,
        stop,
        keys: fields.keys,
        values: fields.values,
    })
}

/// Whether a line's sign is that of an addition, and what stands behind the sign. None exactly where the
/// line begins with neither sign.
fn read_sign(line: &[u8]) -> Option<(bool, &[u8])>
    ensures some { IfSome result (λ r. line.now ≡ sign_of r.0 ∷ r.1.now) }
    ensures none { result ≡ None → (added : Bool) (text : List ℕ)
        → line.now ≢ sign_of added ∷ text }
{
    match line.split_first() {
        Some((b'+', text)) => Some((true, text)),
        Some((b'-', text)) => Some((false, text)),
        _ => None,
    }
}

/// The bytes as text. None exactly where they aren't UTF-8.
fn read_text(bytes: &[u8]) -> Option<&str>
    ensures some { IfSome result (λ text. (text.now ≡ bytes.now) × IsUtf8 bytes.now) }
    ensures none { result ≡ None → ¬ IsUtf8 bytes.now }
{
    from_utf8(bytes).ok()
}

/// The fields between the bars of a text. None exactly where there aren't five.
fn read_fields(text: &str) -> Option<Fields<'_>>
    ensures some { IfSome result (λ fields. fields_of 124 text.now ≡ fields_in fields) }
    ensures none { result ≡ None → length (fields_of 124 text.now) ≢ 5 }
{
    let mut fields = split(text, b'|');
    let read = Fields {
        name: fields.next()?,
        start: fields.next()?,
        stop: fields.next()?,
        keys: fields.next()?,
        values: fields.next()?,
    };
    if fields.next().is_some() {
        return None;
    }
    Some(read)
}

/// The whole number of which a text is the canonical decimal. None exactly where there is none.
fn read_number(text: &str) -> Option<i64>
    ensures some { IfSome result (IsSpelled text.now) }
    ensures none { result ≡ None → (n : ℤ) → ¬ IsSpelled text.now n }
{
    printed_numbers_are_read();
    match read_value(text) {
        Read::Int(number) => Some(number),
        _ => None,
    }
}
