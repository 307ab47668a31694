//! The row of an announcement line, from the texts of its keys and values.

ghost use Rattle.std.specs.Prelude.{◌≡◌, ◌↔◌, ◌==◌, [], ℕ, List, true, false, count_by, Option, Ok, None, IsTrue, IfOk, IfSome};
ghost use Rattle.std.specs.Option.{option_copied};
ghost use Rattle.std.specs.List.Sorted.{IsStrictlySortedBy};
ghost use Rattle.nf_core.specs.Texts.{text_cmp};
ghost use Rattle.nf_core.specs.declared.values.Value as value;
ghost use Rattle.nf_model.specs.ProperRows.{IsProperCell};
ghost use Rattle.nf_announce.specs.inner.LineParts.{IsRowWith};
ghost use Rattle.nf_announce.specs.inner.RowTexts.{IsTaken, IsPrintedBy, IsSpelling, Pushes, ArePairsIn};

use crate::keys::Keys;
use nf_core::{NoMemory, Row, Text, Value};
use nf_text::{
    Read, Split, is_plain, printed_numbers_are_read, read_value, spellings_are_apart, split,
};
use std::alloc::Global;
use std::marker::Model;

/// The pairs of a key and a value's text that are left of a line, in the order in which they are written.
/// Contracts see the list of their texts. Each text is lent by the line.
#[derive(Debug, Drop)]
pub(crate) struct Pairs<'a> {
    key: Option<&'a str>,
    keys: Split<'a>,
    values: Split<'a>,
}

impl<'a> Model for Pairs<'a> {
    ghost use Rattle.std.specs.Prelude.{ℕ, List};
    ghost use Rattle.nf_announce.specs.inner.RowTexts.{pairs_left, AreLeft};

    ghost Value = { List (List ℕ × List ℕ) };

    ghost view = { λ p. pairs_left p.key p.keys p.values };

    ghost invariant = { λ p. AreLeft p.key p.keys p.values };
}

impl<'a> Pairs<'a> {
    /// The pairs of the texts of the keys and of the values. None exactly where these aren't as many.
    pub(crate) fn of(keys: &'a str, values: &'a str) -> Option<Pairs<'a>>
        ensures some { IfSome result (ArePairsIn keys.now values.now) }
        ensures none { result ≡ None → (pairs : List (List ℕ × List ℕ))
            → ¬ ArePairsIn keys.now values.now pairs }
    {
        let mut pairs = Pairs {
            key: None,
            keys: split(keys, b';'),
            values: split(values, b';'),
        };
        if keys.is_empty() {
            return if values.is_empty() { Some(pairs) } else { None };
        }
        if count_marks(keys.as_bytes()) != count_marks(values.as_bytes()) {
            return None;
        }
        pairs.key = pairs.keys.next();
        Some(pairs)
    }

    /// Takes the next pair away where it has this key, and answers the text of its value.
    fn take(&mut self, key: &str) -> Option<&'a str>
        ensures { IsTaken key.now (option_copied result) self.old self.new }
    {
        if self.key? != key {
            return None;
        }
        self.key = self.keys.next();
        self.values.next()
    }

    /// Whether no pair is left.
    fn is_done(&self) -> bool
        ensures { IsTrue result ↔ (self.now ≡ []) }
    {
        self.key.is_none()
    }
}

/// The row of some keys that ascend with these pairs. None exactly where no row of them has these pairs
/// (`IsRowWith` of specs/inner/LineParts).
pub(crate) fn read_row<K: Keys>(
    alloc: Global,
    keys: &K,
    mut pairs: Pairs<'_>,
) -> Result<Option<Row>, NoMemory>
    requires { IsStrictlySortedBy text_cmp (K.keys keys.now) }
    ensures some { IfOk result (λ read. IfSome read (IsRowWith (K.keys keys.now) pairs.entry)) }
    ensures none { result ≡ Ok None → (row : List (Option value.Value))
        → ¬ IsRowWith (K.keys keys.now) pairs.entry row }
{
    let mut row = Row::new(alloc);
    for place in 0..keys.count() {
        let text = pairs.take(keys.at(place));
        if !push_cell(alloc, text, &mut row)? {
            return Ok(None);
        }
    }
    if pairs.is_done() {
        Ok(Some(row))
    } else {
        Ok(None)
    }
}

/// Puts the cell with a value's text, or a missing one, at the end of a row. False exactly where no cell
/// has this text.
fn push_cell(alloc: Global, text: Option<&str>, row: &mut Row) -> Result<bool, NoMemory>
    ensures done { result ≡ Ok true → Pushes (option_copied text.entry) row.old row.new }
    ensures none { result ≡ Ok false → (cell : Option value.Value) → IsProperCell cell
        → ¬ IsPrintedBy (option_copied text.entry) cell }
{
    let cell = match text {
        None => None,
        Some(text) => {
            let cell = read_cell(alloc, text)?;
            if cell.is_none() {
                return Ok(false);
            }
            cell
        }
    };
    row.push(cell)?;
    Ok(true)
}

/// The value of which a text is what is printed. None exactly where there is none: the text holds a
/// byte that isn't plain.
fn read_cell(alloc: Global, text: &str) -> Result<Option<Value>, NoMemory>
    ensures some { IfOk result (λ read. IfSome read (IsSpelling text.now)) }
    ensures none { result ≡ Ok None → (value : value.Value) → ¬ IsSpelling text.now value }
{
    printed_numbers_are_read();
    spellings_are_apart();
    match read_value(text) {
        Read::Bool(truth) => Ok(Some(Value::Bool(truth))),
        Read::Int(number) => Ok(Some(Value::Int(number))),
        Read::Text(text) => {
            if !is_plain(text) {
                return Ok(None);
            }
            Ok(Some(Value::Text(Text::new(alloc, text)?)))
        }
    }
}

/// How many of the bytes are `;`.
fn count_marks(bytes: &[u8]) -> usize
    ensures { result ≡ count_by (λ byte. byte == 59) bytes.now }
{
    bytes.iter().filter(|byte| **byte == b';').count()
}
