//! The data of an announcement: the present keys of a row and their values.

ghost use Rattle.std.specs.Prelude.{◌≡◌, ◌++◌, ◌∷◌, [], ◌&&◌, length, map, min, is_none, IfOk, OnOk, if◌then◌else◌};
ghost use Rattle.std.specs.Option.{option_copied};
ghost use Rattle.nf_announce.specs.Announcements.{joined, present, data_text, text_of_value};
ghost use Rattle.nf_announce.specs.inner.Cells.{part_of, cell_text};

use crate::keys::Keys;
use itoa::Buffer;
use nf_core::{Lines, NoMemory, Row, Value};
use std::alloc::Global;

/// One of the two lists in the data of an announcement.
#[derive(Debug, Clone, Copy)]
pub(crate) enum Part {
    Keys,
    Values,
}

/// The present keys of a row and, after a `|`, their values, each list joined by `;` (`data_text` of
/// specs/Announcements).
pub(crate) fn data_text<K: Keys>(alloc: Global, keys: &K, row: &Row) -> Result<Lines, NoMemory>
    ensures { IfOk result (λ text. text ≡ data_text (K.keys keys.now) row.now) }
{
    let mut text = Lines::new(alloc);
    push_part(keys, row, Part::Keys, &mut text)?;
    text.push(b"|")?;
    push_part(keys, row, Part::Values, &mut text)?;
    Ok(text)
}

/// Puts the present keys of a row, or their values, at the end of a text, joined by `;`.
fn push_part<K: Keys>(keys: &K, row: &Row, part: Part, text: &mut Lines) -> Result<(), NoMemory>
    ensures { OnOk result (text.new
        ≡ text.old ++ joined (map (part_of part) (present (K.keys keys.now) row.now))) }
{
    let mut is_first = true;
    for place in 0..cell_count(keys, row) {
        is_first = push_cell(keys.at(place), row.get(place), part, is_first, text)?;
    }
    Ok(())
}

/// How many keys have a cell in a row.
fn cell_count<K: Keys>(keys: &K, row: &Row) -> usize
    ensures { result ≡ min (length (K.keys keys.now)) (length row.now) }
{
    if row.len() < keys.count() {
        row.len()
    } else {
        keys.count()
    }
}

/// Puts the key or the value of a cell at the end of a text where the cell is present, after a `;`
/// unless it is the first. Answers whether the next one is still the first.
fn push_cell(
    key: &str,
    cell: Option<&Value>,
    part: Part,
    is_first: bool,
    text: &mut Lines,
) -> Result<bool, NoMemory>
    ensures text { OnOk result (text.new
        ≡ text.old ++ cell_text is_first part key.now (option_copied cell.entry)) }
    ensures first { IfOk result (λ first.
        first ≡ (is_first && is_none (option_copied cell.entry))) }
{
    match cell {
        None => Ok(is_first),
        Some(value) => {
            push_separator(is_first, text)?;
            push_text(key, value, part, text)?;
            Ok(false)
        }
    }
}

/// Puts a `;` at the end of a text, unless what follows is the first.
fn push_separator(is_first: bool, text: &mut Lines) -> Result<(), NoMemory>
    ensures { OnOk result (text.new ≡ text.old ++ (if is_first then [] else 59 ∷ [])) }
{
    if is_first { Ok(()) } else { text.push(b";") }
}

/// Puts a key or its value at the end of a text.
fn push_text(key: &str, value: &Value, part: Part, text: &mut Lines) -> Result<(), NoMemory>
    ensures { OnOk result (text.new ≡ text.old ++ part_of part (key.now, text_of_value value.now)) }
{
    match part {
        Part::Keys => text.push(key.as_bytes()),
        Part::Values => push_value(value, text),
    }
}

/// Puts the text of a value at the end of a text: a truth value as its word, a whole number in
/// canonical decimals, a text as it is (`text_of_value` of specs/Announcements).
fn push_value(value: &Value, text: &mut Lines) -> Result<(), NoMemory>
    ensures { OnOk result (text.new ≡ text.old ++ text_of_value value.now) }
{
    match value {
        Value::Bool(true) => text.push(b"true"),
        Value::Bool(false) => text.push(b"false"),
        Value::Int(number) => text.push(Buffer::new().format(*number).as_bytes()),
        Value::Text(value) => text.push(value.as_str().as_bytes()),
    }
}
