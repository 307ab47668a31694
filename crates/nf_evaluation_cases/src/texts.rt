//! Times, values, fields, slices and walks of texts.

use crate::answers::push_item;
use crate::given::number_of;
use crate::stopped::{FORM, Stopped};
use nf_text::{Cursor, Read, Span, is_plain, read_time, read_value, slice, split};
use std::alloc::Global;

/// The time that a text spells, or `none`.
pub fn time_answer(alloc: Global, text: &str) -> Result<String, Stopped> {
    match read_time(text) {
        Some(time) => Ok(format!(in alloc; "{time}")?),
        None => Ok(String::from_str(alloc, "none")?),
    }
}

/// The value that a text spells, and whether the text is plain.
pub fn spelled_answer(alloc: Global, text: &str) -> Result<String, Stopped> {
    let mut out = match read_value(text) {
        Read::Bool(b) => format!(in alloc; "truth {b}")?,
        Read::Int(n) => format!(in alloc; "whole {n}")?,
        Read::Text(t) => format!(in alloc; "text {t}")?,
    };
    if is_plain(text) {
        out.push_str(", plain")?;
    }
    Ok(out)
}

/// The fields of a text between marks, each between `'`.
pub fn fields_answer(alloc: Global, mark: &str, text: &str) -> Result<String, Stopped> {
    let mark = *mark.as_bytes().first().ok_or(FORM)?;
    if mark >= 128 {
        return Err(FORM);
    }
    let mut out = String::new(alloc);
    for field in split(text, mark) {
        let field = format!(in alloc; "'{field}'")?;
        push_item(&mut out, " ", field.as_str())?;
    }
    Ok(out)
}

/// The slice of a text from a place to another one.
pub fn slice_answer(alloc: Global, places: &str, text: &str) -> Result<String, Stopped> {
    let (start, stop) = places.split_once(' ').ok_or(FORM)?;
    let start = number_of(start)?;
    let stop = number_of(stop)?;
    if start > stop || stop > text.len() {
        return Err(FORM);
    }
    let bytes = slice(text.as_bytes(), Span { start, stop });
    let part = str::from_utf8(bytes).map_err(|_| FORM)?;
    Ok(String::from_str(alloc, part)?)
}

/// The bytes of a text as a cursor meets them, and the place at its end.
pub fn walk_answer(alloc: Global, text: &str) -> Result<String, Stopped> {
    let mut cursor = Cursor::new(text.as_bytes());
    let mut met = Vec::new(alloc);
    for _ in text.as_bytes() {
        if let Some(byte) = cursor.peek() {
            met.push(byte)?;
            cursor.step();
        }
    }
    let end = if cursor.peek().is_none() {
        "end"
    } else {
        "rest"
    };
    let place = cursor.place();
    let met = str::from_utf8(met.as_slice()).map_err(|_| FORM)?;
    Ok(format!(in alloc; "'{met}' {place} {end}")?)
}
