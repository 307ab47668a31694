//! The fields of a line, and their tests.

ghost use Rattle.std.specs.Prelude.{◌≡◌, ◌==◌, ◌&&◌, ℕ, int_lt, not, length, count_by, Some, IfOk, IsUtf8};
ghost use Rattle.std.specs.List.{list_any};
ghost use Rattle.nf_text.specs.Fields.{fields_of};
ghost use Rattle.nf_text.specs.Time.{is_time};
ghost use Rattle.nf_line.specs.Lines.{is_empty};
ghost use Rattle.nf_line.specs.Line.{is_text, parts_of, keys_in, values_in, time_in};
ghost use Rattle.nf_line.specs.inner.Stages.{Tests};
ghost use Rattle.nf_line.specs.inner.FieldTexts.{parts_in, lacks_fields, stop_text};

use crate::fault::LineFault;
use nf_text::{read_time, split};

/// The fields of a line by their meaning. A line of two or four fields has no end of its own: it begins
/// and ends at its time. A line of two fields has no keys and no values.
#[derive(Debug, Clone, Copy)]
pub(crate) struct Fields<'a> {
    pub(crate) name: &'a str,
    pub(crate) start: &'a str,
    pub(crate) stop: Option<&'a str>,
    pub(crate) keys: &'a str,
    pub(crate) values: &'a str,
}

/// When a line begins and ends.
#[derive(Debug, Clone, Copy)]
pub(crate) struct Times {
    pub(crate) start: i64,
    pub(crate) stop: i64,
}

/// The line as text: it is UTF-8 and holds no CR.
#[tactic(auto, using(crate::proofs::FieldTestLemmas::text_tested, crate::proofs::FieldTestLemmas::no_text_tested))]
pub(crate) fn read_text(line: &[u8]) -> Result<&str, LineFault>
    ensures test { Tests LineFault.NotText (not (is_text line.now)) result }
    ensures text { IfOk result (λ text. text.now ≡ line.now) }
{
    if line.contains(&b'\r') {
        return Err(LineFault::NotText);
    }
    match simdutf8::basic::from_utf8(line) {
        Ok(text) => Ok(text),
        Err(_) => Err(LineFault::NotText),
    }
}

/// The fields of a line (`parts_of` of specs/Line): there are two, four or five of them, and the name
/// isn't empty.
pub(crate) fn read_fields(text: &str) -> Result<Fields<'_>, LineFault>
    ensures test { Tests LineFault.Fields
        (lacks_fields (parts_of (fields_of 124 text.now))) result }
    ensures parts { IfOk result (λ fields.
        parts_of (fields_of 124 text.now) ≡ Some (parts_in fields)) }
{
    let mut fields = split(text, b'|');
    let first = fields.next();
    let second = fields.next();
    let third = fields.next();
    let fourth = fields.next();
    let fifth = fields.next();
    let sixth = fields.next();
    let read = match (first, second, third, fourth, fifth, sixth) {
        (Some(name), Some(start), None, None, None, None) => Fields {
            name,
            start,
            stop: None,
            keys: "",
            values: "",
        },
        (Some(name), Some(start), Some(keys), Some(values), None, None) => Fields {
            name,
            start,
            stop: None,
            keys,
            values,
        },
        (Some(name), Some(start), Some(stop), Some(keys), Some(values), None) => Fields {
            name,
            start,
            stop: Some(stop),
            keys,
            values,
        },
        _ => return Err(LineFault::Fields),
    };
    if read.name.is_empty() {
        return Err(LineFault::Fields);
    }
    Ok(read)
}

/// The begin and the end of a line, which are one time where it has no end of its own.
pub(crate) fn read_times(start: &str, stop: Option<&str>) -> Result<Times, LineFault>
    ensures test { let end = stop_text start.now stop.entry in
        Tests LineFault.Time (not (is_time start.now && is_time end)) result }
    ensures start { IfOk result (λ times. times.start ≡ time_in start.now) }
    ensures stop { IfOk result (λ times. times.stop ≡ time_in (stop_text start.now stop.entry)) }
{
    let begin = read_line_time(start)?;
    let end = match stop {
        Some(stop) => read_line_time(stop)?,
        None => begin,
    };
    Ok(Times {
        start: begin,
        stop: end,
    })
}

/// A time of a line.
#[tactic(auto, using(crate::proofs::FieldTestLemmas::time_tested, crate::proofs::FieldTestLemmas::time_read))]
fn read_line_time(text: &str) -> Result<i64, LineFault>
    ensures test { Tests LineFault.Time (not (is_time text.now)) result }
    ensures time { IfOk result (λ time. time ≡ time_in text.now) }
{
    read_time(text).ok_or(LineFault::Time)
}

/// Tests that a line doesn't end before it begins.
pub(crate) fn test_span(times: &Times) -> Result<(), LineFault>
    ensures { Tests LineFault.Span (int_lt times.now.stop times.now.start) result }
{
    if times.stop < times.start {
        return Err(LineFault::Span);
    }
    Ok(())
}

/// Tests that no key is empty.
pub(crate) fn test_keys(keys: &str) -> Result<(), LineFault>
    ensures { Tests LineFault.Key (list_any is_empty (keys_in keys.now)) result }
{
    if !keys.is_empty() && has_empty_part(keys) {
        return Err(LineFault::Key);
    }
    Ok(())
}

/// Tests that there are as many values as keys.
pub(crate) fn test_counts(keys: &str, values: &str) -> Result<(), LineFault>
    ensures { Tests LineFault.Counts
        (not (length (values_in keys.now values.now) == length (keys_in keys.now))) result }
{
    if are_as_many(keys, values) {
        Ok(())
    } else {
        Err(LineFault::Counts)
    }
}

/// Whether one of the parts of a text between `;` is empty.
fn has_empty_part(text: &str) -> bool
    ensures { result ≡ list_any is_empty (fields_of 59 text.now) }
{
    let bytes = text.as_bytes();
    let mut behind_mark = true;
    for byte in bytes {
        let is_mark = *byte == b';';
        if is_mark && behind_mark {
            return true;
        }
        behind_mark = is_mark;
    }
    behind_mark
}

/// Whether there are as many values as keys.
#[tactic(auto, using(crate::proofs::FieldTestLemmas::no_keys, crate::proofs::FieldTestLemmas::some_keys))]
fn are_as_many(keys: &str, values: &str) -> bool
    ensures { result ≡ (length (values_in keys.now values.now) == length (keys_in keys.now)) }
{
    if keys.is_empty() {
        return values.is_empty();
    }
    count_marks(values.as_bytes()) == count_marks(keys.as_bytes())
}

/// How many of the bytes are `;`.
fn count_marks(bytes: &[u8]) -> usize
    ensures { result ≡ count_by (λ byte. byte == 59) bytes.now }
{
    bytes.iter().filter(|byte| **byte == b';').count()
}
