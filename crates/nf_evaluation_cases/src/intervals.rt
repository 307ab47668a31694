//! Intervals, cells and values, as rows write them.

ghost use Rattle.std.specs.Prelude.{IfOk, IfSome, ◌≡◌, length};
ghost use Rattle.nf_core.specs.Rows.{IsPlainCell};

use crate::answers::push_item;
use crate::stopped::{FORM, Stopped};
use nf_core::{Interval, Row, Text, Value};
use nf_text::{Read, is_plain, read_value};
use std::alloc::Global;

/// The keys of the cells that intervals have which stand under no name of a plan.
pub static KEYS: [&str; 4] = ["k", "j", "m", "n"];

/// The cell of a key among the words `KEY=VALUE` of a text: a value as lines spell it, or missing.
///
/// Answers Form where the text of a value isn't plain.
pub fn cell_of(alloc: Global, cells: &str, key: &str) -> Result<Option<Value>, Stopped>
    ensures { IfOk result IsPlainCell }
{
    for word in cells.split(' ') {
        match word.split_once('=') {
            Some((name, value)) if name == key => return cell_spelled(alloc, value),
            _ => {}
        }
    }
    Ok(None)
}

/// The cell that a text spells: `-` is a missing one.
pub fn cell_spelled(alloc: Global, text: &str) -> Result<Option<Value>, Stopped>
    ensures { IfOk result IsPlainCell }
{
    if text == "-" {
        return Ok(None);
    }
    match read_value(text) {
        Read::Bool(b) => Ok(Some(Value::Bool(b))),
        Read::Int(n) => Ok(Some(Value::Int(n))),
        Read::Text(_) => text_cell(alloc, text),
    }
}

fn text_cell(alloc: Global, text: &str) -> Result<Option<Value>, Stopped>
    ensures { IfOk result IsPlainCell }
{
    if !is_plain(text) {
        return Err(FORM);
    }
    Ok(Some(Value::Text(Text::new(alloc, text)?)))
}

/// The begin and the end that a text spells: `3..5`, or `3` for both.
pub fn times_of(text: &str) -> Result<(i64, i64), Stopped> {
    let (start, stop) = text.split_once("..").unwrap_or((text, text));
    let start = start.parse::<i64>().map_err(|_| FORM)?;
    let stop = stop.parse::<i64>().map_err(|_| FORM)?;
    Ok((start, stop))
}

/// The interval that a text spells: its times, and behind a space its cells, by `KEYS`.
pub fn interval_of(alloc: Global, text: &str) -> Result<Interval, Stopped> {
    let (times, cells) = text.split_once(' ').unwrap_or((text, ""));
    let mut row = Row::new(alloc);
    for key in KEYS.iter() {
        row.push(cell_of(alloc, cells, key)?)?;
    }
    interval_over(times, row)
}

/// The interval of times with a row.
///
/// Answers Form where the times are none, or begin is after end.
pub fn interval_over(times: &str, row: Row) -> Result<Interval, Stopped>
    ensures { IfOk result (λ interval. interval.row ≡ row) }
{
    let (start, stop) = times_of(times)?;
    if start > stop {
        return Err(FORM);
    }
    Ok(Interval { start, stop, row })
}

/// Adds a value: a text between `'`.
pub fn push_value(out: &mut String, value: &Value) -> Result<(), Stopped> {
    match value {
        Value::Bool(b) => write!(out, "{b}")?,
        Value::Int(n) => write!(out, "{n}")?,
        Value::Text(text) => write!(out, "'{}'", text.as_str())?,
    }
    Ok(())
}

/// An interval: its times, and the cells that aren't missing, by `KEYS`.
pub fn interval_shown(alloc: Global, interval: &Interval) -> Result<String, Stopped> {
    let mut out = times_shown(alloc, interval)?;
    for (place, key) in KEYS.iter().enumerate() {
        push_cell(&mut out, &interval.row, place, key)?;
    }
    Ok(out)
}

/// The begin and the end of an interval.
pub fn times_shown(alloc: Global, interval: &Interval) -> Result<String, Stopped> {
    Ok(format!(in alloc; "{}..{}", interval.start, interval.stop)?)
}

/// Adds ` KEY=VALUE` for the cell at a place, where it isn't missing.
pub fn push_cell(out: &mut String, row: &Row, place: usize, key: &str) -> Result<(), Stopped> {
    if place >= row.len() {
        return Ok(());
    }
    if let Some(value) = row.get(place) {
        write!(out, " {key}=")?;
        push_value(out, value)?;
    }
    Ok(())
}

/// Intervals, one after the other.
pub fn push_interval(alloc: Global, out: &mut String, interval: &Interval) -> Result<(), Stopped> {
    let text = interval_shown(alloc, interval)?;
    push_item(out, ", ", text.as_str())
}
