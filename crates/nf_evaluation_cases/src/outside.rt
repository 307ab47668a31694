//! Calls of the outside in memory, one after the other, through the bounds of its traits.

use crate::given::{Given, number_of};
use crate::stopped::{FORM, Stopped};
use nf_io::{Failed, MemShelf, MemSink, Shelf, Sink, SureShelf, SureSink, write_all};
use std::alloc::Global;

/// The byte that a buffer is full of before a read.
const FULL_OF: u8 = b'.';

/// Calls of a shelf over the files that were given, of which the listed ones fail.
pub fn mem_shelf_answers(
    alloc: Global,
    given: &Given<'_>,
    rows: &[&str],
) -> Result<Vec<String>, Stopped> {
    let mut shelf = MemShelf::new(given.file_map(alloc)?, given.most, given.calls(alloc)?);
    shelf_answers(alloc, &mut shelf, rows)
}

/// Calls of a shelf over the files that were given, of which none fails.
pub fn sure_shelf_answers(
    alloc: Global,
    given: &Given<'_>,
    rows: &[&str],
) -> Result<Vec<String>, Stopped> {
    let mut shelf = SureShelf::new(given.file_map(alloc)?, given.most);
    shelf_answers(alloc, &mut shelf, rows)
}

fn shelf_answers<S: Shelf>(
    alloc: Global,
    shelf: &mut S,
    rows: &[&str],
) -> Result<Vec<String>, Stopped> {
    let mut found = Vec::new(alloc);
    for row in rows {
        found.push(shelf_answer(alloc, shelf, row)?)?;
    }
    Ok(found)
}

/// A call of a shelf: `pick NAME`, or `read N` with a buffer of N bytes. Of a read it is how many bytes
/// came, and the whole buffer, which was full of dots.
pub fn shelf_answer<S: Shelf>(alloc: Global, shelf: &mut S, row: &str) -> Result<String, Stopped> {
    match row.split_once(' ') {
        Some(("pick", name)) => done_shown(alloc, shelf.pick(name)),
        Some(("read", size)) => read_answer(alloc, shelf, number_of(size)?),
        _ => Err(FORM),
    }
}

fn read_answer<S: Shelf>(alloc: Global, shelf: &mut S, size: usize) -> Result<String, Stopped> {
    if size == 0 {
        return Err(FORM);
    }
    let mut buffer = vec![in alloc; FULL_OF; size]?;
    match shelf.read(buffer.as_mut_slice()) {
        Ok(count) => {
            let text = str::from_utf8(buffer.as_slice()).map_err(|_| FORM)?;
            Ok(format!(in alloc; "{count} {text}")?)
        }
        Err(Failed) => Ok(String::from_str(alloc, "failed")?),
    }
}

/// `ok` or `failed`.
pub fn done_shown(alloc: Global, done: Result<(), Failed>) -> Result<String, Stopped> {
    let word = if done.is_ok() { "ok" } else { "failed" };
    Ok(String::from_str(alloc, word)?)
}

/// A sink that says what it took.
pub trait Kept: Sink {
    /// What was taken, where it is told.
    fn kept(&self) -> Option<&[u8]>;
}

impl Kept for MemSink<'_> {
    fn kept(&self) -> Option<&[u8]> {
        self.bytes()
    }
}

impl Kept for SureSink<'_> {
    fn kept(&self) -> Option<&[u8]> {
        self.bytes()
    }
}

/// Calls of a sink with a buffer, of which the listed ones fail, and `bytes`, what it took.
pub fn mem_sink_answers(
    alloc: Global,
    given: &Given<'_>,
    rows: &[&str],
) -> Result<Vec<String>, Stopped> {
    let mut buffer = vec![in alloc; FULL_OF; given.room]?;
    let mut sink = MemSink::new(buffer.as_mut_slice(), given.most, given.calls(alloc)?);
    sink_answers(alloc, &mut sink, rows)
}

/// Calls of a sink with a buffer, of which none fails, and `bytes`, what it took.
pub fn sure_sink_answers(
    alloc: Global,
    given: &Given<'_>,
    rows: &[&str],
) -> Result<Vec<String>, Stopped> {
    let mut buffer = vec![in alloc; FULL_OF; given.room]?;
    let mut sink = SureSink::new(buffer.as_mut_slice());
    sink_answers(alloc, &mut sink, rows)
}

fn sink_answers<O: Kept>(
    alloc: Global,
    sink: &mut O,
    rows: &[&str],
) -> Result<Vec<String>, Stopped> {
    let mut found = Vec::new(alloc);
    for row in rows {
        let answer = match *row {
            "bytes" => kept_shown(alloc, sink.kept())?,
            _ => sink_answer(alloc, sink, row)?,
        };
        found.push(answer)?;
    }
    Ok(found)
}

/// A call of a sink: `write TEXT` once, or `all TEXT` until all is written. Of a write it is how many
/// bytes were taken.
pub fn sink_answer<O: Sink>(alloc: Global, sink: &mut O, row: &str) -> Result<String, Stopped> {
    match row.split_once(' ') {
        Some(("write", text)) => match sink.write(text.as_bytes()) {
            Ok(count) => Ok(format!(in alloc; "{count}")?),
            Err(Failed) => Ok(String::from_str(alloc, "failed")?),
        },
        Some(("all", text)) => done_shown(alloc, write_all(sink, text.as_bytes())),
        _ => Err(FORM),
    }
}

/// What a sink took, or `untold`.
pub fn kept_shown(alloc: Global, bytes: Option<&[u8]>) -> Result<String, Stopped> {
    match bytes {
        Some(bytes) => {
            let text = str::from_utf8(bytes).map_err(|_| FORM)?;
            Ok(format!(in alloc; "'{text}'")?)
        }
        None => Ok(String::from_str(alloc, "untold")?),
    }
}
