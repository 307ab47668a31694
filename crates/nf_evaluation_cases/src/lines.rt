//! Lines of a trace, as bytes that come in pieces are cut into them.

ghost use Rattle.std.specs.Prelude.{◌≡◌, ◌<◌, length};
ghost use Rattle.nf_line.specs.Cutting.{CanBeRead};

use crate::answers::push_item;
use crate::intervals::push_cell;
use crate::stopped::{FORM, Stopped};
use nf_cases::Wrong;
use nf_core::{Plan, Row};
use nf_line::{CutFault, Liner, RawLine};
use std::alloc::Global;

/// What the lines of bytes are, in every cutting into two pieces, and byte by byte: `-` where one is
/// empty, its fault, or its name, its time or its begin and end, and its pairs. Where a cutting gives
/// others, it is these.
pub fn lines_answer(alloc: Global, bytes: &[u8], between: &str) -> Result<String, Stopped> {
    let whole = lines_of(alloc, b"", bytes, 1, between)?;
    for place in 0..bytes.len() {
        let (first, second) = bytes.split_at(place);
        let found = lines_of(alloc, first, second, usize::MAX, between)?;
        if found.as_str() != whole.as_str() {
            return Ok(format!(in alloc; "cut at {place}: {found}")?);
        }
    }
    Ok(whole)
}

// The lines of two pieces one after the other, the second one in pieces of a size.
fn lines_of(
    alloc: Global,
    first: &[u8],
    second: &[u8],
    size: usize,
    between: &str,
) -> Result<String, Stopped> {
    let mut liner = Liner::new(alloc);
    let mut out = String::new(alloc);
    push_piece(alloc, &mut liner, first, between, &mut out)?;
    for piece in second.chunks(size.max(1)) {
        push_piece(alloc, &mut liner, piece, between, &mut out)?;
    }
    if let Some(line) = liner.last() {
        push_line(alloc, line, between, &mut out)?;
    }
    Ok(out)
}

// Adds the lines that a piece ends.
fn push_piece(
    alloc: Global,
    liner: &mut Liner,
    piece: &[u8],
    between: &str,
    out: &mut String,
) -> Result<(), Stopped> {
    let mut rest = piece;
    for _ in piece {
        if rest.is_empty() {
            return Ok(());
        }
        let taken = match liner.next_line(rest) {
            Ok(taken) => taken,
            Err(fault) => return cut_off(alloc, fault, between, out),
        };
        if let Some(line) = taken.line {
            push_line(alloc, line, between, out)?;
        }
        rest = rest.get(taken.used..).unwrap_or(b"");
    }
    Ok(())
}

fn cut_off(alloc: Global, fault: CutFault, between: &str, out: &mut String) -> Result<(), Stopped> {
    let fault = format!(in alloc; "{fault}")?;
    push_item(out, between, fault.as_str())
}

// Adds what a line is.
fn push_line(alloc: Global, line: &[u8], between: &str, out: &mut String) -> Result<(), Stopped>
    requires { CanBeRead line.now }
{
    let item = line_shown(alloc, line)?;
    push_item(out, between, item.as_str())
}

fn line_shown(alloc: Global, line: &[u8]) -> Result<String, Stopped>
    requires { CanBeRead line.now }
{
    if line.is_empty() {
        return Ok(String::from_str(alloc, "-")?);
    }
    match RawLine::read(line) {
        Ok(line) => accepted_shown(alloc, &line),
        Err(fault) => Ok(format!(in alloc; "{fault}")?),
    }
}

fn accepted_shown(alloc: Global, line: &RawLine<'_>) -> Result<String, Stopped> {
    let mut out = format!(in alloc; "{}@{}", line.name(), line.start())?;
    if line.start() != line.time() {
        write!(out, "-{}", line.time())?;
    }
    for (key, value) in line.pairs() {
        write!(out, " {key}={value}")?;
    }
    Ok(out)
}

/// How many bytes of a piece are used by its first line, and that line.
pub fn taken_answer(alloc: Global, piece: &str) -> Result<String, Stopped> {
    let mut liner = Liner::new(alloc);
    let taken = match liner.next_line(piece.as_bytes()) {
        Ok(taken) => taken,
        Err(fault) => return Ok(format!(in alloc; "{fault}")?),
    };
    let used = taken.used;
    let Some(line) = taken.line else {
        return Ok(format!(in alloc; "{used}, no line")?);
    };
    let line = line_shown(alloc, line)?;
    Ok(format!(in alloc; "{used}, {line}")?)
}

/// How many bytes the first line has that comes in pieces of a size, `long` where it is too long, and
/// `none` where there is none.
pub fn length_answer(alloc: Global, size: usize, bytes: &[u8]) -> Result<String, Stopped> {
    let mut liner = Liner::new(alloc);
    for piece in bytes.chunks(size.max(1)) {
        match liner.next_line(piece) {
            Ok(taken) => {
                if let Some(line) = taken.line {
                    return Ok(format!(in alloc; "{}", line.len())?);
                }
            }
            Err(CutFault::Long) => return long_shown(alloc, &mut liner),
            Err(CutFault::NoMemory) => return Err(Stopped(Wrong::NoMemory)),
        }
    }
    match liner.last() {
        Some(line) => Ok(format!(in alloc; "{}", line.len())?),
        None => Ok(String::from_str(alloc, "none")?),
    }
}

// `long` where the next line is too long too, and nothing was kept.
fn long_shown(alloc: Global, liner: &mut Liner) -> Result<String, Stopped> {
    let keeps = liner.last().is_some();
    let stays = matches!(liner.next_line(b"a\n"), Err(CutFault::Long));
    let word = if stays && !keeps {
        "long"
    } else {
        "long at first"
    };
    Ok(String::from_str(alloc, word)?)
}

/// The row that a line gives a name of a plan, or the fault of the line.
pub fn row_answer(alloc: Global, plan: &Plan, name: &str, text: &str) -> Result<String, Stopped> {
    let name = plan.find(name).ok_or(FORM)?;
    let text = format!(in alloc; "{text}\n")?;
    let mut liner = Liner::new(alloc);
    match liner.next_line(text.as_bytes()) {
        Ok(taken) => match taken.line {
            Some(line) => row_shown(alloc, plan, name, line),
            None => Err(FORM),
        },
        Err(fault) => Ok(format!(in alloc; "{fault}")?),
    }
}

fn row_shown(alloc: Global, plan: &Plan, name: u32, line: &[u8]) -> Result<String, Stopped>
    requires name { name < length plan.now.names }
    requires line { CanBeRead line.now }
{
    if line.is_empty() {
        return Err(FORM);
    }
    match RawLine::read(line) {
        Ok(line) => cells_shown(alloc, plan, name, &line.row(alloc, plan, name)?),
        Err(fault) => Ok(format!(in alloc; "{fault}")?),
    }
}

// A name with the cells of a row of it that aren't missing.
fn cells_shown(alloc: Global, plan: &Plan, name: u32, row: &Row) -> Result<String, Stopped>
    requires { name < length plan.now.names }
{
    let mut out = String::from_str(alloc, plan.name(name))?;
    for place in 0..plan.keys(name) {
        push_cell(&mut out, row, place as usize, plan.key(name, place))?;
    }
    Ok(out)
}
