//! The calls that a run makes, and what must come where one of them fails.
//!
//! A command but `drill`, which names no file, picks its files in the order of its words, and reads each to its
//! end before the next: the files of the specification, and then the trace: `-` under `follow`, the file of the last word under
//! `infer`. A file is read by calls of at most so many bytes, until one gives none. Refused words make
//! no call, a refused specification is read whole and no trace is, and a refused trace is read up to
//! the end of the refused line; a file that isn't there is the last one that is picked.
//!
//! - Where a call of the shelf fails, the status is 4, the message names the file word, and written is
//!   what the trace lines announce that ended in the bytes read; under `infer` that is nothing.
//! - Where a call of the output fails, the status is 5, and written are the bytes of the calls before it.
//!   The announcements of a line, what `check` and `drill` print and what `infer` shows are written by calls of at
//!   most so many bytes.
//! - Where a call of the message fails, which takes one byte a call here, nothing else changes.
//!
//! Not told here: a specification that is too long, and a trace line that is.

use crate::trials::{File, Trial};
use nf_cases::whole_number;
use std::alloc::{AllocError, Global};

// The most bytes that one read asks for.
const PIECE: usize = 65_536;

/// A call of the shelf: the file that it picks or reads, whether its lines are announced, and how many
/// bytes of it were read before.
#[derive(Debug, Clone, Copy)]
pub(crate) struct ReadCall<'a> {
    pub file: &'a File,
    pub is_followed: bool,
    pub read: usize,
}

/// The calls of the shelf of a run in which none fails, in their order, with so many bytes a call.
pub(crate) fn read_calls<'a>(
    alloc: Global,
    trial: &'a Trial,
    most: usize,
) -> Result<Vec<ReadCall<'a>>, AllocError> {
    let mut calls = Vec::new(alloc);
    if trial.status == 1 || is_command(trial.words.as_slice(), "drill") {
        return Ok(calls);
    }
    let words = specification_words(alloc, trial.words.as_slice())?;
    for word in &words {
        let Some(file) = file_named(trial, word) else {
            return Ok(calls);
        };
        add_calls(&mut calls, file, false, None, most)?;
    }
    if let Some(file) = trace_of(trial) {
        let is_followed = is_command(trial.words.as_slice(), "follow");
        add_calls(&mut calls, file, is_followed, refused_line(trial), most)?;
    }
    Ok(calls)
}

// Whether the first word is a command.
fn is_command(words: &[String], command: &str) -> bool {
    match words.first() {
        Some(word) => word.as_str() == command,
        None => false,
    }
}

// The file words of a specification: those behind the command and its options, without the last word
// of `infer`, which is the trace.
fn specification_words<'a>(alloc: Global, words: &'a [String]) -> Result<Vec<&'a str>, AllocError> {
    let mut files = Vec::new(alloc);
    let mut is_name = false;
    let end = if is_command(words, "infer") {
        words.len().saturating_sub(1)
    } else {
        words.len()
    };
    for word in words.iter().take(end).skip(1) {
        if is_name || word.as_str().starts_with('-') {
            is_name = word.as_str() == "--module";
        } else {
            files.push(word.as_str())?;
        }
    }
    Ok(files)
}

fn file_named<'a>(trial: &'a Trial, name: &str) -> Option<&'a File> {
    trial.files.iter().find(|file| file.name.as_str() == name)
}

// The trace of a run: none where it runs another command or the specification is refused.
fn trace_of(trial: &Trial) -> Option<&File> {
    let words = trial.words.as_slice();
    if trial.status == 2 {
        return None;
    }
    if is_command(words, "follow") {
        return file_named(trial, "-");
    }
    if is_command(words, "infer") {
        return file_named(trial, words.last()?.as_str());
    }
    None
}

// The number of the trace line that is refused, as the message tells it.
fn refused_line(trial: &Trial) -> Option<u64> {
    if trial.status != 3 {
        return None;
    }
    let message = str::from_utf8(trial.message.as_slice()).ok()?;
    let (line, _) = message.strip_prefix("nfer: line ")?.split_once(':')?;
    whole_number(line)
}

// Adds the pick of a file, and its reads to its end or, where a line is refused, up to that line's end.
fn add_calls<'a>(
    calls: &mut Vec<ReadCall<'a>>,
    file: &'a File,
    is_followed: bool,
    refused: Option<u64>,
    most: usize,
) -> Result<(), AllocError> {
    let bytes = file.bytes.as_slice();
    let end = refused.and_then(|line| end_of_line(bytes, line));
    let mut call = ReadCall {
        file,
        is_followed,
        read: 0,
    };
    calls.push(call)?;
    let part = bytes.get(..end.unwrap_or(bytes.len())).unwrap_or(bytes);
    for piece in part.chunks(most.min(PIECE).max(1)) {
        calls.push(call)?;
        call.read = call.read.saturating_add(piece.len());
    }
    if end.is_none() {
        calls.push(call)?;
    }
    Ok(())
}

// How many bytes there are up to the end of a line, with its LF. None where it doesn't end by one.
fn end_of_line(bytes: &[u8], line: u64) -> Option<usize> {
    let mut ended = 0u64;
    let mut read = 0usize;
    for byte in bytes {
        read = read.saturating_add(1);
        if *byte == b'\n' {
            ended = ended.saturating_add(1);
            if ended == line {
                return Some(read);
            }
        }
    }
    None
}

/// What is written where this call of the shelf fails: what the lines of a trace announce that ended in
/// the bytes read before.
pub(crate) fn written_before_read(
    alloc: Global,
    trial: &Trial,
    call: &ReadCall<'_>,
) -> Result<Vec<u8>, AllocError> {
    if !call.is_followed {
        return Ok(Vec::new(alloc));
    }
    let bytes = call.file.bytes.as_slice();
    let read = bytes.get(..call.read).unwrap_or(bytes);
    let ended = read.iter().filter(|byte| **byte == b'\n').count();
    announced(alloc, trial, ended as u64)
}

// What the lines of a trace announce, up to one.
fn announced(alloc: Global, trial: &Trial, line: u64) -> Result<Vec<u8>, AllocError> {
    let mut text = Vec::new(alloc);
    for piece in &trial.pieces {
        if 0 < piece.line && piece.line <= line {
            text.extend_from_slice(piece.text.as_slice())?;
        }
    }
    Ok(text)
}

/// How many bytes the output took before each of its calls, in their order, with so many bytes a call.
pub(crate) fn write_calls(
    alloc: Global,
    trial: &Trial,
    most: usize,
) -> Result<Vec<usize>, AllocError> {
    let mut calls = Vec::new(alloc);
    let mut taken = 0usize;
    for piece in &trial.pieces {
        for part in piece.text.chunks(most.max(1)) {
            calls.push(taken)?;
            taken = taken.saturating_add(part.len());
        }
    }
    Ok(calls)
}
