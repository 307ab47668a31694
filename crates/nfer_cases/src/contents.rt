//! The directives of a case.

use crate::trials::{Each, Failing, File, Party, Piece, Trial};
use nf_cases::{BadTable, Case, Directive, Wrong, whole_number};
use std::alloc::{AllocError, Global};

/// What a case says of its runs.
///
/// Answers the first directive that is in no form, or want of memory.
pub(crate) fn trial_of(alloc: Global, case: &Case) -> Result<Trial, BadTable> {
    let mut trial = Trial {
        words: Vec::new(alloc),
        files: Vec::new(alloc),
        read: None,
        write: None,
        fails: Vec::new(alloc),
        status: 0,
        pieces: Vec::new(alloc),
        message: Vec::new(alloc),
        each: Vec::new(alloc),
    };
    for directive in &case.directives {
        let entered = enter(alloc, &mut trial, case, directive);
        entered.map_err(|wrong| BadTable {
            line: directive.line,
            wrong,
        })?;
    }
    Ok(trial)
}

// Enters what a directive says.
fn enter(
    alloc: Global,
    trial: &mut Trial,
    case: &Case,
    directive: &Directive,
) -> Result<(), Wrong> {
    check_form(case, directive)?;
    match directive.word.as_str() {
        "words" | "read" | "write" | "fail" | "status" => enter_rest(alloc, trial, directive),
        "word" | "file" | "trace" | "output" | "line" | "message" | "each" => {
            enter_text(alloc, trial, directive)
        }
        _ => Err(Wrong::Unknown),
    }
}

// Refuses what stands once and is there again, and a text where there can be none.
fn check_form(case: &Case, directive: &Directive) -> Result<(), Wrong> {
    match directive.word.as_str() {
        "words" | "read" | "write" | "status" | "message" if stands_again(case, directive) => {
            Err(Wrong::Twice)
        }
        "words" | "read" | "write" | "fail" | "status" if !directive.text.is_empty() => {
            Err(Wrong::Form)
        }
        _ => Ok(()),
    }
}

// Whether an earlier directive of the case has the same word.
fn stands_again(case: &Case, directive: &Directive) -> bool {
    let mut earlier = case.directives.iter();
    earlier.any(|other| other.line < directive.line && other.is(directive.word.as_str()))
}

// Enters a directive that has no text.
fn enter_rest(alloc: Global, trial: &mut Trial, directive: &Directive) -> Result<(), Wrong> {
    let rest = directive.rest.as_str();
    match directive.word.as_str() {
        "words" => add_words(alloc, &mut trial.words, rest)?,
        "read" => trial.read = Some(size_of_call(rest)?),
        "write" => trial.write = Some(size_of_call(rest)?),
        "fail" => trial.fails.push(failing_of(rest)?)?,
        _ => trial.status = whole_number(rest).ok_or(Wrong::Form)?,
    }
    Ok(())
}

// Enters a directive that has a text.
fn enter_text(alloc: Global, trial: &mut Trial, directive: &Directive) -> Result<(), Wrong> {
    let rest = directive.rest.as_str();
    let text = directive.text.as_slice();
    match directive.word.as_str() {
        "word" => trial.words.push(word_of(alloc, rest, text)?)?,
        "file" => add_file(alloc, &mut trial.files, rest, Vec::from_slice(alloc, text)?)?,
        "trace" => add_file(alloc, &mut trial.files, "-", lines_of(alloc, rest, text)?)?,
        "output" => trial.pieces.push(Piece {
            line: 0,
            text: lines_of(alloc, rest, text)?,
        })?,
        "line" => trial.pieces.push(Piece {
            line: positive(rest)?,
            text: Vec::from_slice(alloc, text)?,
        })?,
        "message" => trial.message = lines_of(alloc, rest, text)?,
        _ => trial.each.push(each_of(alloc, rest, text)?)?,
    }
    Ok(())
}

// A word that its directive gives, with the text below it.
fn word_of(alloc: Global, rest: &str, text: &[u8]) -> Result<String, Wrong> {
    let mut word = String::from_str(alloc, rest)?;
    word.push_str(str::from_utf8(text).map_err(|_| Wrong::NotText)?)?;
    Ok(word)
}

// A text whose first line may stand in its directive.
fn lines_of(alloc: Global, line: &str, text: &[u8]) -> Result<Vec<u8>, AllocError> {
    let mut lines = Vec::from_slice(alloc, line.as_bytes())?;
    if !line.is_empty() {
        lines.push(b'\n')?;
    }
    lines.extend_from_slice(text)?;
    Ok(lines)
}

fn add_file(alloc: Global, files: &mut Vec<File>, name: &str, bytes: Vec<u8>) -> Result<(), Wrong> {
    if files.iter().any(|file| file.name.as_str() == name) {
        return Err(Wrong::Twice);
    }
    let name = String::from_str(alloc, name)?;
    files.push(File { name, bytes })?;
    Ok(())
}

/// Adds the words of a line, parted by single spaces; an empty line has none.
pub(crate) fn add_words(
    alloc: Global,
    words: &mut Vec<String>,
    line: &str,
) -> Result<(), AllocError> {
    if line.is_empty() {
        return Ok(());
    }
    for word in line.split(' ') {
        words.push(String::from_str(alloc, word)?)?;
    }
    Ok(())
}

fn failing_of(rest: &str) -> Result<Failing, Wrong> {
    let (party, call) = rest.split_once(' ').ok_or(Wrong::Form)?;
    let party = match party {
        "read" => Party::Shelf,
        "write" => Party::Output,
        "message" => Party::Message,
        _ => return Err(Wrong::Form),
    };
    let call = positive(call)?;
    Ok(Failing { party, call })
}

fn each_of(alloc: Global, rest: &str, text: &[u8]) -> Result<Each, Wrong> {
    if rest == "words" && !text.is_empty() {
        return Ok(Each::Words(word_of(alloc, "", text)?));
    }
    if !text.is_empty() {
        return Err(Wrong::Form);
    }
    if rest == "fault" {
        return Ok(Each::Fault);
    }
    let (party, sizes) = rest.split_once(' ').ok_or(Wrong::Form)?;
    let (first, last) = range_of(sizes)?;
    match party {
        "read" => Ok(Each::Sizes(Party::Shelf, first, last)),
        "write" => Ok(Each::Sizes(Party::Output, first, last)),
        _ => Err(Wrong::Form),
    }
}

// The numbers from one to another, of which there is one at least.
fn range_of(rest: &str) -> Result<(usize, usize), Wrong> {
    let (first, last) = rest.split_once(" to ").ok_or(Wrong::Form)?;
    let (first, last) = (size_of_call(first)?, size_of_call(last)?);
    if first > last {
        return Err(Wrong::Form);
    }
    Ok((first, last))
}

// How many bytes a call moves.
fn size_of_call(rest: &str) -> Result<usize, Wrong> {
    usize::try_from(positive(rest)?).map_err(|_| Wrong::Form)
}

// A number from 1 on.
fn positive(rest: &str) -> Result<u64, Wrong> {
    match whole_number(rest) {
        None | Some(0) => Err(Wrong::Form),
        Some(number) => Ok(number),
    }
}
