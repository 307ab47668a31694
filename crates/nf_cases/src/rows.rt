//! Rows: lines that have what is asked, and behind ` => ` what must come.

use crate::cases::{Case, Directive};
use crate::compared::difference;
use crate::report::Report;
use crate::wrong::Wrong;
use std::alloc::{AllocError, Global};

/// What a row asks, and what must come.
#[derive(Debug, Drop)]
pub struct Row {
    pub asked: String,
    pub wanted: String,
}

/// The text of a directive.
///
/// Answers NotText where it isn't UTF-8.
pub fn text_of(directive: &Directive) -> Result<&str, Wrong> {
    str::from_utf8(directive.text.as_slice()).map_err(|_| Wrong::NotText)
}

/// The lines of a directive's text.
pub fn lines_of(directive: &Directive) -> Result<Vec<&str>, Wrong> {
    let alloc = *directive.text.allocator();
    Ok(text_of(directive)?.lines().collect(alloc)?)
}

/// The rows of a directive, of which each has before the first ` => ` what is asked. Each is asked
/// within all that stands around it, in place of `@`, and as it is where nothing does.
///
/// Answers Form where a line is no row, and NotRepeated as `expanded` does.
pub fn rows_of(alloc: Global, directive: &Directive, around: &[&str]) -> Result<Vec<Row>, Wrong> {
    let mut rows = Vec::new(alloc);
    for line in lines_of(directive)? {
        let (asked, wanted) = line.split_once(" => ").ok_or(Wrong::Form)?;
        if around.is_empty() {
            rows.push(row_of(alloc, asked, wanted)?)?;
        }
        for text in around {
            let asked = text.replace(alloc, "@", asked)?;
            rows.push(row_of(alloc, asked.as_str(), wanted)?)?;
        }
    }
    Ok(rows)
}

fn row_of(alloc: Global, asked: &str, wanted: &str) -> Result<Row, Wrong> {
    Ok(Row {
        asked: expanded(alloc, asked)?,
        wanted: expanded(alloc, wanted)?,
    })
}

/// Counts in a report what was asked, what must come and what came, `nothing` where that is empty.
pub fn compare(
    alloc: Global,
    report: &mut Report,
    case: &Case,
    asked: &str,
    wanted: &str,
    found: &str,
) -> Result<(), AllocError> {
    let found = if found.is_empty() { "nothing" } else { found };
    let differs = difference(alloc, asked, wanted.as_bytes(), found.as_bytes())?;
    report.count(case, differs.as_ref().map(|text| text.as_str()))
}

/// The text that a row stands for: `⏎` is an LF, `␍` a CR, and `[64 x TEXT]` is TEXT 64 times.
///
/// Answers NotRepeated where between `[` and `]` stands something else.
pub fn expanded(alloc: Global, row: &str) -> Result<String, Wrong> {
    let mut text = String::new(alloc);
    for (place, part) in row.split('[').enumerate() {
        if place == 0 {
            push_marked(&mut text, part)?;
        } else {
            push_repeated(&mut text, part)?;
        }
    }
    Ok(text)
}

// Adds what stands behind a `[`.
fn push_repeated(text: &mut String, part: &str) -> Result<(), Wrong> {
    let (inner, behind) = part.split_once(']').ok_or(Wrong::NotRepeated)?;
    let (count, what) = inner.split_once(" x ").ok_or(Wrong::NotRepeated)?;
    let count = count.parse::<u32>().map_err(|_| Wrong::NotRepeated)?;
    for _ in 0..count {
        push_marked(text, what)?;
    }
    push_marked(text, behind)
}

// Adds a text with its marks for LF and CR.
fn push_marked(text: &mut String, part: &str) -> Result<(), Wrong> {
    for letter in part.chars() {
        match letter {
            '⏎' => text.push('\n')?,
            '␍' => text.push('\r')?,
            _ => text.push(letter)?,
        }
    }
    Ok(())
}
