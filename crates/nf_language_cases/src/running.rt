//! Running one case.

use crate::checks::{Check, answer};
use crate::given::Given;
use nf_cases::{
    BadTable, Case, Directive, Report, Row, Wrong, compare, lines_of, rows_of, text_of,
};
use nf_core::NoMemory;
use std::alloc::Global;

/// Takes the directives of a case in order, and counts each check in the report.
///
/// Answers the first directive that isn't in its form.
pub fn run_case(alloc: Global, case: &Case, report: &mut Report) -> Result<(), BadTable> {
    let mut given = Given::new(alloc);
    for directive in case.directives.iter() {
        enter(alloc, case, directive, &mut given, report).map_err(|wrong| BadTable {
            line: directive.line,
            wrong,
        })?;
    }
    Ok(())
}

// Takes one directive.
fn enter<'a>(
    alloc: Global,
    case: &Case,
    directive: &'a Directive,
    given: &mut Given<'a>,
    report: &mut Report,
) -> Result<(), Wrong> {
    match directive.word.as_str() {
        "source" => given.sources.push(directive.text.as_slice())?,
        "root" => given.root = Some(directive.rest.as_str()),
        "within" => given.within = lines_of(directive)?,
        "each" => run_rows(alloc, case, directive, given, report)?,
        _ => run_check(alloc, case, directive, given, report)?,
    }
    Ok(())
}

// One check of the sources that were given.
fn run_check(
    alloc: Global,
    case: &Case,
    directive: &Directive,
    given: &Given<'_>,
    report: &mut Report,
) -> Result<(), Wrong> {
    let word = directive.word.as_str();
    let check = Check::of(word).ok_or(Wrong::Unknown)?;
    let found = answer(alloc, check, given, "\n").map_err(no_memory)?;
    let text = text_of(directive)?;
    let wanted = text.strip_suffix("\n").unwrap_or(text);
    compare(alloc, report, case, word, wanted, found.as_str())?;
    Ok(())
}

// A check of each row.
fn run_rows(
    alloc: Global,
    case: &Case,
    directive: &Directive,
    given: &Given<'_>,
    report: &mut Report,
) -> Result<(), Wrong> {
    let check = Check::of(directive.rest.as_str()).ok_or(Wrong::Unknown)?;
    let rows = rows_of(alloc, directive, given.within.as_slice())?;
    for row in rows.iter() {
        let found = row_answer(alloc, check, row, given.root)?;
        let (asked, wanted) = (row.asked.as_str(), row.wanted.as_str());
        compare(alloc, report, case, asked, wanted, found.as_str())?;
    }
    Ok(())
}

// What a check shows of the sources of a row.
fn row_answer(alloc: Global, check: Check, row: &Row, root: Option<&str>) -> Result<String, Wrong> {
    let given = Given::of_text(alloc, row.asked.as_str(), root)?;
    answer(alloc, check, &given, ", ").map_err(no_memory)
}

// Want of memory, as it is told of a table.
fn no_memory(_error: NoMemory) -> Wrong {
    Wrong::NoMemory
}
