//! Running one case.

use crate::answers::answer;
use crate::given::Given;
use crate::rows::rows_within;
use nf_cases::{BadTable, Case, Directive, Report, Wrong, compare, lines_of, shown};
use nf_core::NoMemory;
use std::alloc::Global;

/// Takes the directives of a case in order, and counts each text that is read in the report.
///
/// Answers the first directive that isn't in its form.
pub fn run_case<'a>(
    alloc: Global,
    case: &'a Case,
    given: &mut Given<'a>,
    report: &mut Report,
) -> Result<(), BadTable> {
    given.begin();
    for directive in case.directives.iter() {
        enter(alloc, case, directive, given, report).map_err(|wrong| BadTable {
            line: directive.line,
            wrong,
        })?;
    }
    Ok(())
}

// Takes one directive.
fn enter<'a>(
    alloc: Global,
    case: &Case,
    directive: &'a Directive,
    given: &mut Given<'a>,
    report: &mut Report,
) -> Result<(), Wrong> {
    match directive.word.as_str() {
        "text" => given.give_text(directive),
        "source" => given.give_source(directive),
        "line" => given.give_line(directive, directive.text.as_slice()),
        "first" => given.give_first(directive, directive.text.as_slice()),
        "within" => give_within(directive, given),
        "shows" => given.give_shown(directive),
        "read" => run_read(alloc, case, directive, given, report),
        "lines" => run_lines(alloc, case, directive, given, report),
        "ends" => run_ends(alloc, case, directive, given, report),
        _ => Err(Wrong::Unknown),
    }
}

// The lines of a directive are what the rows below stand within.
fn give_within<'a>(directive: &'a Directive, given: &mut Given<'a>) -> Result<(), Wrong> {
    given.within = lines_of(directive)?;
    Ok(())
}

// Reads what was given.
fn run_read(
    alloc: Global,
    case: &Case,
    directive: &Directive,
    given: &Given<'_>,
    report: &mut Report,
) -> Result<(), Wrong> {
    let asked = format!(in alloc; "read at line {}", directive.line)?;
    let wanted = directive.rest.as_str();
    compare_read(alloc, case, asked.as_str(), wanted, given, report)
}

// Reads the last text once for each row, which stands in place of a line of it.
fn run_lines(
    alloc: Global,
    case: &Case,
    directive: &Directive,
    given: &mut Given<'_>,
    report: &mut Report,
) -> Result<(), Wrong> {
    let rows = rows_within(alloc, directive, given.within.as_slice())?;
    for row in rows.iter() {
        let line = format!(in alloc; "{}\n", row.asked.as_str())?;
        given.give_line(directive, line.as_bytes())?;
        let asked = shown(alloc, row.asked.as_bytes())?;
        compare_read(
            alloc,
            case,
            asked.as_str(),
            row.wanted.as_str(),
            given,
            report,
        )?;
    }
    Ok(())
}

// Reads the first lines of the last text once for each row, which stands behind them and ends the text.
fn run_ends(
    alloc: Global,
    case: &Case,
    directive: &Directive,
    given: &mut Given<'_>,
    report: &mut Report,
) -> Result<(), Wrong> {
    let rows = rows_within(alloc, directive, given.within.as_slice())?;
    for row in rows.iter() {
        given.give_first(directive, row.asked.as_bytes())?;
        let asked = shown(alloc, row.asked.as_bytes())?;
        compare_read(
            alloc,
            case,
            asked.as_str(),
            row.wanted.as_str(),
            given,
            report,
        )?;
    }
    Ok(())
}

// Counts in a report what must come of reading what was given, and what came.
fn compare_read(
    alloc: Global,
    case: &Case,
    asked: &str,
    wanted: &str,
    given: &Given<'_>,
    report: &mut Report,
) -> Result<(), Wrong> {
    let found = answer(alloc, given.source.as_slice(), given.shown).map_err(no_memory)?;
    compare(alloc, report, case, asked, wanted, found.as_str())?;
    Ok(())
}

// Want of memory, as it is told of a table.
fn no_memory(_error: NoMemory) -> Wrong {
    Wrong::NoMemory
}
