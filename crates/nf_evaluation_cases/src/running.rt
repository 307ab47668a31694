//! Running one case.

use crate::answers::{answers, lines_answer};
use crate::given::Given;
use crate::stopped::{FORM, Stopped};
use nf_cases::{BadTable, Case, Directive, Report, Wrong, compare, rows_of, text_of};
use std::alloc::Global;

/// Takes the directives of a case in order, and counts each row in the report.
///
/// Answers the first directive that isn't in its form.
pub fn run_case(rt: &HostRuntime, case: &Case, report: &mut Report) -> Result<(), BadTable> {
    let mut given = Given::new(rt.alloc());
    for directive in case.directives.iter() {
        enter(rt, case, directive, &mut given, report).map_err(|stopped| BadTable {
            line: directive.line,
            wrong: stopped.0,
        })?;
    }
    Ok(())
}

// Takes one directive.
fn enter<'a>(
    rt: &HostRuntime,
    case: &Case,
    directive: &'a Directive,
    given: &mut Given<'a>,
    report: &mut Report,
) -> Result<(), Stopped> {
    match directive.word.as_str() {
        "each" => run_rows(rt, case, directive, given, report),
        "lines" => run_lines(rt.alloc(), case, directive, given, report),
        _ if given.take(directive)? => Ok(()),
        _ => Err(Stopped(Wrong::Unknown)),
    }
}

// The lines of the bytes that were given.
fn run_lines(
    alloc: Global,
    case: &Case,
    directive: &Directive,
    given: &Given<'_>,
    report: &mut Report,
) -> Result<(), Stopped> {
    let found = lines_answer(alloc, given.bytes, "\n")?;
    let text = text_of(directive)?;
    let wanted = text.strip_suffix("\n").unwrap_or(text);
    compare(alloc, report, case, "lines", wanted, found.as_str())?;
    Ok(())
}

// Asks all rows, and compares what comes.
fn run_rows(
    rt: &HostRuntime,
    case: &Case,
    directive: &Directive,
    given: &Given<'_>,
    report: &mut Report,
) -> Result<(), Stopped> {
    let alloc = rt.alloc();
    let rows = rows_of(alloc, directive, given.within.as_slice())?;
    let asked: Vec<&str> = rows.iter().map(|row| row.asked.as_str()).collect(alloc)?;
    let found = answers(rt, directive.rest.as_str(), given, asked.as_slice())?;
    if found.len() != rows.len() {
        return Err(FORM);
    }
    for (row, answer) in rows.iter().zip(found.iter()) {
        let (asked, wanted) = (row.asked.as_str(), row.wanted.as_str());
        compare(alloc, report, case, asked, wanted, answer.as_str())?;
    }
    Ok(())
}
