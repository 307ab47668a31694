//! A table: what is printed for it.

use crate::contents::trial_of;
use crate::runs::run_case;
use nf_cases::{BadTable, Case, Report, Wrong, difference, read_table};
use nf_core::NoMemory;
use std::alloc::Global;

/// The report of a table, after all its runs.
///
/// Answers the first line in no form, or want of memory.
pub(crate) fn report_of(alloc: Global, bytes: &[u8]) -> Result<Report, BadTable> {
    let cases = read_table(alloc, bytes)?;
    let mut report = Report::new(alloc);
    for case in &cases {
        if has_table(case) {
            count_table(alloc, case, &mut report)?;
        } else {
            count_runs(alloc, case, &mut report)?;
        }
    }
    Ok(report)
}

// The report of a table that has no table within it.
fn inner_report(alloc: Global, bytes: &[u8]) -> Result<Report, BadTable> {
    let cases = read_table(alloc, bytes)?;
    let mut report = Report::new(alloc);
    for case in &cases {
        count_runs(alloc, case, &mut report)?;
    }
    Ok(report)
}

fn has_table(case: &Case) -> bool {
    let mut directives = case.directives.iter();
    directives.any(|directive| directive.is("table"))
}

// Counts the runs of a case.
fn count_runs(alloc: Global, case: &Case, report: &mut Report) -> Result<(), BadTable> {
    let trial = trial_of(alloc, case)?;
    run_case(alloc, case, &trial, report).map_err(|_| no_memory(case))
}

// Counts a case with a table within the table, and what must be printed for it.
fn count_table(alloc: Global, case: &Case, report: &mut Report) -> Result<(), BadTable> {
    let mut table: &[u8] = &[];
    let mut expected: &[u8] = &[];
    for directive in &case.directives {
        match directive.word.as_str() {
            "table" => table = directive.text.as_slice(),
            "report" => expected = directive.text.as_slice(),
            _ => {
                return Err(BadTable {
                    line: directive.line,
                    wrong: Wrong::Unknown,
                });
            }
        }
    }
    count_printed(alloc, case, table, expected, report).map_err(|_| no_memory(case))
}

// Counts whether what is printed for a table is as expected.
fn count_printed(
    alloc: Global,
    case: &Case,
    table: &[u8],
    expected: &[u8],
    report: &mut Report,
) -> Result<(), NoMemory> {
    let found = match inner_report(alloc, table) {
        Ok(report) => format!(in alloc; "{report}\n")?,
        Err(bad) => format!(in alloc; "{bad}\n")?,
    };
    match difference(alloc, "report", expected, found.as_bytes())? {
        None => report.count(case, None)?,
        Some(differs) => report.count(case, Some(differs.as_str()))?,
    }
    Ok(())
}

fn no_memory(case: &Case) -> BadTable {
    BadTable {
        line: case.line,
        wrong: Wrong::NoMemory,
    }
}
