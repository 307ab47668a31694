//! Running one case.

use crate::seeds::agrees;
use crate::stopped::Stopped;
use crate::visits::{most_beside_all, most_beside_flat, most_beside_nested};
use nf_cases::{BadTable, Case, Directive, Report};
use std::alloc::Global;

/// Takes the directives of a case in order, and counts each run in the report.
///
/// Answers the first directive that isn't in its form.
pub fn run_case(alloc: Global, case: &Case, report: &mut Report) -> Result<(), BadTable> {
    for directive in case.directives.iter() {
        enter(alloc, case, directive, report).map_err(|stopped| BadTable {
            line: directive.line,
            wrong: stopped.wrong(),
        })?;
    }
    Ok(())
}

// Takes one directive that asks.
fn enter(
    alloc: Global,
    case: &Case,
    directive: &Directive,
    report: &mut Report,
) -> Result<(), Stopped> {
    let (one, other) = two_numbers(directive)?;
    match directive.word.as_str() {
        "flat" | "nested" | "beside" => run_visits(alloc, case, directive, one, other, report),
        "engine" => run_seeds(alloc, case, one, other, report),
        _ => Err(Stopped::Form),
    }
}

// Compares what walks of a store look at besides with what is allowed, or with what has to be passed.
fn run_visits(
    alloc: Global,
    case: &Case,
    directive: &Directive,
    count: u32,
    bound: u32,
    report: &mut Report,
) -> Result<(), Stopped> {
    let bound = u64::from(bound);
    let (found, good) = match directive.word.as_str() {
        "flat" => at_most(most_beside_flat(alloc, count)?, bound),
        "nested" => at_most(most_beside_nested(alloc, count)?, bound),
        _ => more_than(most_beside_all(alloc, count)?, bound),
    };
    count_visits(alloc, case, directive, found, good, report)
}

fn at_most(found: u64, bound: u64) -> (u64, bool) {
    (found, found <= bound)
}

fn more_than(found: u64, bound: u64) -> (u64, bool) {
    (found, found > bound)
}

// Counts the run of a store.
fn count_visits(
    alloc: Global,
    case: &Case,
    directive: &Directive,
    found: u64,
    good: bool,
    report: &mut Report,
) -> Result<(), Stopped> {
    if good {
        report.count(case, None)?;
        return Ok(());
    }
    let (word, rest) = (directive.word.as_str(), directive.rest.as_str());
    let text = format!(in alloc; "{word} {rest}: {found} were looked at besides")?;
    report.count(case, Some(text.as_str()))?;
    Ok(())
}

// Compares the engine with the slow evaluator for each seed from one number to another.
fn run_seeds(
    alloc: Global,
    case: &Case,
    from: u32,
    to: u32,
    report: &mut Report,
) -> Result<(), Stopped> {
    for seed in from..=to {
        run_seed(alloc, case, seed, report)?;
    }
    Ok(())
}

fn run_seed(alloc: Global, case: &Case, seed: u32, report: &mut Report) -> Result<(), Stopped> {
    if agrees(alloc, seed)? {
        report.count(case, None)?;
        return Ok(());
    }
    let text = format!(in alloc; "engine: seed {seed} differs")?;
    report.count(case, Some(text.as_str()))?;
    Ok(())
}

// The two numbers that a directive has.
fn two_numbers(directive: &Directive) -> Result<(u32, u32), Stopped> {
    let (one, other) = directive
        .rest
        .as_str()
        .split_once(' ')
        .ok_or(Stopped::Form)?;
    Ok((number_of(one)?, number_of(other)?))
}

fn number_of(word: &str) -> Result<u32, Stopped> {
    word.parse::<u32>().map_err(|_| Stopped::Form)
}
