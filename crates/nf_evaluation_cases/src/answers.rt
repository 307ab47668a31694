//! What can be asked by rows.

use crate::announcing::{announced_answer, printed_answer};
use crate::collections::{call_answers, order_answer};
use crate::events::step_answers;
use crate::expressions::value_answer;
use crate::faults::fault_answer;
use crate::following::{Job, job_answer};
use crate::given::{Given, number_of};
pub use crate::lines::lines_answer;
use crate::lines::{length_answer, row_answer, taken_answer};
use crate::outside::{mem_shelf_answers, mem_sink_answers, sure_shelf_answers, sure_sink_answers};
use crate::real::real_answers;
use crate::relations::relation_answer;
use crate::stopped::Stopped;
use crate::texts::{fields_answer, slice_answer, spelled_answer, time_answer, walk_answer};
use nf_cases::Wrong;
use nf_core::{IntervalList, IntervalSet, Levels, Lines, Row};
use std::alloc::Global;

/// What comes of each row, by what is asked:
///
/// - one row after the other: `step` (events, what the heads lose and gain, and what a rule builds),
///   `shelf`, `sure shelf`, `sink`, `sure sink`, `real` (calls of the outside), `set`, `list`, `cells`,
///   `levels`, `text` (calls of collections);
/// - each row by itself: `time`, `value`, `fields MARK`, `slice FROM TO`, `walk` (texts), `lines`,
///   `taken`, `length N`, `row NAME` (lines), `relation`, `order` (two intervals), `eval` (an
///   expression over the members), `printed` (a fault), `print` (items as announcement lines), `read` (a
///   line that may announce), `fed`, `fed NAME`, `finished` (pieces of a trace), `session` (a whole one).
pub fn answers(
    rt: &HostRuntime,
    asked: &str,
    given: &Given<'_>,
    rows: &[&str],
) -> Result<Vec<String>, Stopped> {
    let alloc = rt.alloc();
    match asked {
        "step" => step_answers(alloc, given, rows),
        "shelf" => mem_shelf_answers(alloc, given, rows),
        "sure shelf" => sure_shelf_answers(alloc, given, rows),
        "sink" => mem_sink_answers(alloc, given, rows),
        "sure sink" => sure_sink_answers(alloc, given, rows),
        "real" => real_answers(rt, rows),
        "set" => call_answers(alloc, IntervalSet::new(alloc), rows),
        "list" => call_answers(alloc, IntervalList::new(alloc), rows),
        "cells" => call_answers(alloc, Row::new(alloc), rows),
        "levels" => call_answers(alloc, Levels::new(alloc), rows),
        "text" => call_answers(alloc, Lines::new(alloc), rows),
        _ => each_answer(alloc, asked, given, rows),
    }
}

// What comes of rows that stand by themselves.
fn each_answer(
    alloc: Global,
    asked: &str,
    given: &Given<'_>,
    rows: &[&str],
) -> Result<Vec<String>, Stopped> {
    let (word, rest) = asked.split_once(' ').unwrap_or((asked, ""));
    let mut found = Vec::new(alloc);
    for row in rows {
        found.push(answer(alloc, word, rest, given, row)?)?;
    }
    Ok(found)
}

fn answer(
    alloc: Global,
    word: &str,
    rest: &str,
    given: &Given<'_>,
    row: &str,
) -> Result<String, Stopped> {
    match word {
        "time" => time_answer(alloc, row),
        "value" => spelled_answer(alloc, row),
        "fields" => fields_answer(alloc, rest, row),
        "slice" => slice_answer(alloc, rest, row),
        "walk" => walk_answer(alloc, row),
        "lines" => lines_answer(alloc, row.as_bytes(), ", "),
        "taken" => taken_answer(alloc, row),
        "length" => length_answer(alloc, number_of(rest)?, row.as_bytes()),
        "row" => row_answer(alloc, &given.plan(alloc)?, rest, row),
        "relation" => relation_answer(alloc, row),
        "order" => order_answer(alloc, row),
        "eval" => value_answer(alloc, given.first, given.second, row),
        "printed" => fault_answer(alloc, row),
        "print" => printed_answer(alloc, &given.plan(alloc)?, row),
        "read" => announced_answer(alloc, &given.plan(alloc)?, row.as_bytes()),
        "fed" => job_answer(alloc, given, Job::Feed { held: rest }, row),
        "finished" => job_answer(alloc, given, Job::Finish, row),
        "session" => job_answer(alloc, given, Job::Session, row),
        _ => Err(Stopped(Wrong::Unknown)),
    }
}

/// Adds an item to a text, behind what stands between items.
pub fn push_item(out: &mut String, between: &str, item: &str) -> Result<(), Stopped> {
    if !out.is_empty() {
        out.push_str(between)?;
    }
    out.push_str(item)?;
    Ok(())
}
