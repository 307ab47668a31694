//! The program of cases of the evaluation: texts, the outside, lines, relations, expressions, results,
//! the slow evaluator, announcements and sessions, by a table on standard input.
//!
//! A case gives what calls are made over, and rows `ASKED => WANTED` of what is asked and must come.
//!
//! | directive | what it says |
//! |---|---|
//! | `file NAME` and a text | a file of a shelf; the last one of a name counts |
//! | `most N`, `room N`, `fails 3 5` | at most N bytes a call, the room of a sink's buffer, the calls that fail |
//! | `rules` and a text | a specification, whose plan is meant |
//! | `wide` | in its place the plan of `|1 :- a before b` and `w :- |1`, which no text gives |
//! | `full` | every candidate is held |
//! | `first I`, `second I` | the members of an expression |
//! | `within` and lines | what `each` tries, with `@` for what a row asks |
//! | `each WORD ..` and rows | what must come of each row; answers.rt says what can be asked |
//! | `bytes` and a text, `lines` and a text | what lines the bytes are, on any cutting |
//!
//! An interval is its begin and its end, `3..5`, or `3` for both, and then its cells, `k=7 j=true`. It
//! prints a line for each row that differs and the count. The status is 0 exactly where the table is
//! good and none differs.
#![tactic(auto)]

mod announcing;
mod answers;
mod building;
mod collections;
mod events;
mod expressions;
mod faults;
mod following;
mod given;
mod intervals;
mod lines;
mod outside;
mod real;
mod relations;
mod running;
mod stopped;
mod texts;
mod wide;

use nf_cases::{BadTable, Report, read_table, tell};
use running::run_case;
use std::io;
use std::io::Read;
use std::process::ExitCode;

fn main(rt: HostRuntime) -> io::Result<ExitCode> {
    let mut table = Vec::new(rt.alloc());
    rt.reader().read_to_end(&mut table)?;
    let status = tell(&rt, report_of(&rt, table.as_slice()))?;
    Ok(ExitCode::from(status))
}

// What the cases of a table give.
fn report_of(rt: &HostRuntime, table: &[u8]) -> Result<Report, BadTable> {
    let cases = read_table(rt.alloc(), table)?;
    let mut report = Report::new(rt.alloc());
    for case in cases.iter() {
        run_case(rt, case, &mut report)?;
    }
    Ok(report)
}
