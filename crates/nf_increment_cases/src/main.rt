//! The program of cases of what follows deltas: stores, and the engine, by a table on standard input.
//!
//! | directive | what it says |
//! |---|---|
//! | `flat N M`, `nested N M` | in a store of N made intervals, of which none lies inside another, or many do, a walk looks at no more than M intervals besides those that it hands out: over all relations, or over those that one order of the store decides |
//! | `beside N M` | in a store of N made intervals, of which many lie inside another, a walk over some relation looks at more than M besides |
//! | `engine A B` | for each seed from A to B: over a made specification, of rules of all operators over several levels, and made events, with equal times, intervals and repeats, the engine answers the change of the slow evaluator after each event, and every name holds the same. An odd seed holds every candidate |
//!
//! Each seed, and each walk, is one run. One that differs is a line; then comes the count. The status is
//! 0 exactly where the table is good and none differs.
#![tactic(auto)]

mod engines;
mod made_events;
mod made_rules;
mod plans;
mod random;
mod running;
mod seeds;
mod stopped;
mod visits;

use nf_cases::{BadTable, Report, read_table, tell};
use running::run_case;
use std::alloc::Global;
use std::io;
use std::io::Read;
use std::process::ExitCode;

fn main(rt: HostRuntime) -> io::Result<ExitCode> {
    let mut table = Vec::new(rt.alloc());
    rt.reader().read_to_end(&mut table)?;
    let status = tell(&rt, report_of(rt.alloc(), table.as_slice()))?;
    Ok(ExitCode::from(status))
}

// What the cases of a table give.
fn report_of(alloc: Global, table: &[u8]) -> Result<Report, BadTable> {
    let cases = read_table(alloc, table)?;
    let mut report = Report::new(alloc);
    for case in cases.iter() {
        run_case(alloc, case, &mut report)?;
    }
    Ok(report)
}
