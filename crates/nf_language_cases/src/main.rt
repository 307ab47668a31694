//! The program of cases of the language: what sources of specifications are read, selected and compiled
//! to, by a table on standard input.
//!
//! A case gives sources, and says what must come of them.
//!
//! | directive | what it says |
//! |---|---|
//! | `source` and a text | one more source |
//! | `root M` | the module that is asked for, in `selected` and `compiled` |
//! | `within` and lines | what `each` tries, with `@` for what a row asks |
//! | `each CHECK` and rows `ASKED => WANTED` | what must come of each row, in each of these |
//! | `CHECK` and a text | what must come of the sources |
//!
//! What is checked is said in checks.rt; what comes is `nothing` where it is empty. In a row ` ## ` stands
//! between two sources. The program prints a line for each check that differs and the count. The status is
//! 0 exactly where the table is good and none differs.
#![tactic(auto)]

mod canonical;
mod checks;
mod expressions;
mod given;
mod judged;
mod modules;
mod plans;
mod running;
mod tokens;

use nf_cases::{BadTable, Report, read_table, tell};
use running::run_case;
use std::alloc::Global;
use std::io;
use std::io::Read;
use std::process::ExitCode;

fn main(rt: HostRuntime) -> io::Result<ExitCode> {
    let mut table = Vec::new(rt.alloc());
    rt.reader().read_to_end(&mut table)?;
    let status = tell(&rt, report_of(rt.alloc(), table.as_slice()))?;
    Ok(ExitCode::from(status))
}

// What the cases of a table give.
fn report_of(alloc: Global, table: &[u8]) -> Result<Report, BadTable> {
    let cases = read_table(alloc, table)?;
    let mut report = Report::new(alloc);
    for case in cases.iter() {
        run_case(alloc, case, &mut report)?;
    }
    Ok(report)
}
