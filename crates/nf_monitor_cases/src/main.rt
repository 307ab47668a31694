//! The program of cases of monitors: what C texts are read to, by a table on standard input.
//!
//! A case gives texts, and says what must come of reading each.
//!
//! | directive | what it says |
//! |---|---|
//! | `text` and a text | the text that is read, and whose lines the others take, also in the cases below |
//! | `line N` and a text | the text that is read: the last `text`, with this in place of its line N |
//! | `first N` and a text | the text that is read: the first N lines of the last `text`, and then this |
//! | `source` and bytes | the bytes that are read |
//! | `shows N` | of a program line N of its printed text is shown, without the spaces before it |
//! | `read` and an answer | what must come of reading them |
//! | `within` and a text | what the rows below stand within, each line of it with `@` in their place |
//! | `lines N` and rows | for each row what `line N` and `read` say, with an LF behind its text |
//! | `ends N` and rows | for each row what `first N` and `read` say, with no LF behind its text |
//!
//! A row is `TEXT => ANSWER`, with `⏎` for an LF in its text. An answer is `manifest`, a line and what is
//! wrong there, as in `12: lex`, or `program`, or what is shown of it. A program is printed and read again,
//! and must be the same. The program prints a line for each answer that differs and the count. The status
//! is 0 exactly where the table is good and none differs.
#![tactic(auto)]

mod answers;
mod given;
mod rows;
mod running;

use given::Given;
use nf_cases::{BadTable, Report, read_table, tell};
use running::run_case;
use std::alloc::Global;
use std::io;
use std::io::Read;
use std::process::ExitCode;

fn main(rt: HostRuntime) -> io::Result<ExitCode> {
    let mut table = Vec::new(rt.alloc());
    rt.reader().read_to_end(&mut table)?;
    let status = tell(&rt, report_of(rt.alloc(), table.as_slice()))?;
    Ok(ExitCode::from(status))
}

// What the cases of a table give.
fn report_of(alloc: Global, table: &[u8]) -> Result<Report, BadTable> {
    let cases = read_table(alloc, table)?;
    let mut given = Given::new(alloc);
    let mut report = Report::new(alloc);
    for case in cases.iter() {
        run_case(alloc, case, &mut given, &mut report)?;
    }
    Ok(report)
}
