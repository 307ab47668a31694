//! The program `nfer_cases`: it reads a table of cases on standard input, runs the top call for each
//! over files and sinks in memory, and prints a line for each run that ends otherwise than its case
//! says, and one with the counts.
//!
//! The table's form is that of nf_cases. A case is one run of `run` of nfer_cli, or several:
//!
//! - `words WORD WORD ..` are the words, parted by single spaces; `word TEXT` is one more word, TEXT and
//!   the text below it.
//! - `file NAME` is a file with its text; `trace` is the file `-`, which isn't there without it.
//! - `read N` and `write N` say how many bytes a call of the shelf, and one of the two sinks, moves at
//!   most, and 65,536 where only the other stands. Where neither stands, the case is run twice, with 1
//!   and with 65,536.
//! - `fail read N`, `fail write N` and `fail message N` let the Nth call of the shelf, of the output or
//!   of the message fail; where these stand, 65,536 bytes a call are meant unless others are said.
//! - `status N`, `output` and `message` are what must come: 0, and empty texts, where they don't stand.
//! - `line N` is what trace line N announces. The output is all that `output` and `line` say.
//! - `each words` runs the case with the words of each line of its text.
//! - `each read N to M` and `each write N to M` run it with each of these numbers of bytes a call.
//! - `each fault` runs it with each call of the shelf, of the output and of the message failing in turn,
//!   and then with none; `faults` says what must come then. What `follow` announces has to stand line by
//!   line for it.
//!
//! The first line of `trace`, `output` and `message` may stand in the directive, as in
//! `message nfer: usage`. A case may also be a table within the table: `table` is its text, and `report`
//! what is printed for it.
//!
//! The status is 0 exactly where the table is in form and no run differs, 2 where it isn't in form, and 1
//! where a run differs, the table can't be read or nothing can be told.
#![tactic(auto)]

mod contents;
mod faults;
mod memory;
mod runs;
mod settings;
mod tables;
mod trials;

use nf_cases::tell;
use std::io::{self, Read};
use std::process::ExitCode;
use tables::report_of;

fn main(rt: HostRuntime) -> io::Result<ExitCode> {
    let mut bytes = Vec::new(rt.alloc());
    rt.reader().read_to_end(&mut bytes)?;
    let status = tell(&rt, report_of(rt.alloc(), bytes.as_slice()))?;
    Ok(ExitCode::from(status))
}
