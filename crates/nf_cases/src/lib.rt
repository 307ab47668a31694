//! Tables of cases: what programs that compare calls with what must come read on standard input.
//!
//! A table is text for people, one directive a line. `# ..` is a comment, and an empty line is
//! skipped. `case NAME` begins a case; any other line is a directive, a word and its rest, or a part
//! of the text of the directive above it:
//!
//! - `| TEXT` is TEXT and an LF, `|` alone an LF;
//! - `> TEXT` is TEXT without an LF;
//! - `hex 61 7c ff` are bytes;
//! - `repeat 65531 x` is a text so many times, `repeat 3 hex ff` bytes so many times.
//!
//! So a text can hold any byte, and end without an LF. `read_table` reads the cases; what their
//! directives mean is known to the programs above. `rows_of` reads the lines of a text that are rows,
//! `ASKED => WANTED`. `Report` counts the runs and keeps a line for each that differs, and `tell` prints
//! it. No crate of nfer stands below.
#![tactic(auto)]

mod cases;
mod compared;
mod parts;
mod reading;
mod report;
mod rows;
mod telling;
mod wrong;

pub use cases::{Case, Directive};
pub use compared::{difference, shown, whole_number};
pub use reading::read_table;
pub use report::Report;
pub use rows::{Row, compare, expanded, lines_of, rows_of, text_of};
pub use telling::tell;
pub use wrong::{BadTable, Wrong};
