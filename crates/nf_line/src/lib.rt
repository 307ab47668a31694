//! Trace lines by their bytes, on any cutting.
//!
//! `Liner` cuts bytes that come in pieces into lines, and lends each line that stands whole in a piece.
//! Whatever the pieces are, the lines are those of `cut` of all bytes (specs/Lines.antt, laws.rt).
//! `RawLine::read` says what a line is by the table of faults in specs/Line.antt, and lends its name, keys
//! and values; `row` makes the row of a name from them (specs/Rows.antt). The whole trace, with its order
//! and its end, is `trace` in specs/Trace.antt, and what is read on from where a reader stands is in
//! specs/Standing.antt; the crates above, which read traces, meet them. The crate stands on nf_text, which
//! reads fields, times and values, and on nf_core, which has plans and rows.
#![tactic(auto)]

mod carried;
mod fault;
mod fields;
mod laws;
mod limits;
mod liner;
mod pairs;
mod pieces;
mod raw_line;
mod row_laws;
mod rows;
mod taken;

pub use fault::{CutFault, LineFault, TraceFault};
pub use laws::{
    limits_in_figures, lines_are_those_of_the_cut, lines_mean_their_pieces, lines_that_ended_stay,
    long_lines_are_long_pieces, traces_go_on_from_where_they_stand, what_is_known_of_a_trace_stays,
};
pub use limits::{LINE_LIMIT, TRACE_LIMIT};
pub use liner::Liner;
pub use pairs::Pairs;
pub use raw_line::RawLine;
pub use row_laws::events_have_plain_values;
pub use taken::Taken;
