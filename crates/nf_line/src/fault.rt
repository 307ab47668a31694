//! Why a line or a trace is refused.

use thiserror::Error;

/// Why a line is refused by its bytes, by `line_within` of specs/Line: the first fault that it has, in
/// this order.
#[derive(Debug, Clone, Copy, PartialEq, Eq, Error)]
pub enum LineFault {
    /// The line isn't UTF-8, or holds a CR.
    #[error("not text")]
    NotText,
    /// Between `|` the line has neither 2, 4 nor 5 fields, or its first field is empty.
    #[error("fields")]
    Fields,
    /// The second field, or the third one of five, isn't 1 to 19 digits with a value of at most
    /// 2^63 - 1.
    #[error("time")]
    Time,
    /// The line has five fields, and the second is greater than the third: it ends before it begins.
    #[error("span")]
    Span,
    /// The keys' field, the last but one, isn't empty and has, between `;`, an empty key.
    #[error("key")]
    Key,
    /// There are more or fewer values than keys.
    #[error("counts")]
    Counts,
}

/// Why a trace is refused, with the number of the refused line, counted from 1. Which end of a trace
/// each stands for is `trace_fault_of` of specs/Readings.
#[derive(Debug, Clone, Copy, PartialEq, Eq, Error)]
pub enum TraceFault {
    /// The line has more than 65,536 bytes before its LF.
    #[error("line {0}: long")]
    Long(u64),
    /// The line is refused by its bytes.
    #[error("line {0}: {1}")]
    Line(u64, LineFault),
    /// The line ends before the last accepted line does.
    #[error("line {line}: time {found} after {kept}")]
    Order { line: u64, kept: i64, found: i64 },
    /// The trace has 2^63 - 1 bytes or more.
    #[error("input too long")]
    TooLong,
}

/// Why a piece can't be taken.
#[derive(Debug, Clone, Copy, PartialEq, Eq, Error)]
pub enum CutFault {
    /// A line has more than 65,536 bytes before its LF, or one had before.
    #[error("long")]
    Long,
    /// No memory was left to keep the piece.
    #[error("no memory")]
    NoMemory,
}
