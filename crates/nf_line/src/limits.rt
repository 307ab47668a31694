//! The limits of lines and traces. Definitions cite them as `line_limit` and `trace_limit`.

/// The most bytes of a line before its LF, a CR at its end counted.
pub const LINE_LIMIT: usize = 65_536;

/// A trace with so many bytes, 2^63 - 1, is too long.
pub const TRACE_LIMIT: usize = 9_223_372_036_854_775_807;
