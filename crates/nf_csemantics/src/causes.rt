//! Why a call of a monitor is stuck.

/// Why a call is stuck: a result outside int64 (`Range`), a zero divisor (`Zero`), an index outside
/// its array (`Index`), an emission that may not be (`Emit`), and an answer of `nf_event` that is neither 0
/// nor 1 (`Answer`).
#[derive(Debug, Clone, Copy, PartialEq, Eq)]
pub enum Cause {
    Range,
    Zero,
    Index,
    Emit,
    Answer,
}
