//! The faults of kinds.

use thiserror::Error;

/// Why a rule is refused: its first fault. Where each comes is `fault_of` in specs/Faults.antt.
#[derive(Debug, Clone, Copy, PartialEq, Eq, Error)]
pub enum KindFault {
    /// An expression reads under a label that no atom has.
    #[error("unknown label")]
    UnknownLabel,
    /// An atom has the label of an earlier one.
    #[error("same label")]
    SameLabel,
    /// An operator has an operand of a kind that it doesn't take, or the expression of a clause is of
    /// a kind that the clause doesn't take.
    #[error("wrong kind")]
    WrongKind,
    /// The map, `begin` or `end` of an exclusive rule reads under the label of the second atom.
    #[error("second label")]
    SecondLabel,
    /// An earlier entry of the map has the same key.
    #[error("same key")]
    SameKey,
}
