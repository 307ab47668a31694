//! Why a source has no tokens.

use nf_core::NoMemory;
use thiserror::Error;

/// Why a source has no tokens: its first fault, by the first byte of what is faulty, with the line of
/// that byte, counted from 1. Where each comes is `fault_of` and `missing_at` in specs/Faults.antt.
#[derive(Debug, Clone, Copy, PartialEq, Eq, Error)]
pub enum LexFault {
    /// No token, comment or separator begins with this byte.
    #[error("line {0}: bad byte")]
    BadByte(u64),
    /// A closed text isn't UTF-8, holds `|`, `;`, CR or LF, or spells a whole number or a truth value.
    #[error("line {0}: bad text")]
    BadText(u64),
    /// A text has no closing `"`.
    #[error("line {0}: open text")]
    OpenText(u64),
    /// A comment from `/*` on has no `*/`.
    #[error("line {0}: open comment")]
    OpenComment(u64),
    /// A number is above 2^63 - 1.
    #[error("line {0}: big number")]
    BigNumber(u64),
    /// No memory was left for the tokens.
    #[error("no memory")]
    NoMemory,
}

impl From<NoMemory> for LexFault {
    ghost use Rattle.std.specs.Prelude.{◌≡◌};
    ghost use Rattle.nf_lex.specs.declared.fault.LexFault.TheVariants as variant;

    ghost from_gives = { λ _ fault. fault ≡ variant.NoMemory };

    fn from(_error: NoMemory) -> LexFault {
        LexFault::NoMemory
    }
}
