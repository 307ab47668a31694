//! Why a text is no program.

use nf_cast::CRule;
use nf_core::NoMemory;
use std::alloc::{AllocError, AllocFailed};

/// Why a text is no program. Lines are counted from 1. Where each comes is said at the call that answers
/// it.
#[derive(Debug, Clone, Copy, PartialEq, Eq)]
pub enum CFault {
    /// The text doesn't begin with a manifest.
    Manifest,
    /// At this line stands a byte from which no token, comment or separator can be read.
    Lex(u64),
    /// At this line stands the first token with which the tokens are no front of a text.
    Grammar(u64),
    /// At this line stands the first token that passes a limit.
    TooDeep(u64),
    /// At this line stands the first token that breaks a rule, and which rule that is.
    Rule(u64, CRule),
    /// No memory was left.
    NoMemory,
}

impl From<NoMemory> for CFault {
    ghost use Rattle.std.specs.Prelude.{◌≡◌};
    ghost use Rattle.nf_cparse.specs.declared.fault.CFault.TheVariants as variant;

    ghost from_gives = { λ _ fault. fault ≡ variant.NoMemory };

    fn from(_error: NoMemory) -> CFault {
        CFault::NoMemory
    }
}

impl From<AllocError> for CFault {
    ghost use Rattle.std.specs.Prelude.{◌≡◌};
    ghost use Rattle.nf_cparse.specs.declared.fault.CFault.TheVariants as variant;

    ghost from_gives = { λ _ fault. fault ≡ variant.NoMemory };

    fn from(_error: AllocError) -> CFault {
        CFault::NoMemory
    }
}

impl<T: Drop> From<AllocFailed<T>> for CFault {
    ghost use Rattle.std.specs.Prelude.{◌≡◌};
    ghost use Rattle.nf_cparse.specs.declared.fault.CFault.TheVariants as variant;

    ghost from_gives = { λ _ fault. fault ≡ variant.NoMemory };

    fn from(_error: AllocFailed<T>) -> CFault {
        CFault::NoMemory
    }
}
