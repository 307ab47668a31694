//! Why a reading stops.

ghost use Rattle.std.specs.Prelude.{◌≡◌};
ghost use Rattle.nf_grammar.specs.declared.fault.Halt.TheVariants.{NoMemory as no_memory};

use nf_core::NoMemory;
use std::alloc::{AllocError, AllocFailed};

/// Where a text stops being one, by how many words are left, the one at which it does counted; 0 is the end
/// of the words.
#[derive(Debug, Clone, Copy, PartialEq, Eq)]
pub enum Fault {
    /// With the next word the words are no front of a text, or there is no next word and they are no text.
    Grammar(usize),
    /// The next word passes a limit.
    TooDeep(usize),
}

/// Why a call of a reader stops: by a fault, or since no memory was left.
#[derive(Debug, Clone, Copy, PartialEq, Eq)]
pub enum Halt {
    /// The words are none that can be read here.
    At(Fault),
    /// No memory was left.
    NoMemory,
}

impl From<NoMemory> for Halt {
    ghost from_gives = { λ _ halt. halt ≡ no_memory };

    fn from(_error: NoMemory) -> Halt {
        Halt::NoMemory
    }
}

impl From<AllocError> for Halt {
    ghost from_gives = { λ _ halt. halt ≡ no_memory };

    fn from(_error: AllocError) -> Halt {
        Halt::NoMemory
    }
}

impl<T: Drop> From<AllocFailed<T>> for Halt {
    ghost from_gives = { λ _ halt. halt ≡ no_memory };

    fn from(_error: AllocFailed<T>) -> Halt {
        Halt::NoMemory
    }
}
