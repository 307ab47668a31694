//! What is wrong with a table, and where.

use std::alloc::{AllocError, AllocFailed};
use thiserror::Error;

/// What is wrong in a line of a table. The last three are answered by the programs that read a
/// table, which know its directives.
#[derive(Debug, Clone, Copy, PartialEq, Eq, Error)]
pub enum Wrong {
    #[error("not text")]
    NotText,
    #[error("no case above")]
    NoCase,
    #[error("a case without a name")]
    NoName,
    #[error("no directive above")]
    NoDirective,
    #[error("no space after the mark")]
    NoSpace,
    #[error("not bytes of two digits each")]
    NotBytes,
    #[error("not a count and what is repeated")]
    NotRepeated,
    #[error("no memory")]
    NoMemory,
    #[error("unknown directive")]
    Unknown,
    #[error("not in the form of its directive")]
    Form,
    #[error("twice")]
    Twice,
}

impl From<AllocError> for Wrong {
    fn from(_error: AllocError) -> Wrong {
        Wrong::NoMemory
    }
}

impl<T: Drop> From<AllocFailed<T>> for Wrong {
    fn from(_error: AllocFailed<T>) -> Wrong {
        Wrong::NoMemory
    }
}

/// A table that can't be read: the line, counted from 1, and what is wrong there.
#[derive(Debug, Clone, Copy, PartialEq, Eq, Error)]
#[error("line {line}: {wrong}")]
pub struct BadTable {
    pub line: u64,
    pub wrong: Wrong,
}
