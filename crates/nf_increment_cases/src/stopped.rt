//! Why a case can't be run.

use nf_cases::Wrong;
use nf_core::NoMemory;
use std::alloc::AllocError;

/// A directive that isn't in its form, or want of memory.
#[derive(Debug, Clone, Copy, PartialEq, Eq)]
pub enum Stopped {
    Form,
    NoMemory,
}

impl From<NoMemory> for Stopped {
    fn from(_error: NoMemory) -> Stopped {
        Stopped::NoMemory
    }
}

impl From<AllocError> for Stopped {
    fn from(_error: AllocError) -> Stopped {
        Stopped::NoMemory
    }
}

impl Stopped {
    /// What is wrong with the line of the table.
    pub fn wrong(self) -> Wrong {
        match self {
            Stopped::Form => Wrong::Form,
            Stopped::NoMemory => Wrong::NoMemory,
        }
    }
}
