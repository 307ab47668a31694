//! Why a case can't be run.

use nf_cases::Wrong;
use nf_core::NoMemory;
use std::alloc::{AllocError, AllocFailed};

/// What is wrong with a directive or a row, or want of memory.
#[derive(Debug, Clone, Copy, PartialEq, Eq)]
pub struct Stopped(pub Wrong);

impl From<Wrong> for Stopped {
    fn from(wrong: Wrong) -> Stopped {
        Stopped(wrong)
    }
}

impl From<NoMemory> for Stopped {
    fn from(_error: NoMemory) -> Stopped {
        Stopped(Wrong::NoMemory)
    }
}

impl From<AllocError> for Stopped {
    fn from(_error: AllocError) -> Stopped {
        Stopped(Wrong::NoMemory)
    }
}

impl<T: Drop> From<AllocFailed<T>> for Stopped {
    fn from(_error: AllocFailed<T>) -> Stopped {
        Stopped(Wrong::NoMemory)
    }
}

/// A row or a directive that isn't in its form.
pub const FORM: Stopped = Stopped(Wrong::Form);
