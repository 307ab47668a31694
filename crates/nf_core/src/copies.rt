//! Copies that may find no memory.

ghost use Rattle.std.specs.Prelude.{◌≡◌, IfOk};

use crate::errors::NoMemory;
use std::alloc::Global;

/// A value that can be copied, where memory allows it.
pub trait TryCopy: Sized {
    /// An equal value. It takes memory for what it holds.
    fn copy(&self, alloc: Global) -> Result<Self, NoMemory>
        ensures { IfOk result (λ copy. copy ≡ self.now) };
}

impl<T: TryCopy> TryCopy for Option<T> {
    fn copy(&self, alloc: Global) -> Result<Option<T>, NoMemory> {
        match self {
            None => Ok(None),
            Some(value) => Ok(Some(value.copy(alloc)?)),
        }
    }
}
