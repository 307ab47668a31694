//! The faults of a selection.

use nf_core::{NoMemory, Text};
use std::alloc::AllocFailed;
use thiserror::Error;

/// Why `select` gives no rules. Where each comes is `fault_of` in specs/Selection.antt.
#[derive(Debug, Drop, Error)]
pub enum ModuleFault {
    /// No module has the name that was asked for as the root, or one that a reached module imports.
    #[error("no module {}", .0.as_str())]
    NoModule(Text),
    /// An earlier module has the name of a module.
    #[error("module {} twice", .0.as_str())]
    SameModule(Text),
    /// No memory was left for the search or for the rules.
    #[error("no memory")]
    NoMemory,
}

impl From<NoMemory> for ModuleFault {
    ghost use Rattle.std.specs.Prelude.{◌≡◌};
    ghost use Rattle.nf_modules.specs.declared.fault.ModuleFault.TheVariants as variant;

    ghost from_gives = { λ _ fault. fault ≡ variant.NoMemory };

    fn from(_error: NoMemory) -> ModuleFault {
        ModuleFault::NoMemory
    }
}

impl<T: Drop> From<AllocFailed<T>> for ModuleFault {
    ghost use Rattle.std.specs.Prelude.{◌≡◌};
    ghost use Rattle.nf_modules.specs.declared.fault.ModuleFault.TheVariants as variant;

    ghost from_gives = { λ _ fault. fault ≡ variant.NoMemory };

    fn from(_error: AllocFailed<T>) -> ModuleFault {
        ModuleFault::NoMemory
    }
}
