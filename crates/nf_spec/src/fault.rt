//! Why a specification is refused.

use nf_core::{NoMemory, Text};
use nf_lex::LexFault;
use nf_modules::ModuleFault;
use nf_order::OrderFault;
use nf_typing::KindFault;
use std::alloc::AllocError;
use thiserror::Error;

/// Why `compile` gives no plan. Where each comes is `Specifies` of specs/Specification.antt. Files are
/// given by their places, counted from 0; lines and rules are counted from 1.
#[derive(Debug, Drop, PartialEq, Eq, Error)]
pub enum SpecFault {
    /// The sources have more than 1,048,576 bytes together.
    #[error("specification too long")]
    TooLong,
    /// The file at a place has a lexical fault, its first one. The fault is never `NoMemory`.
    #[error("file {0}: {1}")]
    Lex(u32, LexFault),
    /// The file at a place isn't in the grammar: with the token on this line its tokens are no front of a
    /// file, or they end there and are none.
    #[error("file {0}: line {1}: grammar")]
    Grammar(u32, u64),
    /// An expression of the file at a place passes a limit: the token on this line is the 65th parenthesis
    /// that is open at once in it, or its 257th operator.
    #[error("file {0}: line {1}: too deep")]
    TooDeep(u32, u64),
    /// No module has the name that was asked for as the root, or one that a reached module imports.
    #[error("no module {}", .0.as_str())]
    NoModule(Text),
    /// An earlier module has the name of a module.
    #[error("module {} twice", .0.as_str())]
    SameModule(Text),
    /// The kinds of the selected rule of a number aren't right: its first fault.
    #[error("rule {0}: {1}")]
    Kinds(u32, KindFault),
    /// A head depends on itself; the first one in the order of the selected rules.
    #[error("cycle at {}", .0.as_str())]
    Cycle(Text),
    /// No memory was left.
    #[error("no memory")]
    NoMemory,
}

impl From<NoMemory> for SpecFault {
    ghost use Rattle.std.specs.Prelude.{◌≡◌};
    ghost use Rattle.nf_spec.specs.declared.fault.SpecFault.TheVariants as variant;

    ghost from_gives = { λ _ fault. fault ≡ variant.NoMemory };

    fn from(_error: NoMemory) -> SpecFault {
        SpecFault::NoMemory
    }
}

impl From<AllocError> for SpecFault {
    ghost use Rattle.std.specs.Prelude.{◌≡◌};
    ghost use Rattle.nf_spec.specs.declared.fault.SpecFault.TheVariants as variant;

    ghost from_gives = { λ _ fault. fault ≡ variant.NoMemory };

    fn from(_error: AllocError) -> SpecFault {
        SpecFault::NoMemory
    }
}

impl From<ModuleFault> for SpecFault {
    ghost use Rattle.std.specs.Prelude.{◌≡◌};
    ghost use Rattle.nf_spec.specs.Specification as spec;

    ghost from_gives = { λ found fault. fault ≡ spec.unselected found };

    fn from(found: ModuleFault) -> SpecFault {
        match found {
            ModuleFault::NoModule(name) => SpecFault::NoModule(name),
            ModuleFault::SameModule(name) => SpecFault::SameModule(name),
            ModuleFault::NoMemory => SpecFault::NoMemory,
        }
    }
}

impl From<OrderFault> for SpecFault {
    ghost use Rattle.std.specs.Prelude.{◌≡◌};
    ghost use Rattle.nf_spec.specs.Specification as spec;

    ghost from_gives = { λ found fault. fault ≡ spec.unordered found };

    fn from(found: OrderFault) -> SpecFault {
        match found {
            OrderFault::Cycle(head) => SpecFault::Cycle(head),
            OrderFault::NoMemory => SpecFault::NoMemory,
        }
    }
}
