//! Why rules have no levels.

use nf_core::{NoMemory, Text};
use thiserror::Error;

/// Why `levels` gives no levels.
#[derive(Debug, Drop, PartialEq, Eq, Error)]
pub enum OrderFault {
    /// A head depends on itself; the first one in the order of the rules (`IsFirstCycle` of
    /// specs/Dependence.antt).
    #[error("cycle at {}", .0.as_str())]
    Cycle(Text),
    /// No memory was left.
    #[error("no memory")]
    NoMemory,
}

impl From<NoMemory> for OrderFault {
    ghost use Rattle.std.specs.Prelude.{◌≡◌};
    ghost use Rattle.nf_order.specs.declared.fault.OrderFault.TheVariants as variant;

    ghost from_gives = { λ _ fault. fault ≡ variant.NoMemory };

    fn from(_error: NoMemory) -> OrderFault {
        OrderFault::NoMemory
    }
}
