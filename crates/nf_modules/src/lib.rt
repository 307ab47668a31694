//! Which rules of some modules are selected, by `Selects` of specs/Selection.antt.
//!
//! `select` answers the rules of the modules that a root reaches, or the first fault. `places` has the
//! place of each module by its name, `search` finds which modules the root reaches, and `reached` reads
//! what is asked of these. Below stands nf_core with the trees of specifications; above stands what
//! compiles them.
#![tactic(auto)]

mod fault;
mod laws;
mod places;
mod reached;
mod search;
mod selection;

pub use fault::ModuleFault;
pub use laws::selection_is_one;
pub use selection::select;
