//! The meaning of a program of the C subset: what one call of `nf_event` does (`c_call` of
//! specs/Events.antt).
//!
//! The meaning is by cases on the trees of nf_cast, over objects by name and locals by name: of
//! expressions (specs/Values.antt), statements and blocks (Statements.antt), functions (Functions.antt), and
//! `nf_emit` (Emissions.antt). Each form has one law (`laws`). `causes` and `emissions` have the types
//! that answers are made of. Below stands nf_cast with the trees; above it the machine that runs
//! programs, and the generator of monitors.
#![tactic(auto)]

mod causes;
mod emissions;
mod laws;

pub use causes::Cause;
pub use emissions::{Cell, Cells, Emit, EmitList};
pub use laws::{blocks_by_statements, statements_by_form, values_by_form};
