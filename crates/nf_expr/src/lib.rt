//! The value of an expression over one or two members, by `value_of` of nf_core's specs/Expressions.
//!
//! `eval` answers what is seen of the value and counts one step. A `Seen` lends the text of its
//! value, so nothing is copied and no memory is taken. `evaluation` goes down the expression,
//! `operators` has the operators on values, and `laws` says how deep expressions are. Below stands
//! nf_core with its terms and intervals; above stands what carries out the clauses of rules.
#![tactic(auto)]

mod evaluation;
mod laws;
mod operators;
mod seen;

pub use evaluation::eval;
pub use laws::expressions_are_no_deeper_than_operators;
pub use seen::Seen;
