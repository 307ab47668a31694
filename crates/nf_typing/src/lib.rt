//! The kinds of a rule's expressions, by `fault_of` of specs/Faults.antt.
//!
//! `check_rule` answers the first fault of a rule, and none exactly where its kinds are right, which is
//! what a plan requires. `rules` goes through the clauses in order, `expressions` down an expression,
//! `labels` says what a clause may read, and `kind` what operators and clauses take. `laws` says that an
//! expression has a fault exactly where it has no kind (`kind_of_tree` of nf_core's specs/Kinds). Below
//! stands nf_core with its trees and its tables of kinds; above stands what compiles specifications. No
//! call takes memory.
#![tactic(auto)]

mod clause;
mod expressions;
mod fault;
mod kind;
mod labels;
mod laws;
mod rules;

pub use fault::KindFault;
pub use laws::kinds_are_those_of_trees;
pub use rules::check_rule;
