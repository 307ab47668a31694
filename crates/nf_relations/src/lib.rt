//! The relations of two intervals in a rule's body.
//!
//! `holds` is the condition of an inclusive operator, `span` says where its result begins and ends,
//! and `blocks` is the condition under which an interval blocks another one in an exclusive rule:
//! exactly the two tables of nf_core's specs/Relations. No call takes memory. Below stands nf_core
//! with the operators; above stands whatever goes over pairs of intervals.
#![tactic(auto)]

mod relations;

pub use relations::{blocks, holds, span};
