//! What a delta makes of two lists, pair by pair.
//!
//! A delta is what a sorted list lost and gained (`IsDelta` of specs/Deltas), and `partners` are the
//! stored intervals with which a rule looks at one that went or came (`ArePartners` of
//! specs/Partners). The lemmas in proofs/Public say what the pairs that two lists lost and gained
//! make of any sum over all pairs, and which of them a step touches. Below stand nf_index with the
//! stores and nf_model with the meaning of rules; above stand the incremental rules.
#![tactic(auto)]

mod deltas;
mod related;

pub use deltas::has_sorted;
pub use related::{Partners, is_related, partners};
