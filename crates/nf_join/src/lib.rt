//! Inclusive rules, evaluated anew only where their lists change.
//!
//! A `Join` keeps how often each interval is among the results of a rule over two lists, and
//! `Join::delta` says what deltas of the two lists make of the results: exactly what these, each once,
//! lost and gained, with the work of the touched pairs alone. `made` and `ones` make what a pair, or an
//! interval alone, makes; `walks` goes over the pairs of some intervals with stored and with other
//! ones; `exchanges` puts these together into what was lost and found. Below stand nf_pairs with deltas
//! and partners, nf_index with the stores, nf_tally with the counts and nf_model with the meaning of
//! rules (`results`, `rule_work`); above stands the engine.
#![tactic(auto)]

mod exchanges;
mod joins;
mod made;
mod ones;
mod walks;

pub use joins::Join;
