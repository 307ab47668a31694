//! Exclusive rules, step by step: what a step changes costs work, and nothing else does.
//!
//! `Exclude` keeps of an exclusive rule how many blockers each interval of its first name has,
//! and how often each interval is among its results (`StandsFor` of specs/Exclusions).
//! `Exclude::delta` moves both from the two lists before their deltas to those that the stores
//! hold now, and answers what the results, each once, lost and gained. Where a blocker comes or
//! goes only the stored intervals that stand in the operator's relation to it are looked at; a
//! result is built where an interval came or went unblocked, or where its last blocker went or
//! its first one came. The counter rises by the rule's work at most (`rule_work` of nf_model's
//! specs/Work). A blocked interval is kept once with its number, and a result once with its
//! count; an interval without blockers isn't kept. `exclusions` has the type, `following` the
//! order of a step's parts, `pairs` the pairs of what came or went of the second name, `arrivals`
//! what came and went of the first one, and `turns` one interval whose number rises or falls.
//! Below stand nf_tally with the numbers, nf_index with the stores, nf_pairs with the partners of
//! an interval and nf_model with the meaning; above stands the evaluator that steps all rules.
#![tactic(auto)]

mod arrivals;
mod exclusions;
mod following;
mod pairs;
mod turns;

pub use exclusions::Exclude;
