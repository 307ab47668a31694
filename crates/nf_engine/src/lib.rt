//! The evaluator by deltas: a step does what an interval changes, and nothing else.
//!
//! `Engine` is an evaluator of a plan's rules (`Inferer` of nf_model): it stands for a content, and
//! a step answers what the pools of heads lost and gained (`Content` and `change` of nf_model's
//! specs/Changes). It is thrifty: a step evaluates at most its work (`work` of nf_model's
//! specs/Work), and it turns to no name and no rule that depends on nothing that changed, however
//! many the plan has.
//!
//! Each name keeps its candidates with the number of their sources and what is held of them
//! (`Minimal` of nf_minimal), each rule what its results stand on (`parts`: a `Join` of nf_join or
//! an `Exclude` of nf_exclude), and an index says which rules read a name. Inputs of names with
//! rules are kept in a set for each; those of names without rules are their candidates. A step
//! (`entering`) gives the interval's name its turn and then, by level and number (`running`,
//! `queues`), each name of which a rule reads a changed one (`readers`). In a turn (`turns`) each
//! such rule is evaluated over what its two names lost and gained (`evaluations`, `deltas`), the
//! name's candidates take what came of that, and what its held ones lost and gained is recorded. At
//! the end the records of heads are the change. `beginnings` makes what is kept before anything was
//! entered, `keeping` keeps an input, `rounds` has a step underway and `engines` the type.
//!
//! Below stand nf_join, nf_exclude and nf_minimal with the parts, nf_pairs with deltas, nf_index
//! with the stores, nf_tally with the numbers and nf_model with the meaning; above stands what
//! follows traces, over any `Inferer`.
#![tactic(auto)]

mod beginnings;
mod deltas;
mod engines;
mod entering;
mod evaluations;
mod keeping;
mod parts;
mod queues;
mod readers;
mod rounds;
mod running;
mod turns;

pub use engines::Engine;
