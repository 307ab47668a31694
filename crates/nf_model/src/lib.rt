//! The meaning of the rules over whole inputs, and the slow evaluator that computes it anew at
//! each step.
//!
//! specs/Results has the clauses of a rule over its members, and its results over whole lists by all
//! pairs; specs/Levels has recursion on the level by any step, and specs/Pools by it the candidates and
//! the pool of each name; specs/Changes has the content of an evaluator and what the pools of heads
//! lose and gain; specs/Work has how many expressions a thrifty evaluator evaluates at most. `is_met`
//! and `build` carry out the clauses of a rule, with `maps` for the rows.
//! `Inferer` is what each evaluator promises by these definitions, and `Scratch` is the plainest one:
//! `results` computes the results of a rule, with `exclusive` for those of exclusive ones, `judging`
//! which candidates are held, `evaluation` the pools level by level, and `changes` what differs. Below
//! stand nf_core with its plans and intervals, nf_expr with the values of expressions and nf_relations
//! with the operators; above stands what reads traces and announces changes, over any `Inferer`.
#![tactic(auto)]

mod changes;
mod clauses;
mod evaluation;
mod exclusive;
mod inferers;
mod judging;
mod laws;
mod maps;
mod results;
mod row_laws;
mod scratches;

pub use clauses::{build, is_met};
pub use inferers::Inferer;
pub use laws::{contents_stay, lists_by_levels_are_solved, pools_are_judged_candidates};
pub use row_laws::pools_have_proper_rows;
pub use scratches::Scratch;
