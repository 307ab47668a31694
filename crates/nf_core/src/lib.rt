//! The types that all crates of nfer share, and the plan.
//!
//! Texts, values, rows, intervals and their sets; the trees of a specification; and the `Plan` that
//! evaluators work from, which `Plan::build` makes of rules and their levels: it is `plan_of` of
//! specs/Written.antt, and `IsPlan` of specs/Plan.antt is true of every plan. The other files of specs/
//! define orders, relations, expressions, kinds, identifiers and the spelling of operators, and no code
//! here stands for them: the crates above meet them.
//!
//! Of the files, `names` numbers the names of rules, `key_places` collects the keys of each name,
//! `numbered_terms` and `numbered_rules` make terms and rules over these numbers, and `plans` puts them
//! together. No crate of the project stands below but lemmas; every other one stands above.
#![tactic(auto)]

mod copies;
mod errors;
mod intervals;
mod key_places;
mod laws;
mod limits;
mod lines;
mod lists;
mod names;
mod numbered_rules;
mod numbered_terms;
mod numbering;
mod operators;
mod plan_levels;
mod plans;
mod rows;
mod sets;
mod sorted_texts;
mod steps;
mod terms;
mod text_sets;
mod texts;
mod trees;
mod values;
mod wide_names;

pub use copies::TryCopy;
pub use errors::NoMemory;
pub use intervals::{Change, Delta, Interval, IntervalList, Named, NamedList};
pub use laws::{identifiers_are_not_wide, trees_are_expressions, trees_by_parts};
pub use limits::{MOST_OPEN, MOST_OPERATORS};
pub use lines::Lines;
pub use lists::ListOf;
pub use names::Names;
pub use operators::{BinOp, Op, Xop};
pub use plan_levels::Levels;
pub use plans::Plan;
pub use rows::Row;
pub use sets::{Held, IntervalSet, Part};
pub use steps::Steps;
pub use terms::{Link, PlanEntry, PlanEntryList, PlanRule, Term};
pub use texts::Text;
pub use trees::{Atom, Body, Entry, EntryList, Expr, Module, ModuleList, Rule, RuleList, TextList};
pub use values::Value;
