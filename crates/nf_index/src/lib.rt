//! The intervals of one name, looked up by a relation to given times.
//!
//! A `Store` is a sorted list of intervals, each once. `matching` gives those of them that stand in
//! a relation, as its first or its second member, to the times of another interval: `stands` and
//! `matches` of specs/Matching. Each interval is kept once, in its order by begin; beside it stand
//! the times that intervals have in their order by end, each once, and the number of places at
//! which ends fall from one interval to the next in the order by begin. Where that number is 0, as
//! without nested intervals, both orders are one. An interval costs a store the interval itself
//! and, if no other one has its times, 16 bytes more, each with its share of a tree's node.
//!
//! What a walk visits: `windows` turns a relation into a window on begin and end. A window on one
//! of the two alone is a range of that order, and an end leads to the intervals with its times by a
//! range of the order by begin; so `before`, `meet`, `coincide`, `start`, `finish`, `after` and
//! `follow` look at nothing besides what they give. The window of `during`, `contain`, `overlap`,
//! `slice` and `Inside` bounds a begin and an end. Where no end falls it is one run of the order by
//! begin, between two places that are looked up in the orders, and nothing else is looked at:
//! `Inside` leaves out the intervals with just the given times as a part of the run. Where ends
//! fall somewhere it is the range of begins from one given time to the other for intervals within,
//! and that of ends from a given time on for those around or overlapping; then a filter is needed.
//! These bounds are how the code is made: clauses say which intervals come, not how many are looked
//! at, which `Matching::visits` counts.
//!
//! Of the files, `times` has places in the order by begin, `ends` parts of the order by end,
//! `falls` the count, `plans` the choice of a part for a window, `rest` and `matching` the walks,
//! `forgetting` what goes by begin. Below stands nf_core with intervals and their sets; above
//! stands what follows the results of names.
#![tactic(auto)]

mod ends;
mod falls;
mod forgetting;
mod matching;
mod plans;
mod relations;
mod rest;
mod store;
mod times;
mod windows;

pub use matching::Matching;
pub use nf_core::Held as Walk;
pub use relations::{Rel, Which};
pub use store::Store;
