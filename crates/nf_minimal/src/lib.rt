//! Which candidates of a name are held, step by step.
//!
//! `Minimal` keeps the candidates of a name with the number of their sources, and what is held of them:
//! `held_of` of specs/Minimals, the minimal ones or, under `full`, all. `Minimal::apply` takes sources
//! that came and went, and answers what the held ones lost and gained on the whole.
//!
//! Each candidate stands in one of two stores, held or suppressed, and that is its first source; a tally
//! counts the further ones, of those alone that have any. One that arrives is suppressed where a held
//! one lies strictly inside it; else it is held, and the held ones strictly around it are suppressed.
//! Where a held one leaves, the suppressed ones strictly around it are taken out and arrive again. No
//! other stored interval is looked at, and what is held for a moment isn't told. What came is added
//! before what went is taken away.
//!
//! An interval costs its own bytes once, in a store (32 bytes: two times and a pointer to its shared
//! cells); 16 more if no other one in its store has its times; and, where it has more than one source,
//! its own bytes and 16 once more in the tally, each with its share of a tree's node.
//!
//! Of the files, `lookups` asks a store, `judging` moves candidates, `counting` adds sources and takes
//! them away, `minimal` puts all behind one type. Below stand nf_tally with the numbers, nf_index with
//! the stores and nf_model with `judged`; above stands what evaluates the rules of all names.
#![tactic(auto)]

mod counting;
mod judging;
mod lookups;
mod minimal;

pub use minimal::Minimal;
