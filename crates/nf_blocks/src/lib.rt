//! Sorted sets in blocks.
//!
//! `BlockSet` keeps a sorted list, each element once, in blocks of at most 64 elements: a search
//! looks at the last element of some blocks and then into one of them, and a change moves the
//! elements of one block. Contracts see the sorted list (`has` and `removed` of specs/Blocks,
//! `insert_key` of std). Below stands nf_lemmas; above stand the sets of intervals and of times.
#![tactic(auto)]

mod block_set;
mod cuts;
mod filling;
mod parts;
mod removing;
mod search;
mod walk;

pub use block_set::BlockSet;
pub use walk::Walk;
