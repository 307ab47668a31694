//! The parts of which grammars are made, over words of any kind: what a part gives, and which words are a front of it.
//!
//! A grammar is written as one `Part` of specs/Parts.antt, production by production. It says at once which words a
//! production has (with the tree that they give) and which words are a front of one, and so where a text that is
//! none stops being one (specs/Places.antt). The laws of proofs/Public say of a reader that goes by the same
//! parts that it reads exactly these words and stops exactly there; the readers of specifications and of C texts
//! stand above it.
#![tactic(auto)]

mod fault;

pub use fault::{Fault, Halt};
