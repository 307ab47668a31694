//! Lemmas on the words of std that several crates use: lists, searches, tests and digits. It has no code; the crates above
//! cite its modules of proofs/.
#![tactic(auto)]
