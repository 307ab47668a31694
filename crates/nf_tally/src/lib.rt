//! A number for each of some intervals.
//!
//! `Tally` keeps how often each interval is there, or any other number of it (`number` of
//! specs/Numbers): only intervals with a number above 0 are kept, each once. `Tally::settle` adds and
//! takes away whole lists, and answers which intervals came to have a number and which lost theirs
//! (`IsNet` of specs/Numbers), whatever happened in between. `Net` is the part of it that follows a
//! set through its steps (`Leads` of specs/Deltas), and costs no set where one interval moves. Below stands nf_core with the intervals; above
//! stand the incremental parts of evaluation.
#![tactic(auto)]

mod counts;
mod few;
mod net;
mod settling;
mod tally;

pub use net::Net;
pub use tally::Tally;
