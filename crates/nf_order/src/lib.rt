//! The levels of names, by which pools are filled, or the first cycle.
//!
//! `levels` answers the level of each name of some rules, which is `AreLevels` of nf_core's
//! specs/Written.antt, or the first head that depends on itself, which is `IsFirstCycle` of
//! specs/Dependence.antt; `one_order` says that there always is such an answer, and only one. Names go by
//! their numbers (`Names` of nf_core): `graph` says by number what rules read, `leveling` gives each
//! number its level along a stack, with its notes in `marks`, `cycles` searches whether a number is on a
//! cycle, and `order` puts them together. Below stands nf_core with the rules, the numbers of their names
//! and their levels; above stands what compiles specifications.
#![tactic(auto)]

mod cycles;
mod fault;
mod graph;
mod laws;
mod leveling;
mod marks;
mod order;

pub use fault::OrderFault;
pub use laws::one_order;
pub use order::levels;
