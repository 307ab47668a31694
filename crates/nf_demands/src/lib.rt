//! What the clause `where` of a rule demands of every pair that meets it, by `demands_of` of
//! specs/Demands.antt.
//!
//! `demands` answers, of the parts of a clause that stand joined by `&`, which say that a key of
//! each member is equal (`keys`), which bound an end of each member (`bounds`, over the linear
//! forms of `linear`), and which are tests of one member alone (`alone`); `parts` has the demand of
//! one part and `clauses` those of a clause. `laws` says that every pair that meets a clause meets
//! its demands. Below stands nf_core with its terms and intervals; nothing stands above yet.
#![tactic(auto)]

mod alone;
mod bounds;
mod clauses;
mod keys;
mod laws;
mod linear;
mod parts;

pub use bounds::{Bound, End, Limits, Measure};
pub use clauses::{Demand, DemandList, demands};
pub use keys::SameKeys;
pub use laws::demands_are_met;
