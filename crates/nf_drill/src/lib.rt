//! The rules of `drill`, and the plan of them.
//!
//! The six rules are made as trees, and no text is read for them (`drill_rules` of specs/Rules.antt);
//! `drill_plan` is the plan that a specification of just these rules has (`IsDrillPlan` there). Below
//! stand nf_core with trees and plans, and nf_order with the levels of names; above stands the program,
//! which runs the made trace over this plan.
#![tactic(auto)]

mod laws;
mod plan;
mod rules;

pub use laws::drill_has_one_plan;
pub use plan::drill_plan;
pub use rules::drill_rules;
