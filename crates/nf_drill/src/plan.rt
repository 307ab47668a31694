//! The plan of the six rules.

ghost use Rattle.std.specs.Prelude.{◌≡◌, IfOk};
ghost use Rattle.nf_core.specs.Written.{AreLevels, names_of};
ghost use Rattle.nf_drill.specs.Rules.{IsDrillPlan, drill_rules};
ghost use Rattle.nf_order.specs.Dependence.{leveled_names};

use crate::rules;
use nf_core::{Levels, NoMemory, Plan, RuleList};
use nf_order::{OrderFault, levels, one_order};
use std::alloc::Global;

/// The plan of `drill` (`IsDrillPlan` of specs/Rules.antt).
pub fn drill_plan(alloc: Global) -> Result<Plan, NoMemory>
    ensures { IfOk result IsDrillPlan }
{
    let rules = rules::drill_rules(alloc)?;
    let levels = own_levels(alloc, &rules)?;
    Plan::build(alloc, &rules, &levels)
}

/// The levels of the names of the six rules, none of which depends on itself.
fn own_levels(alloc: Global, rules: &RuleList) -> Result<Levels, NoMemory>
    requires { rules.now ≡ drill_rules }
    ensures leveled { IfOk result (AreLevels drill_rules) }
    ensures named { IfOk result (λ levels. leveled_names levels ≡ names_of drill_rules) }
{
    one_order();
    match levels(alloc, rules) {
        Ok(levels) => Ok(levels),
        Err(OrderFault::Cycle(_)) => unreachable!(),
        Err(OrderFault::NoMemory) => Err(NoMemory),
    }
}
