//! What holds of the definitions themselves.

ghost use Rattle.std.specs.Prelude.{◌≡◌};
ghost use Rattle.nf_core.specs.Plan.{Plan};
ghost use Rattle.nf_drill.specs.Rules.{IsDrillPlan};

use nf_order::one_order;

/// There is one plan of `drill`, and only one (`IsDrillPlan` of specs/Rules.antt).
pub fn drill_has_one_plan()
    ensures some { (plan : Plan) × IsDrillPlan plan }
    ensures one { (a b : Plan) → IsDrillPlan a → IsDrillPlan b → a ≡ b }
{
    one_order();
}
