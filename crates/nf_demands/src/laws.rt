//! The law of demands. The function does nothing, and its contract is the law.

ghost use Rattle.std.specs.Prelude.{◌≡◌, true, All, Some};
ghost use Rattle.nf_core.specs.Intervals.{Interval};
ghost use Rattle.nf_core.specs.Expressions.{value_of};
ghost use Rattle.nf_core.specs.declared.terms.Term.{Term};
ghost use Rattle.nf_core.specs.declared.values.Value.TheVariants as variant;
ghost use Rattle.nf_demands.specs.Demands.{IsMet, demands_of};

/// Every pair for which a clause is true meets each demand of the clause (`IsMet` of
/// specs/Demands): its same keys are there and are equal, its ends are bounded, and its tests of
/// one member are true of that member whatever the other is.
#[tactic(auto, using(crate::proofs::DemandLemmas::demands_met))]
pub fn demands_are_met()
    ensures { (i j : Interval) (clause : Term)
        → value_of i (Some j) clause ≡ Some (variant.Bool true)
        → All (IsMet i j) (demands_of clause) }
{}
