//! What holds of the definitions, as contracts of functions without a body.

ghost use Rattle.std.specs.Prelude.{◌≡◌, ℕ, ◌<◌, Bool, false, length};
ghost use Rattle.nf_core.specs.Intervals.{Interval};
ghost use Rattle.nf_core.specs.Plan.{Plan, IsPlan, is_wide};
ghost use Rattle.nf_model.specs.Levels.{Step, ReadsBelow, by_levels};
ghost use Rattle.nf_model.specs.Members.{IsOfKeys, IsInTime};
ghost use Rattle.nf_model.specs.Pools.{Inputs, pool, held_over, holds_all, candidates, judged};
ghost use Rattle.nf_model.specs.Changes.{Content, IsContent, no_inputs, with_input};

/// The pools solve their equation: the pool of each name of a plan is its candidates, judged, and
/// these are its inputs and the results of its rules over the pools. All candidates of a wide name
/// are held.
pub fn pools_are_judged_candidates()
    ensures { (plan : Plan) (full : Bool) (inputs : Inputs) (n : ℕ) → IsPlan plan
        → n < length plan.names
        → pool plan full inputs n
        ≡ judged (holds_all plan full n) (candidates plan full inputs n) }
{}

/// Lists that are made by levels solve the equation of their step, where it reads lower levels alone
/// (`solved`), and the step of pools does (`pools`).
pub fn lists_by_levels_are_solved()
    ensures solved { (plan : Plan) (step : Step) (n : ℕ) → ReadsBelow plan step
        → n < length plan.names
        → by_levels plan step n ≡ step (by_levels plan step) n }
    ensures pools { (plan : Plan) (full : Bool) (inputs : Inputs) → IsPlan plan
        → ReadsBelow plan (held_over plan full inputs) }
{}

/// A plan without inputs is a content (`begin`), and a content stays one where an interval of a name of
/// the plan that isn't wide is entered (`step`).
pub fn contents_stay()
    ensures begin { (plan : Plan) (full : Bool) → IsPlan plan → IsContent (no_inputs plan full) }
    ensures step { (content : Content) (n : ℕ) (i : Interval) → IsContent content
        → n < length content.plan.names → is_wide content.plan n ≡ false
        → IsOfKeys content.plan n i → IsInTime i
        → IsContent (with_input n i content) }
{}
