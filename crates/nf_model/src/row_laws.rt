//! What the intervals in pools hold. Each function does nothing, and its contract is the law.

ghost use Rattle.std.specs.Prelude.{◌≡◌, ℕ, Bool, []};
ghost use Rattle.nf_core.specs.Plan.{Plan, IsPlan};
ghost use Rattle.nf_core.specs.Sets.{IsSet};
ghost use Rattle.nf_model.specs.Pools.{Inputs, of_name, pool};
ghost use Rattle.nf_model.specs.Changes.{no_inputs, pool_of};
ghost use Rattle.nf_model.specs.ProperRows.{AreProper};

/// Every interval in a pool has a row with a cell for each key of its name, no text in it is other than
/// plain, and its numbers are ones that a value may have, where this holds of the inputs (`proper`). A
/// pool is ascending and has each interval once (`sets`). Where nothing was entered the pools are empty
/// (`none`).
pub fn pools_have_proper_rows()
    ensures proper { (plan : Plan) (full : Bool) (inputs : Inputs) → IsPlan plan
        → AreProper plan (of_name inputs) → AreProper plan (pool plan full inputs) }
    ensures sets { (plan : Plan) (full : Bool) (inputs : Inputs) (n : ℕ)
        → IsSet (pool plan full inputs n) }
    ensures none { (plan : Plan) (full : Bool) (n : ℕ) → pool_of (no_inputs plan full) n ≡ [] }
{}
