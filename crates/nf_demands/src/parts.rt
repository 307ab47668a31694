//! The demand of one part of a clause.

ghost use Rattle.std.specs.Prelude.{◌≡◌, IfOk};
ghost use Rattle.nf_demands.specs.Demands.{alone_of, demand_of};

use crate::alone::reads;
use crate::bounds::bound_given;
use crate::clauses::Demand;
use crate::keys::same_keys;
use nf_core::{NoMemory, Term, TryCopy};
use std::alloc::Global;

/// The demand of a part, where it gives one (`demand_of` of specs/Demands).
#[tactic(auto, unfolding(crate::specs::Demands::demand_of))]
pub(crate) fn demand(alloc: Global, part: &Term) -> Result<Option<Demand>, NoMemory>
    ensures { IfOk result (λ found. found ≡ demand_of part.now) }
{
    if let Some(keys) = same_keys(part) {
        return Ok(Some(Demand::SameKeys(keys)));
    }
    if let Some(bound) = bound_given(part) {
        return Ok(Some(Demand::Bound(bound)));
    }
    alone(alloc, part)
}

// The test of one member alone that a part is, where it is one.
#[tactic(auto, unfolding(crate::specs::Demands::alone_of))]
fn alone(alloc: Global, part: &Term) -> Result<Option<Demand>, NoMemory>
    ensures { IfOk result (λ found. found ≡ alone_of part.now) }
{
    match (reads(part, 0), reads(part, 1)) {
        (true, false) => Ok(Some(Demand::OfFirst(part.copy(alloc)?))),
        (false, true) => Ok(Some(Demand::OfSecond(part.copy(alloc)?))),
        _ => Ok(None),
    }
}
