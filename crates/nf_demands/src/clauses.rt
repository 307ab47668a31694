//! The demands of a clause.

ghost use Rattle.std.specs.Prelude.{◌≡◌, ◌++◌, IfOk, OnOk, option_to_list};
ghost use Rattle.nf_demands.specs.Demands.{demand_of, demands_of};

use crate::bounds::Bound;
use crate::keys::SameKeys;
use crate::parts::demand;
use nf_core::{BinOp, ListOf, NoMemory, Term};
use std::alloc::Global;

/// What a part of a clause demands of every pair for which it is true (`IsMet` of specs/Demands).
#[derive(Debug, Drop)]
pub enum Demand {
    /// A key of the first member and a key of the second are there and are equal.
    SameKeys(SameKeys),
    /// An end of the first member and one of the second are bounded.
    Bound(Bound),
    /// The test, which reads the first member alone, is true of it.
    OfFirst(Term),
    /// The test, which reads the second member alone, is true of it.
    OfSecond(Term),
}

/// A list of demands.
pub type DemandList = ListOf<Demand>;

/// The demands of a clause `where`, in the order of its parts (`demands_of` of specs/Demands).
/// Every pair that meets the clause meets each of them (`demands_are_met`). An error comes where
/// memory is wanted: the call takes some for the list and for copies of the tests of one member.
///
/// The clause is gone down by calls for its operands, which stand at most one more deep than it has
/// operators.
pub fn demands(alloc: Global, clause: &Term) -> Result<DemandList, NoMemory>
    ensures { IfOk result (λ found. found ≡ demands_of clause.now) }
{
    let mut found = ListOf::new(alloc);
    collect(alloc, clause, &mut found)?;
    Ok(found)
}

// Puts the demands of a clause at the end of a list.
#[tactic(auto, using(crate::proofs::PartLemmas::demands_by_node, crate::proofs::PartLemmas::both_collected), unfolding(crate::specs::inner::Collected::demands_at))]
fn collect(alloc: Global, clause: &Term, found: &mut DemandList) -> Result<(), NoMemory>
    ensures { OnOk result (found.new ≡ found.old ++ demands_of clause.now) }
{
    match clause {
        Term::Bin(op, left, right) => match op {
            BinOp::And => {
                collect(alloc, left.get(), found)?;
                collect(alloc, right.get(), found)?;
                Ok(())
            }
            _ => add(alloc, clause, found),
        },
        _ => add(alloc, clause, found),
    }
}

// Puts the demand of a part, where it gives one, at the end of a list.
fn add(alloc: Global, part: &Term, found: &mut DemandList) -> Result<(), NoMemory>
    ensures { OnOk result (found.new ≡ found.old ++ option_to_list (demand_of part.now)) }
{
    if let Some(demand) = demand(alloc, part)? {
        found.push(demand)?;
    }
    Ok(())
}
