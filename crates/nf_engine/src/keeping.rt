//! The inputs of names with rules.

ghost use Rattle.std.specs.Prelude.{◌≡◌, ◌<◌, false, nat_lt, length, slice_index_or, slice_set, [], Some, None, IfOk, OnOk, if◌then◌else◌};
ghost use Rattle.nf_core.specs.Plan.{level_of};
ghost use Rattle.nf_core.specs.Sets.{inserted};
ghost use Rattle.nf_engine.specs.inner.Engines.{entered_with};

use nf_core::{Interval, IntervalSet, NoMemory, Plan, TryCopy};
use std::alloc::Global;

/// A copy of an interval of a name with rules; those of a name without rules are kept as its
/// candidates.
pub fn kept_copy(
    alloc: Global,
    plan: &Plan,
    name: u32,
    interval: &Interval,
) -> Result<Option<Interval>, NoMemory>
    requires { name < length plan.now.names }
    ensures { IfOk result (λ own. own
        ≡ (if nat_lt 0 (level_of plan.now name) then Some interval.now else None)) }
{
    if plan.level(name) > 0 {
        Ok(Some(interval.copy(alloc)?))
    } else {
        Ok(None)
    }
}

/// Puts an interval that is new, where there is one, into the set of its name.
pub fn keep(
    entered: &mut Vec<IntervalSet>,
    name: u32,
    own: Option<Interval>,
    new: bool,
) -> Result<(), NoMemory>
    requires { name < length entered.old.items }
    ensures { OnOk result (entered.new.items ≡ entered_with entered.old.items name own new) }
{
    if let Some(interval) = own {
        if new {
            entered[name as usize].insert(interval)?;
        }
    }
    Ok(())
}
