//! What the heads' pools lost and gained.

ghost use Rattle.std.specs.Prelude.{◌≡◌, ◌<◌, [], ◌∷◌, ◌++◌, length, not, OnOk, IfOk, if◌then◌else◌};
ghost use Rattle.nf_core.specs.Plan.{is_head};
ghost use Rattle.nf_core.specs.Sets.{has};
ghost use Rattle.nf_model.specs.Changes as changes;
ghost use Rattle.nf_model.specs.Pools.{of_name};

use nf_core::{Change, Interval, IntervalSet, Named, NamedList, NoMemory, Plan, TryCopy};
use std::alloc::Global;

/// Puts an interval of a name at the end of a list, where a set lacks it.
fn push_lacking(
    alloc: Global,
    name: u32,
    interval: &Interval,
    others: &IntervalSet,
    out: &mut NamedList,
) -> Result<(), NoMemory>
    ensures { OnOk result (out.new ≡ out.old
        ++ (if not (has others.now interval.now)
        then record { name = name; interval = interval.now } ∷ []
        else [])) }
{
    if !others.has(interval) {
        let interval = interval.copy(alloc)?;
        out.push(Named { name, interval })?;
    }
    Ok(())
}

/// Puts the intervals of a name that another set lacks at the end of a list.
fn push_all_lacking(
    alloc: Global,
    name: u32,
    members: &IntervalSet,
    others: &IntervalSet,
    out: &mut NamedList,
) -> Result<(), NoMemory>
    ensures { OnOk result (out.new
        ≡ out.old ++ changes.named name (changes.lacking members.now others.now)) }
{
    for member in members.walk() {
        push_lacking(alloc, name, member, others, out)?;
    }
    Ok(())
}

/// Puts the intervals of a head that another set lacks at the end of a list, and none of a name
/// that is no head.
fn push_head_lacking(
    alloc: Global,
    plan: &Plan,
    name: u32,
    members: &IntervalSet,
    others: &IntervalSet,
    out: &mut NamedList,
) -> Result<(), NoMemory>
    requires { name < length plan.now.names }
    ensures { OnOk result (out.new ≡ out.old
        ++ (if is_head plan.now name
        then changes.named name (changes.lacking members.now others.now)
        else [])) }
{
    if plan.is_head(name) {
        push_all_lacking(alloc, name, members, others, out)?;
    }
    Ok(())
}

/// What the heads have in one choice of pools and lack in another.
fn beyond(
    alloc: Global,
    plan: &Plan,
    pools: &[IntervalSet],
    others: &[IntervalSet],
) -> Result<NamedList, NoMemory>
    requires pools { length pools.now ≡ length plan.now.names }
    requires others { length others.now ≡ length plan.now.names }
    ensures { IfOk result (λ list. list
        ≡ changes.beyond plan.now (of_name pools.now) (of_name others.now)) }
{
    let mut out = NamedList::new(alloc);
    for name in 0..plan.names() {
        let place = name as usize;
        push_head_lacking(alloc, plan, name, &pools[place], &others[place], &mut out)?;
    }
    Ok(out)
}

/// What the heads' pools lost and gained (`change_over` of specs/Changes).
pub(crate) fn change_of(
    alloc: Global,
    plan: &Plan,
    before: &[IntervalSet],
    now: &[IntervalSet],
) -> Result<Change, NoMemory>
    requires before { length before.now ≡ length plan.now.names }
    requires now { length now.now ≡ length plan.now.names }
    ensures { IfOk result (λ change. change
        ≡ changes.change_over plan.now (of_name before.now) (of_name now.now)) }
{
    let gone = beyond(alloc, plan, before, now)?;
    let come = beyond(alloc, plan, now, before)?;
    Ok(Change { gone, come })
}
