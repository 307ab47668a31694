//! The pools of all names, computed anew from the inputs, level by level.

ghost use Rattle.std.specs.Prelude.{◌≡◌, ◌==◌, ◌<◌, ℕ, [], ◌++◌, All, length, replicate, slice_set, ◌+◌, ◌≤◌, OnOk, IfOk, if◌then◌else◌};
ghost use Rattle.nf_core.specs.Plan.{body_names, level_of};
ghost use Rattle.nf_model.specs.inner.Known.{AreKnown, ArePools};
ghost use Rattle.nf_model.specs.Members.{IsPlanned, HaveAllPlaces, AreOfKeys};
ghost use Rattle.nf_model.specs.Pools.{of_name, second_of, results_over, candidates_over, held_over, holds_all};

use crate::judging::judge;
use crate::results::push_results;
use nf_core::{IntervalList, IntervalSet, NoMemory, Plan, PlanRule, Steps, TryCopy};
use std::alloc::Global;
use std::sync::ledger::Ledger;

/// The intervals of a set as a list.
fn listed(alloc: Global, set: &IntervalSet) -> Result<IntervalList, NoMemory>
    ensures { IfOk result (λ list. list ≡ set.now) }
{
    let mut list = IntervalList::new(alloc);
    for interval in set.walk() {
        list.push(interval.copy(alloc)?)?;
    }
    Ok(list)
}

/// Puts the results of a rule at the end of a list, where its head has this number.
fn push_results_of<L: Ledger>(
    alloc: Global,
    rule: &PlanRule,
    name: u32,
    pools: &[IntervalSet],
    steps: &mut Steps<L>,
    out: &mut IntervalList,
) -> Result<(), NoMemory>
    requires planned { IsPlanned rule.now }
    requires names { All (λ n. n < length pools.now) (body_names rule.now) }
    requires places { HaveAllPlaces rule.now rule.now.link (of_name pools.now rule.now.first)
        (second_of (of_name pools.now) rule.now.link) }
    ensures { OnOk result (out.new ≡ out.old
        ++ (if rule.now.head == name then results_over (of_name pools.now) rule.now else [])) }
{
    if rule.head == name {
        push_results(alloc, rule, pools, steps, out)?;
    }
    Ok(())
}

/// The candidates of a name, where the pools of the names are these (`candidates_over` of
/// specs/Pools).
fn candidates<L: Ledger>(
    alloc: Global,
    plan: &Plan,
    inputs: &[IntervalSet],
    pools: &[IntervalSet],
    name: u32,
    steps: &mut Steps<L>,
) -> Result<IntervalList, NoMemory>
    requires inputs { length inputs.now ≡ length plan.now.names }
    requires pools { length pools.now ≡ length plan.now.names }
    requires rows { AreOfKeys plan.now pools.now }
    requires name { name < length plan.now.names }
    ensures { IfOk result (λ list. list
        ≡ candidates_over plan.now inputs.now (of_name pools.now) name) }
{
    let mut out = listed(alloc, &inputs[name as usize])?;
    for rule in 0..plan.rules() {
        push_results_of(alloc, plan.rule(rule), name, pools, steps, &mut out)?;
    }
    Ok(out)
}

/// Whether all candidates of a name are held: under `full`, and where the name is wide.
fn holds_all(plan: &Plan, full: bool, name: u32) -> bool
    requires { name < length plan.now.names }
    ensures { result ≡ holds_all plan.now full name }
{
    full || plan.is_wide(name)
}

/// Sets the list of a name to its judged candidates, where the name has this level.
fn settle<L: Ledger>(
    alloc: Global,
    plan: &Plan,
    full: bool,
    inputs: &[IntervalSet],
    level: u32,
    name: u32,
    steps: &mut Steps<L>,
    pools: &mut Vec<IntervalSet>,
) -> Result<(), NoMemory>
    requires inputs { length inputs.now ≡ length plan.now.names }
    requires pools { length pools.old.items ≡ length plan.now.names }
    requires rows { AreOfKeys plan.now pools.old.items }
    requires name { name < length plan.now.names }
    ensures { OnOk result (pools.new.items
        ≡ (if level_of plan.now name == level
        then slice_set pools.old.items name
        (held_over plan.now full inputs.now (of_name pools.old.items) name)
        else pools.old.items)) }
{
    if plan.level(name) == level {
        let candidates = candidates(alloc, plan, inputs, pools.as_slice(), name, steps)?;
        let all = holds_all(plan, full, name);
        pools[name as usize] = judge(alloc, all, candidates.as_slice())?;
    }
    Ok(())
}

/// Sets the lists of the names of a level to their pools, where those of the names below are.
fn fill_level<L: Ledger>(
    alloc: Global,
    plan: &Plan,
    full: bool,
    inputs: &[IntervalSet],
    level: u32,
    steps: &mut Steps<L>,
    pools: &mut Vec<IntervalSet>,
) -> Result<(), NoMemory>
    requires inputs { length inputs.now ≡ length plan.now.names }
    requires rows { AreOfKeys plan.now inputs.now }
    requires known { AreKnown plan.now full inputs.now level pools.old.items }
    ensures { OnOk result (AreKnown plan.now full inputs.now (level + 1) pools.new.items) }
{
    for name in 0..plan.names() {
        settle(alloc, plan, full, inputs, level, name, steps, pools)?;
    }
    Ok(())
}

/// The greatest level of a name.
fn highest_level(plan: &Plan) -> u32
    ensures { (n : ℕ) → n < length plan.now.names → level_of plan.now n ≤ result }
{
    let mut highest = 0;
    for name in 0..plan.names() {
        highest = highest.max(plan.level(name));
    }
    highest
}

/// One empty set for each name.
pub(crate) fn empty_sets(alloc: Global, names: u32) -> Result<Vec<IntervalSet>, NoMemory>
    ensures { IfOk result (λ sets. sets.items ≡ replicate names []) }
{
    let mut sets = Vec::new(alloc);
    for _name in 0..names {
        sets.push(IntervalSet::new(alloc))?;
    }
    Ok(sets)
}

/// The pools of all names (`pool` of specs/Pools). The row of each input has a cell for each key of
/// its name.
pub(crate) fn pools_of<L: Ledger>(
    alloc: Global,
    plan: &Plan,
    full: bool,
    inputs: &[IntervalSet],
    steps: &mut Steps<L>,
) -> Result<Vec<IntervalSet>, NoMemory>
    requires inputs { length inputs.now ≡ length plan.now.names }
    requires rows { AreOfKeys plan.now inputs.now }
    ensures { IfOk result (λ pools. ArePools plan.now full inputs.now pools.items) }
{
    let mut pools = empty_sets(alloc, plan.names())?;
    for level in 0..=highest_level(plan) {
        fill_level(alloc, plan, full, inputs, level, steps, &mut pools)?;
    }
    Ok(pools)
}
