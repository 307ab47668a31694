//! What an evaluator keeps before anything was entered.

ghost use Rattle.std.specs.Prelude.{◌≡◌, ℕ, ◌<◌, [], length, replicate, slice_get, Some, IfOk, OnOk};
ghost use Rattle.nf_core.specs.Plan.{IsPlan};
ghost use Rattle.nf_core.specs.declared.terms.PlanRule as rules;
ghost use Rattle.nf_model.specs.Pools.{holds_all};
ghost use Rattle.nf_engine.specs.inner.Parts.{IsPartOf};
ghost use Rattle.nf_engine.specs.inner.Readers.{AreReaders, IsIndexed};
ghost use Rattle.nf_engine.specs.inner.Rounds.{minimal_at, part_at};

use crate::evaluations::second_number;
use crate::parts::RulePart;
use nf_core::{IntervalSet, ListOf, NoMemory, Plan};
use nf_minimal::Minimal;
use std::alloc::Global;

/// One empty set for each name.
pub fn empty_sets(alloc: Global, names: u32) -> Result<Vec<IntervalSet>, NoMemory>
    ensures { IfOk result (λ sets. sets.items ≡ replicate names []) }
{
    let mut sets = Vec::new(alloc);
    for _name in 0..names {
        sets.push(IntervalSet::new(alloc))?;
    }
    Ok(sets)
}

/// Each name without candidates.
pub fn empty_names(alloc: Global, plan: &Plan, full: bool) -> Result<Vec<Minimal>, NoMemory>
    ensures each { IfOk result (λ names. length names.items ≡ length plan.now.names) }
    ensures all { IfOk result (λ names. (n : ℕ) → n < length plan.now.names
        → (minimal_at names.items n).full ≡ holds_all plan.now full n) }
    ensures none { IfOk result (λ names. (n : ℕ) → (minimal_at names.items n).sources ≡ []) }
{
    let mut names = Vec::new(alloc);
    for name in 0..plan.names() {
        names.push(Minimal::new(alloc, full || plan.is_wide(name)))?;
    }
    Ok(names)
}

/// The part of each rule, where no name has intervals.
pub fn idle_rules(alloc: Global, plan: &Plan) -> Result<Vec<Option<RulePart>>, NoMemory>
    ensures each { IfOk result (λ parts. length parts.items ≡ length plan.now.rules) }
    ensures parts { IfOk result (λ parts. (k : ℕ) (rule : rules.PlanRule)
        → slice_get plan.now.rules k ≡ Some rule
        → IsPartOf rule (λ n. []) (part_at parts.items k)) }
{
    let mut parts = Vec::new(alloc);
    for rule in 0..plan.rules() {
        parts.push(Some(RulePart::new(alloc, plan.rule(rule))?))?;
    }
    Ok(parts)
}

/// Which rules read each name: the numbers of rules.
pub fn index_readers(alloc: Global, plan: &Plan) -> Result<Vec<ListOf<u32>>, NoMemory>
    ensures { IfOk result (λ readers. AreReaders plan.now readers.items) }
{
    let mut readers = no_readers(alloc, plan.names())?;
    for rule in 0..plan.rules() {
        index_rule(plan, rule, &mut readers)?;
    }
    Ok(readers)
}

/// One empty list for each name.
fn no_readers(alloc: Global, names: u32) -> Result<Vec<ListOf<u32>>, NoMemory>
    ensures { IfOk result (λ lists. lists.items ≡ replicate names []) }
{
    let mut lists = Vec::new(alloc);
    for _name in 0..names {
        lists.push(ListOf::new(alloc))?;
    }
    Ok(lists)
}

/// Puts a rule's number into the lists of the names that it reads.
fn index_rule(plan: &Plan, number: u32, readers: &mut Vec<ListOf<u32>>) -> Result<(), NoMemory>
    requires valid { IsPlan plan.now }
    requires number { number < length plan.now.rules }
    requires each { length readers.old.items ≡ length plan.now.names }
    ensures { OnOk result (IsIndexed plan.now number readers.old.items readers.new.items) }
{
    let rule = plan.rule(number);
    let second = second_number(rule);
    readers[rule.first as usize].push(number)?;
    readers[second as usize].push(number)?;
    Ok(())
}
