//! One rule's evaluation within a step.

ghost use Rattle.std.specs.Prelude.{◌≡◌, ◌+◌, ◌<◌, ◌≤◌, None, Some, length, slice_get, slice_set, IfOk};
ghost use Rattle.nf_core.specs.declared.terms.PlanRule as rules;
ghost use Rattle.nf_engine.specs.inner.Deltas.{no_change, delta_at};
ghost use Rattle.nf_engine.specs.inner.Evaluations.{CanFollow, HasFollowed, IsReady, IsEvaluated};
ghost use Rattle.nf_engine.specs.inner.Parts as parts;
ghost use Rattle.nf_engine.specs.inner.Rounds.{Passage, IsPassage, held_in, part_at, work_of};

use crate::deltas::Deltas;
use crate::parts::RulePart;
use crate::rounds::Round;
use nf_core::{Delta, IntervalList, Link, NoMemory, Plan, PlanRule, Steps};
use nf_index::Store;
use nf_minimal::Minimal;
use std::alloc::Global;
use std::sync::ledger::Ledger;

/// The delta of what stays. Takes no memory.
pub fn unchanged(alloc: Global) -> Delta
    ensures { result ≡ no_change }
{
    Delta {
        gone: IntervalList::new(alloc),
        come: IntervalList::new(alloc),
    }
}

/// The number of the second name that is read for a rule, which is the first one's where it has one
/// atom.
pub fn second_number(rule: &PlanRule) -> u32
    ensures { result ≡ parts.second_number rule.now.first rule.now.link }
{
    match rule.link {
        Link::One => rule.first,
        Link::Pair(_, name) | Link::Unless(_, name) => name,
    }
}

/// What a name lost and gained so far, where `none` is the delta of what stays.
fn delta_of<'a>(changed: &'a Deltas, none: &'a Delta, name: u32) -> &'a Delta
    requires { none.now ≡ no_change }
    ensures { result.now ≡ delta_at changed.now name }
{
    changed.get(name).unwrap_or(none)
}

/// The held intervals of a name.
fn store_of(names: &[Minimal], name: u32) -> &Store
    requires { name < length names.now }
    ensures { result.now ≡ held_in names.now name }
{
    names[name as usize].held()
}

/// Lets a rule's part follow what its names lost and gained so far, and answers what its results
/// lost and gained.
fn follow<L: Ledger>(
    alloc: Global,
    plan: &Plan,
    number: u32,
    part: RulePart,
    names: &[Minimal],
    changed: &Deltas,
    steps: &mut Steps<L>,
) -> Result<(RulePart, Delta), NoMemory>
    ghost passage: { Passage }
    requires passage { IsPassage plan.now passage }
    requires ready { CanFollow plan.now passage number part names.now changed.now }
    ensures done { IfOk result (λ r. HasFollowed plan.now passage number names.now r.0 r.1) }
    ensures cost { (rule : rules.PlanRule) → slice_get plan.now.rules number ≡ Some rule
        → steps.new ≤ steps.old + work_of plan.now passage rule }
{
    let rule = plan.rule(number);
    let second = second_number(rule);
    let none = unchanged(alloc);
    let firsts = store_of(names, rule.first);
    let seconds = store_of(names, second);
    let d1 = delta_of(changed, &none, rule.first);
    let d2 = delta_of(changed, &none, second);
    let (part, delta) = part.delta(alloc, firsts, seconds, d1, d2, steps)?;
    Ok((part, delta))
}

/// Takes a rule's part out.
fn take_part(parts: &mut Vec<Option<RulePart>>, place: usize) -> Option<RulePart>
    requires { place < length parts.old.items }
    ensures part { result ≡ part_at parts.old.items place }
    ensures rest { parts.new.items ≡ slice_set parts.old.items place None }
{
    parts[place].take()
}

/// Puts a rule's part back.
fn put_part(parts: &mut Vec<Option<RulePart>>, place: usize, part: RulePart)
    requires { place < length parts.old.items }
    ensures { parts.new.items ≡ slice_set parts.old.items place (Some part) }
{
    parts[place] = Some(part);
}

/// Evaluates a rule anew where its names changed, and answers what its results lost and gained. At
/// most its work is done, also where memory is wanted.
pub fn evaluate<L: Ledger>(
    alloc: Global,
    plan: &Plan,
    round: &mut Round,
    number: u32,
    steps: &mut Steps<L>,
) -> Result<Delta, NoMemory>
    ghost passage: { Passage }
    requires passage { IsPassage plan.now passage }
    requires ready { IsReady plan.now passage number round.old }
    ensures done { IfOk result (λ delta.
        IsEvaluated plan.now passage number delta round.old round.new) }
    ensures cost { (rule : rules.PlanRule) → slice_get plan.now.rules number ≡ Some rule
        → steps.new ≤ steps.old + work_of plan.now passage rule }
{
    let Some(part) = take_part(&mut round.rules, number as usize) else {
        unreachable!()
    };
    let names = round.names.as_slice();
    let (part, delta) = follow(alloc, plan, number, part, names, &round.changed, steps)?;
    put_part(&mut round.rules, number as usize, part);
    Ok(delta)
}
