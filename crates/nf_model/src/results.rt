//! The results of a rule.

ghost use Rattle.std.specs.Prelude.{◌≡◌, ◌++◌, ◌<◌, All, length, None, Some, OnOk, IfOk, filter_map, flat_map, option_to_list};
ghost use Rattle.nf_core.specs.Plan.{body_names};
ghost use Rattle.nf_core.specs.declared.terms.Link.TheVariants.{One};
ghost use Rattle.nf_model.specs.Members.{IsPlanned, IsPairBy, HavePlaces, HaveAllPlaces, clause_terms};
ghost use Rattle.nf_model.specs.Results.{of_one, of_pair};
ghost use Rattle.nf_model.specs.Pools.{of_name, second_of, results_over};

use crate::clauses::{build, is_met};
use crate::exclusive::push_unblocked;
use nf_core::{Interval, IntervalList, IntervalSet, Link, NoMemory, Op, PlanRule, Steps};
use nf_relations::holds;
use std::alloc::Global;
use std::sync::ledger::Ledger;

/// What a rule with one atom gives from an interval.
#[tactic(auto, using(crate::proofs::Public::PlaceLemmas::filter_read, crate::proofs::Public::PlaceLemmas::result_read), unfolding(crate::specs::Results::of_one, crate::specs::Results::built_by))]
fn one_result<L: Ledger>(
    alloc: Global,
    rule: &PlanRule,
    first: &Interval,
    steps: &mut Steps<L>,
) -> Result<Option<Interval>, NoMemory>
    requires planned { IsPlanned rule.now }
    requires one { rule.now.link ≡ One }
    requires places { HavePlaces (clause_terms rule.now) first.now None }
    ensures { IfOk result (λ r. r ≡ of_one rule.now first.now) }
{
    if !is_met(rule, first, None, steps) {
        return Ok(None);
    }
    build(alloc, rule, first, None, steps)
}

/// What an inclusive rule gives from a pair.
#[tactic(auto, using(crate::proofs::Public::PlaceLemmas::filter_read, crate::proofs::Public::PlaceLemmas::result_read), unfolding(crate::specs::Results::of_pair, crate::specs::Results::built_by))]
fn pair_result<L: Ledger>(
    alloc: Global,
    rule: &PlanRule,
    op: Op,
    first: &Interval,
    second: &Interval,
    steps: &mut Steps<L>,
) -> Result<Option<Interval>, NoMemory>
    requires planned { IsPlanned rule.now }
    requires pair { IsPairBy op rule.now.link }
    requires places { HavePlaces (clause_terms rule.now) first.now (Some second.now) }
    ensures { IfOk result (λ r. r ≡ of_pair rule.now op first.now second.now) }
{
    if !holds(op, first.start, first.stop, second.start, second.stop) {
        return Ok(None);
    }
    if !is_met(rule, first, Some(second), steps) {
        return Ok(None);
    }
    build(alloc, rule, first, Some(second), steps)
}

/// Puts a result at the end of a list, where there is one.
pub(crate) fn push_result(
    out: &mut IntervalList,
    interval: Option<Interval>,
) -> Result<(), NoMemory>
    ensures { OnOk result (out.new ≡ out.old ++ option_to_list interval) }
{
    match interval {
        Some(interval) => out.push(interval),
        None => Ok(()),
    }
}

/// Puts what a rule with one atom gives at the end of a list.
fn push_ones<L: Ledger>(
    alloc: Global,
    rule: &PlanRule,
    firsts: &IntervalSet,
    steps: &mut Steps<L>,
    out: &mut IntervalList,
) -> Result<(), NoMemory>
    requires planned { IsPlanned rule.now }
    requires one { rule.now.link ≡ One }
    requires places { All (λ i. HavePlaces (clause_terms rule.now) i None) firsts.now }
    ensures { OnOk result (out.new ≡ out.old ++ filter_map (of_one rule.now) firsts.now) }
{
    for first in firsts.walk() {
        push_result(out, one_result(alloc, rule, first, steps)?)?;
    }
    Ok(())
}

/// Puts what an inclusive rule gives from one first member at the end of a list.
fn push_pairs_of<L: Ledger>(
    alloc: Global,
    rule: &PlanRule,
    op: Op,
    first: &Interval,
    seconds: &IntervalSet,
    steps: &mut Steps<L>,
    out: &mut IntervalList,
) -> Result<(), NoMemory>
    requires planned { IsPlanned rule.now }
    requires pair { IsPairBy op rule.now.link }
    requires places { All (λ j. HavePlaces (clause_terms rule.now) first.now (Some j)) seconds.now }
    ensures { OnOk result (out.new
        ≡ out.old ++ filter_map (of_pair rule.now op first.now) seconds.now) }
{
    for second in seconds.walk() {
        push_result(out, pair_result(alloc, rule, op, first, second, steps)?)?;
    }
    Ok(())
}

/// Puts what an inclusive rule gives at the end of a list.
fn push_pairs<L: Ledger>(
    alloc: Global,
    rule: &PlanRule,
    op: Op,
    firsts: &IntervalSet,
    seconds: &IntervalSet,
    steps: &mut Steps<L>,
    out: &mut IntervalList,
) -> Result<(), NoMemory>
    requires planned { IsPlanned rule.now }
    requires pair { IsPairBy op rule.now.link }
    requires places { All (λ i. All (λ j.
        HavePlaces (clause_terms rule.now) i (Some j)) seconds.now) firsts.now }
    ensures { OnOk result (out.new ≡ out.old
        ++ flat_map (λ i. filter_map (of_pair rule.now op i) seconds.now) firsts.now) }
{
    for first in firsts.walk() {
        push_pairs_of(alloc, rule, op, first, seconds, steps, out)?;
    }
    Ok(())
}

/// Puts the results of a rule at the end of a list, where the pools of the names are these
/// (`results` of specs/Results). Where memory is wanted the list is of no use.
pub(crate) fn push_results<L: Ledger>(
    alloc: Global,
    rule: &PlanRule,
    pools: &[IntervalSet],
    steps: &mut Steps<L>,
    out: &mut IntervalList,
) -> Result<(), NoMemory>
    requires planned { IsPlanned rule.now }
    requires names { All (λ n. n < length pools.now) (body_names rule.now) }
    requires places { HaveAllPlaces rule.now rule.now.link (of_name pools.now rule.now.first)
        (second_of (of_name pools.now) rule.now.link) }
    ensures { OnOk result (out.new ≡ out.old ++ results_over (of_name pools.now) rule.now) }
{
    let firsts = &pools[rule.first as usize];
    match rule.link {
        Link::One => push_ones(alloc, rule, firsts, steps, out),
        Link::Pair(op, second) => {
            push_pairs(alloc, rule, op, firsts, &pools[second as usize], steps, out)
        }
        Link::Unless(xop, second) => {
            let one_name = rule.first == second;
            let others = &pools[second as usize];
            push_unblocked(alloc, rule, xop, one_name, firsts, others, steps, out)
        }
    }
}
