//! What exclusive rules give.

ghost use Rattle.std.specs.List.{list_any};
ghost use Rattle.std.specs.Prelude.{◌≡◌, ◌&&◌, ◌++◌, All, None, Some, OnOk, IfOk, filter_map, option_to_list};
ghost use Rattle.nf_core.specs.Intervals.{same};
ghost use Rattle.nf_model.specs.Members.{IsPlanned, IsUnlessBy, HavePlaces, result_terms};
ghost use Rattle.nf_model.specs.Results as spec;

use crate::clauses::{build, is_met};
use crate::results::push_result;
use nf_core::{Interval, IntervalList, IntervalSet, NoMemory, PlanRule, Steps, Xop};
use nf_relations::blocks;
use std::alloc::Global;
use std::sync::ledger::Ledger;

/// Whether two intervals are one, where both atoms of the rule have one name.
fn is_itself(one_name: bool, first: &Interval, second: &Interval) -> bool
    ensures { result ≡ (one_name && same first.now second.now) }
{
    one_name && first == second
}

/// Whether the second interval faces the first one (`faces` of specs/Results): it blocks it by the
/// operator, and isn't that interval itself.
#[tactic(auto, unfolding(crate::specs::Results::faces))]
fn faces(xop: Xop, one_name: bool, first: &Interval, second: &Interval) -> bool
    ensures { result ≡ spec.faces xop one_name first.now second.now }
{
    if is_itself(one_name, first, second) {
        return false;
    }
    blocks(xop, first.start, first.stop, second.start, second.stop)
}

/// Whether the second interval is a blocker of the first one (`is_blocker` of specs/Results): it faces
/// it, and the pair meets `where`.
#[tactic(auto, unfolding(crate::specs::Results::is_blocker))]
fn is_blocker<L: Ledger>(
    rule: &PlanRule,
    xop: Xop,
    one_name: bool,
    first: &Interval,
    second: &Interval,
    steps: &mut Steps<L>,
) -> bool
    requires planned { IsPlanned rule.now }
    requires unless { IsUnlessBy xop rule.now.link }
    requires places { HavePlaces (option_to_list rule.now.filter) first.now (Some second.now) }
    ensures { result ≡ spec.is_blocker rule.now xop one_name first.now second.now }
{
    if !faces(xop, one_name, first, second) {
        return false;
    }
    is_met(rule, first, Some(second), steps)
}

/// Whether one of some intervals blocks an interval. None after the first blocker is looked at.
fn is_blocked<L: Ledger>(
    rule: &PlanRule,
    xop: Xop,
    one_name: bool,
    first: &Interval,
    others: &IntervalSet,
    steps: &mut Steps<L>,
) -> bool
    requires planned { IsPlanned rule.now }
    requires unless { IsUnlessBy xop rule.now.link }
    requires places { All (λ j.
        HavePlaces (option_to_list rule.now.filter) first.now (Some j)) others.now }
    ensures { result ≡ list_any (spec.is_blocker rule.now xop one_name first.now) others.now }
{
    for second in others.walk() {
        if is_blocker(rule, xop, one_name, first, second, steps) {
            return true;
        }
    }
    false
}

/// What an exclusive rule gives from an interval, where these are the intervals of its second name
/// (`of_unblocked` of specs/Results).
#[tactic(auto, unfolding(crate::specs::Results::of_unblocked, crate::specs::Results::built_by))]
fn unblocked_result<L: Ledger>(
    alloc: Global,
    rule: &PlanRule,
    xop: Xop,
    one_name: bool,
    first: &Interval,
    others: &IntervalSet,
    steps: &mut Steps<L>,
) -> Result<Option<Interval>, NoMemory>
    requires planned { IsPlanned rule.now }
    requires unless { IsUnlessBy xop rule.now.link }
    requires pairs { All (λ j.
        HavePlaces (option_to_list rule.now.filter) first.now (Some j)) others.now }
    requires places { HavePlaces (result_terms rule.now) first.now None }
    ensures { IfOk result (λ r. r
        ≡ spec.of_unblocked rule.now xop one_name others.now first.now) }
{
    if is_blocked(rule, xop, one_name, first, others, steps) {
        return Ok(None);
    }
    build(alloc, rule, first, None, steps)
}

/// Puts what an exclusive rule gives at the end of a list.
pub(crate) fn push_unblocked<L: Ledger>(
    alloc: Global,
    rule: &PlanRule,
    xop: Xop,
    one_name: bool,
    firsts: &IntervalSet,
    others: &IntervalSet,
    steps: &mut Steps<L>,
    out: &mut IntervalList,
) -> Result<(), NoMemory>
    requires planned { IsPlanned rule.now }
    requires unless { IsUnlessBy xop rule.now.link }
    requires pairs { All (λ i. All (λ j.
        HavePlaces (option_to_list rule.now.filter) i (Some j)) others.now) firsts.now }
    requires places { All (λ i. HavePlaces (result_terms rule.now) i None) firsts.now }
    ensures { OnOk result (out.new ≡ out.old
        ++ filter_map (spec.of_unblocked rule.now xop one_name others.now) firsts.now) }
{
    for first in firsts.walk() {
        let result = unblocked_result(alloc, rule, xop, one_name, first, others, steps)?;
        push_result(out, result)?;
    }
    Ok(())
}
