//! Intervals that come to have one more blocker or one fewer, and the results that this makes.

ghost use Rattle.std.specs.Prelude.{◌≡◌, ℕ, ◌+◌, ◌≤◌, [], ◌∷◌, ◌++◌, true, None, Some, IfOk, OnOk, option_to_list};
ghost use Rattle.nf_core.specs.Sets.{IsSet};
ghost use Rattle.nf_model.specs.Members.{IsPlanned, HavePlaces, result_terms};
ghost use Rattle.nf_model.specs.Results as results;
ghost use Rattle.nf_model.specs.Work.{values};
ghost use Rattle.nf_tally.specs.Numbers.{number, one_at, often};
ghost use Rattle.nf_exclude.specs.Exclusions.{IsExclusive};
ghost use Rattle.nf_exclude.specs.inner.Turns.{worth, Turned, CanTurn};

use nf_core::{Interval, IntervalList, NoMemory, PlanRule, Steps};
use nf_model::build;
use nf_tally::Tally;
use std::alloc::Global;
use std::sync::ledger::Ledger;

/// Whether intervals come to have more blockers, or fewer.
#[derive(Debug, Clone, Copy, PartialEq, Eq)]
pub(crate) enum Turn {
    More,
    Fewer,
}

/// What an interval gives by its number of blockers: the rule's result, where it has none.
fn unblocked_result<L: Ledger>(
    alloc: Global,
    rule: &PlanRule,
    first: &Interval,
    blockers: &Tally,
    steps: &mut Steps<L>,
) -> Result<Option<Interval>, NoMemory>
    requires planned { IsPlanned rule.now }
    requires exclusive { IsExclusive rule.now.link }
    requires places { HavePlaces (result_terms rule.now) first.now None }
    ensures value { IfOk result (λ r. (q : _) → often (option_to_list r) q
        ≡ worth rule.now (number blockers.now) q first.now) }
    ensures cost { steps.new ≤ steps.old + values rule.now }
{
    if blockers.number(first) > 0 {
        return Ok(None);
    }
    build(alloc, rule, first, None, steps)
}

/// Puts a result at the end of a list, where there is one.
fn push_result(out: &mut IntervalList, found: Option<Interval>) -> Result<(), NoMemory>
    ensures { OnOk result (out.new ≡ out.old ++ option_to_list found) }
{
    match found {
        Some(found) => out.push(found),
        None => Ok(()),
    }
}

/// Puts what an interval gives at the end of a list.
pub(crate) fn push_unblocked<L: Ledger>(
    alloc: Global,
    rule: &PlanRule,
    first: &Interval,
    blockers: &Tally,
    out: &mut IntervalList,
    steps: &mut Steps<L>,
) -> Result<(), NoMemory>
    requires planned { IsPlanned rule.now }
    requires exclusive { IsExclusive rule.now.link }
    requires places { HavePlaces (result_terms rule.now) first.now None }
    ensures out { OnOk result ((q : _) → often out.new q
        ≡ often out.old q + worth rule.now (number blockers.now) q first.now) }
    ensures cost { steps.new ≤ steps.old + values rule.now }
{
    let found = unblocked_result(alloc, rule, first, blockers, steps)?;
    push_result(out, found)
}

/// Gives an interval one more blocker. Where it had none, its result is lost.
fn raise<L: Ledger>(
    alloc: Global,
    rule: &PlanRule,
    first: &Interval,
    blockers: &mut Tally,
    lost: &mut IntervalList,
    steps: &mut Steps<L>,
) -> Result<(), NoMemory>
    requires planned { IsPlanned rule.now }
    requires exclusive { IsExclusive rule.now.link }
    requires places { HavePlaces (result_terms rule.now) first.now None }
    ensures turned { OnOk result (Turned rule.now (first.now ∷ []) Turn.More blockers.old
        blockers.new lost.old lost.new (one_at first.now)) }
    ensures cost { steps.new ≤ steps.old + values rule.now }
{
    push_unblocked(alloc, rule, first, blockers, lost, steps)?;
    blockers.raise_copy(alloc, first)
}

/// Takes one blocker of an interval away. Where it has none left, its result is found.
fn lower<L: Ledger>(
    alloc: Global,
    rule: &PlanRule,
    first: &Interval,
    blockers: &mut Tally,
    found: &mut IntervalList,
    steps: &mut Steps<L>,
) -> Result<(), NoMemory>
    requires planned { IsPlanned rule.now }
    requires exclusive { IsExclusive rule.now.link }
    requires places { HavePlaces (result_terms rule.now) first.now None }
    requires some { 1 ≤ number blockers.old first.now }
    ensures turned { OnOk result (Turned rule.now (first.now ∷ []) Turn.Fewer blockers.old
        blockers.new found.old found.new (one_at first.now)) }
    ensures cost { steps.new ≤ steps.old + values rule.now }
{
    blockers.lower(first);
    push_unblocked(alloc, rule, first, blockers, found, steps)
}

/// Gives an interval one more blocker, or takes one away.
pub(crate) fn turn_one<L: Ledger>(
    alloc: Global,
    rule: &PlanRule,
    turn: Turn,
    first: &Interval,
    blockers: &mut Tally,
    out: &mut IntervalList,
    steps: &mut Steps<L>,
) -> Result<(), NoMemory>
    requires planned { IsPlanned rule.now }
    requires exclusive { IsExclusive rule.now.link }
    requires places { HavePlaces (result_terms rule.now) first.now None }
    requires enough { CanTurn turn 1 (number blockers.old first.now) }
    ensures turned { OnOk result (Turned rule.now (first.now ∷ []) turn blockers.old blockers.new
        out.old out.new (one_at first.now)) }
    ensures cost { steps.new ≤ steps.old + values rule.now }
{
    match turn {
        Turn::More => raise(alloc, rule, first, blockers, out, steps),
        Turn::Fewer => lower(alloc, rule, first, blockers, out, steps),
    }
}
