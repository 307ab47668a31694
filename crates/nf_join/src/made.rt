//! What a pair makes.

ghost use Rattle.std.specs.Prelude.{◌≡◌, ℕ, ◌+◌, ◌≤◌, true, Some, IfOk, OnOk};
ghost use Rattle.nf_core.specs.Intervals as interval;
ghost use Rattle.nf_model.specs.Members.{IsPlanned, HavePlaces, clause_terms};
ghost use Rattle.nf_model.specs.Work.{clauses};
ghost use Rattle.nf_pairs.specs.Partners.{is_related};
ghost use Rattle.nf_join.specs.Joins.{IsJoinRule};
ghost use Rattle.nf_join.specs.inner.Made.{made, makes, costs};
ghost use Rattle.nf_tally.specs.Numbers.{often};

use nf_core::{Interval, IntervalList, NoMemory, PlanRule, Steps};
use nf_model::{build, is_met};
use std::alloc::Global;
use std::sync::ledger::Ledger;

/// What a rule makes of a related pair: `where` is evaluated once, and the clauses of the result at
/// most once.
fn make<L: Ledger>(
    alloc: Global,
    rule: &PlanRule,
    first: &Interval,
    second: &Interval,
    steps: &mut Steps<L>,
) -> Result<Option<Interval>, NoMemory>
    requires rule { IsJoinRule rule.now }
    requires related { is_related rule.now.link first.now second.now ≡ true }
    requires places { HavePlaces (clause_terms rule.now) first.now (Some second.now) }
    ensures value { IfOk result (λ r. r ≡ made rule.now first.now second.now) }
    ensures cost { steps.new ≤ steps.old + clauses rule.now }
{
    if !is_met(rule, first, Some(second), steps) {
        return Ok(None);
    }
    build(alloc, rule, first, Some(second), steps)
}

/// Puts what a related pair makes at the end of a list.
pub(crate) fn push_made<L: Ledger>(
    alloc: Global,
    rule: &PlanRule,
    first: &Interval,
    second: &Interval,
    out: &mut IntervalList,
    steps: &mut Steps<L>,
) -> Result<(), NoMemory>
    requires rule { IsJoinRule rule.now }
    requires related { is_related rule.now.link first.now second.now ≡ true }
    requires places { HavePlaces (clause_terms rule.now) first.now (Some second.now) }
    ensures often { OnOk result ((q : interval.Interval)
        → often out.new q ≡ often out.old q + makes rule.now q first.now second.now) }
    ensures cost { steps.new ≤ steps.old + costs rule.now first.now second.now }
{
    match make(alloc, rule, first, second, steps)? {
        Some(interval) => out.push(interval),
        None => Ok(()),
    }
}
