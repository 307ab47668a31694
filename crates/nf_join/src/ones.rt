//! What a rule with one atom makes.

ghost use Rattle.std.specs.Prelude.{◌≡◌, ℕ, ◌+◌, ◌≤◌, All, None, IfOk, OnOk, sum_by};
ghost use Rattle.nf_core.specs.Intervals as interval;
ghost use Rattle.nf_core.specs.declared.terms.Link.TheVariants.{One};
ghost use Rattle.nf_model.specs.Members.{HavePlaces, clause_terms};
ghost use Rattle.nf_model.specs.Results.{of_one};
ghost use Rattle.nf_model.specs.Work.{clauses};
ghost use Rattle.nf_join.specs.Joins.{IsJoinRule};
ghost use Rattle.nf_join.specs.inner.Exchanges.{gives};
ghost use Rattle.nf_tally.specs.Numbers.{often};

use nf_core::{Interval, IntervalList, NoMemory, PlanRule, Steps};
use nf_model::{build, is_met};
use std::alloc::Global;
use std::sync::ledger::Ledger;

/// What a rule with one atom makes of an interval.
fn make_one<L: Ledger>(
    alloc: Global,
    rule: &PlanRule,
    one: &Interval,
    steps: &mut Steps<L>,
) -> Result<Option<Interval>, NoMemory>
    requires rule { IsJoinRule rule.now }
    requires one { rule.now.link ≡ One }
    requires places { HavePlaces (clause_terms rule.now) one.now None }
    ensures value { IfOk result (λ r. r ≡ of_one rule.now one.now) }
    ensures cost { steps.new ≤ steps.old + clauses rule.now }
{
    if !is_met(rule, one, None, steps) {
        return Ok(None);
    }
    build(alloc, rule, one, None, steps)
}

/// Puts what a rule with one atom makes of an interval at the end of a list.
fn push_one<L: Ledger>(
    alloc: Global,
    rule: &PlanRule,
    one: &Interval,
    out: &mut IntervalList,
    steps: &mut Steps<L>,
) -> Result<(), NoMemory>
    requires rule { IsJoinRule rule.now }
    requires one { rule.now.link ≡ One }
    requires places { HavePlaces (clause_terms rule.now) one.now None }
    ensures often { OnOk result ((q : interval.Interval)
        → often out.new q ≡ often out.old q + gives rule.now q one.now) }
    ensures cost { steps.new ≤ steps.old + clauses rule.now }
{
    match make_one(alloc, rule, one, steps)? {
        Some(interval) => out.push(interval),
        None => Ok(()),
    }
}

/// What a rule with one atom makes of some intervals.
pub(crate) fn ones_of<L: Ledger>(
    alloc: Global,
    rule: &PlanRule,
    ones: &[Interval],
    steps: &mut Steps<L>,
) -> Result<IntervalList, NoMemory>
    requires rule { IsJoinRule rule.now }
    requires one { rule.now.link ≡ One }
    requires places { All (λ i. HavePlaces (clause_terms rule.now) i None) ones.now }
    ensures often { IfOk result (λ made. (q : interval.Interval)
        → often made q ≡ sum_by (gives rule.now q) ones.now) }
    ensures cost { steps.new ≤ steps.old + sum_by (λ i. clauses rule.now) ones.now }
{
    let mut out = IntervalList::new(alloc);
    for one in ones {
        push_one(alloc, rule, one, &mut out, steps)?;
    }
    Ok(out)
}
