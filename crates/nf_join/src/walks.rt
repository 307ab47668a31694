//! What the pairs of some intervals with stored ones, and with others, make.

ghost use Rattle.std.specs.Prelude.{◌≡◌, ℕ, ◌+◌, ◌≤◌, true, All, Some, OnOk, sum_by};
ghost use Rattle.nf_core.specs.Intervals as interval;
ghost use Rattle.nf_core.specs.Sets.{IsSet};
ghost use Rattle.nf_model.specs.Members.{HavePlaces, clause_terms};
ghost use Rattle.nf_pairs.specs.Partners.{HasTwoAtoms, is_related, paired};
ghost use Rattle.nf_pairs.specs.inner.Walks.{unskipped};
ghost use Rattle.nf_join.specs.Joins.{IsJoinRule};
ghost use Rattle.nf_join.specs.inner.Made.{HavePairPlaces, makes, costs, stored_sum};
ghost use Rattle.nf_tally.specs.Numbers.{often};

use crate::made::push_made;
use nf_core::{Interval, IntervalList, NoMemory, PlanRule, Steps};
use nf_index::{Store, Which};
use nf_pairs::{has_sorted, is_related, partners};
use std::alloc::Global;
use std::sync::ledger::Ledger;

/// Puts what an interval makes with a partner at the end of a list, unless the partner is to be
/// skipped. `which` of the two members the partner is.
fn push_partner<L: Ledger>(
    alloc: Global,
    rule: &PlanRule,
    which: Which,
    one: &Interval,
    stored: &Interval,
    skip: &[Interval],
    out: &mut IntervalList,
    steps: &mut Steps<L>,
) -> Result<(), NoMemory>
    requires rule { IsJoinRule rule.now }
    requires skip { IsSet skip.now }
    requires related { paired which (is_related rule.now.link) one.now stored.now ≡ true }
    requires places { HavePairPlaces rule.now which one.now stored.now }
    ensures often { OnOk result ((q : interval.Interval) → often out.new q ≡ often out.old q
        + unskipped skip.now (paired which (makes rule.now q) one.now) stored.now) }
    ensures cost { steps.new ≤ steps.old
        + unskipped skip.now (paired which (costs rule.now) one.now) stored.now }
{
    if has_sorted(skip, stored) {
        return Ok(());
    }
    match which {
        Which::First => push_made(alloc, rule, stored, one, out, steps),
        Which::Second => push_made(alloc, rule, one, stored, out, steps),
    }
}

/// Puts what an interval makes with each of its partners in a store at the end of a list, but with
/// those to skip. `which` of the two members the stored ones are.
fn push_partners<L: Ledger>(
    alloc: Global,
    rule: &PlanRule,
    which: Which,
    one: &Interval,
    store: &Store,
    skip: &[Interval],
    out: &mut IntervalList,
    steps: &mut Steps<L>,
) -> Result<(), NoMemory>
    requires rule { IsJoinRule rule.now }
    requires two { HasTwoAtoms rule.now.link }
    requires skip { IsSet skip.now }
    requires places { All (HavePairPlaces rule.now which one.now) store.now }
    ensures often { OnOk result ((q : interval.Interval) → often out.new q ≡ often out.old q
        + stored_sum which (makes rule.now q) skip.now store.now one.now) }
    ensures cost { steps.new ≤ steps.old
        + stored_sum which (costs rule.now) skip.now store.now one.now }
{
    for stored in partners(rule, which, one, store) {
        push_partner(alloc, rule, which, one, stored, skip, out, steps)?;
    }
    Ok(())
}

/// Puts what some intervals make with their partners in a store at the end of a list, but with those
/// to skip. `which` of the two members the stored ones are.
pub(crate) fn push_stored<L: Ledger>(
    alloc: Global,
    rule: &PlanRule,
    which: Which,
    ones: &[Interval],
    store: &Store,
    skip: &[Interval],
    out: &mut IntervalList,
    steps: &mut Steps<L>,
) -> Result<(), NoMemory>
    requires rule { IsJoinRule rule.now }
    requires two { HasTwoAtoms rule.now.link }
    requires skip { IsSet skip.now }
    requires places { All (λ one. All (HavePairPlaces rule.now which one) store.now) ones.now }
    ensures often { OnOk result ((q : interval.Interval) → often out.new q ≡ often out.old q
        + sum_by (stored_sum which (makes rule.now q) skip.now store.now) ones.now) }
    ensures cost { steps.new ≤ steps.old
        + sum_by (stored_sum which (costs rule.now) skip.now store.now) ones.now }
{
    for one in ones {
        push_partners(alloc, rule, which, one, store, skip, out, steps)?;
    }
    Ok(())
}

/// Puts what a pair makes at the end of a list, where it is related.
fn push_pair<L: Ledger>(
    alloc: Global,
    rule: &PlanRule,
    first: &Interval,
    second: &Interval,
    out: &mut IntervalList,
    steps: &mut Steps<L>,
) -> Result<(), NoMemory>
    requires rule { IsJoinRule rule.now }
    requires places { HavePlaces (clause_terms rule.now) first.now (Some second.now) }
    ensures often { OnOk result ((q : interval.Interval)
        → often out.new q ≡ often out.old q + makes rule.now q first.now second.now) }
    ensures cost { steps.new ≤ steps.old + costs rule.now first.now second.now }
{
    if !is_related(rule.link, first, second) {
        return Ok(());
    }
    push_made(alloc, rule, first, second, out, steps)
}

/// Puts what an interval makes with each of some second ones at the end of a list.
fn push_with<L: Ledger>(
    alloc: Global,
    rule: &PlanRule,
    first: &Interval,
    seconds: &[Interval],
    out: &mut IntervalList,
    steps: &mut Steps<L>,
) -> Result<(), NoMemory>
    requires rule { IsJoinRule rule.now }
    requires places { All (λ j. HavePlaces (clause_terms rule.now) first.now (Some j)) seconds.now }
    ensures often { OnOk result ((q : interval.Interval) → often out.new q
        ≡ often out.old q + sum_by (makes rule.now q first.now) seconds.now) }
    ensures cost { steps.new ≤ steps.old + sum_by (costs rule.now first.now) seconds.now }
{
    for second in seconds {
        push_pair(alloc, rule, first, second, out, steps)?;
    }
    Ok(())
}

/// Puts what the pairs of some first intervals and some second ones make at the end of a list.
pub(crate) fn push_listed<L: Ledger>(
    alloc: Global,
    rule: &PlanRule,
    firsts: &[Interval],
    seconds: &[Interval],
    out: &mut IntervalList,
    steps: &mut Steps<L>,
) -> Result<(), NoMemory>
    requires rule { IsJoinRule rule.now }
    requires places { All (λ i. All (λ j.
        HavePlaces (clause_terms rule.now) i (Some j)) seconds.now) firsts.now }
    ensures often { OnOk result ((q : interval.Interval) → often out.new q ≡ often out.old q
        + sum_by (λ i. sum_by (makes rule.now q i) seconds.now) firsts.now) }
    ensures cost { steps.new ≤ steps.old
        + sum_by (λ i. sum_by (costs rule.now i) seconds.now) firsts.now }
{
    for first in firsts {
        push_with(alloc, rule, first, seconds, out, steps)?;
    }
    Ok(())
}
