//! What deltas of a rule's two lists lose and find.

ghost use Rattle.std.specs.Prelude.{◌≡◌, ℕ, ◌+◌, ◌++◌, ◌≤◌, List, IfOk};
ghost use Rattle.nf_core.specs.Intervals as interval;
ghost use Rattle.nf_core.specs.Sets.{IsSet};
ghost use Rattle.nf_core.specs.declared.terms.Link.TheVariants.{One};
ghost use Rattle.nf_model.specs.Members.{HaveAllPlaces};
ghost use Rattle.nf_model.specs.Work.{rule_work};
ghost use Rattle.nf_pairs.specs.Deltas.{IsDelta};
ghost use Rattle.nf_pairs.specs.Partners.{HasTwoAtoms};
ghost use Rattle.nf_pairs.specs.inner.Walks.{lost_sum, found_sum};
ghost use Rattle.nf_join.specs.Joins.{IsJoinRule};
ghost use Rattle.nf_join.specs.inner.Made.{ArePairsWithPlaces, makes, costs};
ghost use Rattle.nf_join.specs.inner.Exchanges.{AreExchanged, AreOnesWithPlaces, sides_before, sides_now};
ghost use Rattle.nf_tally.specs.Numbers.{often};

use crate::ones::ones_of;
use crate::walks::{push_listed, push_stored};
use nf_core::{Delta, IntervalList, Link, NoMemory, PlanRule, Steps};
use nf_index::{Store, Which};
use std::alloc::Global;
use std::sync::ledger::Ledger;

/// What a rule's results lost and found.
#[derive(Drop)]
pub(crate) struct Exchanged {
    pub(crate) lost: IntervalList,
    pub(crate) found: IntervalList,
}

/// What the lost pairs make: those of what went of the first list with what stayed of the second,
/// and with what went of it, and of what stayed of the first list with what went of the second.
fn lost_of<L: Ledger>(
    alloc: Global,
    rule: &PlanRule,
    first: &Store,
    second: &Store,
    d1: &Delta,
    d2: &Delta,
    steps: &mut Steps<L>,
) -> Result<IntervalList, NoMemory>
    requires rule { IsJoinRule rule.now }
    requires two { HasTwoAtoms rule.now.link }
    requires first { IsDelta first.now d1.now }
    requires second { IsDelta second.now d2.now }
    requires places { ArePairsWithPlaces rule.now first.now second.now d1.now d2.now }
    ensures often { IfOk result (λ lost. (q : interval.Interval) → often lost q
        ≡ lost_sum (makes rule.now q) first.now second.now d1.now d2.now) }
    ensures cost { steps.new ≤ steps.old
        + lost_sum (costs rule.now) first.now second.now d1.now d2.now }
{
    let mut lost = IntervalList::new(alloc);
    let gone1 = d1.gone.as_slice();
    let gone2 = d2.gone.as_slice();
    let come1 = d1.come.as_slice();
    let come2 = d2.come.as_slice();
    push_stored(
        alloc,
        rule,
        Which::Second,
        gone1,
        second,
        come2,
        &mut lost,
        steps,
    )?;
    push_listed(alloc, rule, gone1, gone2, &mut lost, steps)?;
    push_stored(
        alloc,
        rule,
        Which::First,
        gone2,
        first,
        come1,
        &mut lost,
        steps,
    )?;
    Ok(lost)
}

/// What the found pairs make: those of what came of the first list with all of the second, and of
/// what stayed of the first list with what came of the second.
fn found_of<L: Ledger>(
    alloc: Global,
    rule: &PlanRule,
    first: &Store,
    second: &Store,
    d1: &Delta,
    d2: &Delta,
    steps: &mut Steps<L>,
) -> Result<IntervalList, NoMemory>
    requires rule { IsJoinRule rule.now }
    requires two { HasTwoAtoms rule.now.link }
    requires first { IsDelta first.now d1.now }
    requires second { IsDelta second.now d2.now }
    requires places { ArePairsWithPlaces rule.now first.now second.now d1.now d2.now }
    ensures often { IfOk result (λ found. (q : interval.Interval) → often found q
        ≡ found_sum (makes rule.now q) first.now second.now d1.now d2.now) }
    ensures cost { steps.new ≤ steps.old
        + found_sum (costs rule.now) first.now second.now d1.now d2.now }
{
    let mut found = IntervalList::new(alloc);
    let none = IntervalList::new(alloc);
    let come1 = d1.come.as_slice();
    let come2 = d2.come.as_slice();
    push_stored(
        alloc,
        rule,
        Which::Second,
        come1,
        second,
        none.as_slice(),
        &mut found,
        steps,
    )?;
    push_stored(
        alloc,
        rule,
        Which::First,
        come2,
        first,
        come1,
        &mut found,
        steps,
    )?;
    Ok(found)
}

/// A store's intervals ascend, each once.
fn ascends(store: &Store)
    ensures { IsSet store.now }
{
    let _ = store.walk();
}

/// What the results of a rule with two atoms lost and found.
fn exchange_pairs<L: Ledger>(
    alloc: Global,
    rule: &PlanRule,
    first: &Store,
    second: &Store,
    d1: &Delta,
    d2: &Delta,
    steps: &mut Steps<L>,
) -> Result<Exchanged, NoMemory>
    requires rule { IsJoinRule rule.now }
    requires two { HasTwoAtoms rule.now.link }
    requires first { IsDelta first.now d1.now }
    requires second { IsDelta second.now d2.now }
    requires places { ArePairsWithPlaces rule.now first.now second.now d1.now d2.now }
    ensures exchanged { IfOk result (λ r.
        AreExchanged rule.now first.now second.now d1.now d2.now r.lost r.found) }
    ensures cost { steps.new ≤ steps.old + rule_work rule.now
        (sides_before first.now second.now d1.now d2.now) (sides_now first.now second.now) }
{
    ascends(first);
    ascends(second);
    let lost = lost_of(alloc, rule, first, second, d1, d2, steps)?;
    let found = found_of(alloc, rule, first, second, d1, d2, steps)?;
    Ok(Exchanged { lost, found })
}

/// What the results of a rule with one atom lost and found.
fn exchange_ones<L: Ledger>(
    alloc: Global,
    rule: &PlanRule,
    first: &Store,
    d1: &Delta,
    steps: &mut Steps<L>,
) -> Result<Exchanged, NoMemory>
    requires rule { IsJoinRule rule.now }
    requires one { rule.now.link ≡ One }
    requires first { IsDelta first.now d1.now }
    requires places { AreOnesWithPlaces rule.now first.now d1.now }
    ensures exchanged { IfOk result (λ r. (seconds : List interval.Interval) (d2 : _)
        → AreExchanged rule.now first.now seconds d1.now d2 r.lost r.found) }
    ensures cost { (seconds : List interval.Interval) (d2 : _) → steps.new ≤ steps.old
        + rule_work rule.now (sides_before first.now seconds d1.now d2)
        (sides_now first.now seconds) }
{
    ascends(first);
    let gone = d1.gone.as_slice();
    let come = d1.come.as_slice();
    let lost = ones_of(alloc, rule, gone, steps)?;
    let found = ones_of(alloc, rule, come, steps)?;
    Ok(Exchanged { lost, found })
}

/// What the results of a rule lost and found, where deltas of its two lists led to these stores.
/// With one atom the second store and its delta aren't looked at.
pub(crate) fn exchange<L: Ledger>(
    alloc: Global,
    rule: &PlanRule,
    first: &Store,
    second: &Store,
    d1: &Delta,
    d2: &Delta,
    steps: &mut Steps<L>,
) -> Result<Exchanged, NoMemory>
    requires rule { IsJoinRule rule.now }
    requires first { IsDelta first.now d1.now }
    requires second { HasTwoAtoms rule.now.link → IsDelta second.now d2.now }
    requires places { HaveAllPlaces rule.now rule.now.link
        (first.now ++ d1.now.gone) (second.now ++ d2.now.gone) }
    ensures exchanged { IfOk result (λ r.
        AreExchanged rule.now first.now second.now d1.now d2.now r.lost r.found) }
    ensures cost { steps.new ≤ steps.old + rule_work rule.now
        (sides_before first.now second.now d1.now d2.now) (sides_now first.now second.now) }
{
    match rule.link {
        Link::One => exchange_ones(alloc, rule, first, d1, steps),
        Link::Pair(_, _) => exchange_pairs(alloc, rule, first, second, d1, d2, steps),
        Link::Unless(_, _) => unreachable!(),
    }
}
