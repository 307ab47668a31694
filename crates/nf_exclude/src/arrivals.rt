//! The first intervals that went, and those that came: their blockers and their results.

ghost use Rattle.std.specs.Prelude.{◌≡◌, ◌+◌, ◌≤◌, true, Some, None, All, IfOk, OnOk, option_to_list, sum_by, if◌then◌else◌};
ghost use Rattle.nf_core.specs.Sets.{IsSet, has};
ghost use Rattle.nf_model.specs.Members.{IsPlanned, HavePlaces, result_terms};
ghost use Rattle.nf_model.specs.Work.{values};
ghost use Rattle.nf_tally.specs.Numbers.{number, often};
ghost use Rattle.nf_exclude.specs.Exclusions.{IsExclusive, blockers_among};
ghost use Rattle.nf_exclude.specs.inner.Turns.{asked, given};

use crate::pairs::is_blocker;
use crate::turns::push_unblocked;
use nf_core::{Interval, IntervalList, NoMemory, PlanRule, Steps};
use nf_index::{Store, Which};
use nf_pairs::partners;
use nf_tally::Tally;
use std::alloc::Global;
use std::sync::ledger::Ledger;

/// One more than a count, if an interval blocks. Fails where the count stands at its type's end.
fn counted(count: u128, blocks: bool) -> Result<u128, NoMemory>
    ensures { IfOk result (λ n. n ≡ count + (if blocks then 1 else 0)) }
{
    if !blocks {
        return Ok(count);
    }
    let Some(more) = count.checked_add(1) else {
        return Err(NoMemory);
    };
    Ok(more)
}

/// How many stored intervals are blockers of an interval.
fn count_blockers<L: Ledger>(
    rule: &PlanRule,
    first: &Interval,
    seconds: &Store,
    steps: &mut Steps<L>,
) -> Result<u128, NoMemory>
    requires planned { IsPlanned rule.now }
    requires exclusive { IsExclusive rule.now.link }
    requires pairs { All (λ j.
        HavePlaces (option_to_list rule.now.filter) first.now (Some j)) seconds.now }
    ensures count { IfOk result (λ n. n ≡ blockers_among rule.now seconds.now first.now) }
    ensures cost { steps.new ≤ steps.old + sum_by (asked rule.now first.now) seconds.now }
{
    let mut count = 0;
    for second in partners(rule, Which::Second, first, seconds) {
        count = counted(count, is_blocker(rule, first, second, steps))?;
    }
    Ok(count)
}

/// Gives each of some new intervals the number of its blockers. Each of its partners is asked once.
pub(crate) fn count_all<L: Ledger>(
    alloc: Global,
    rule: &PlanRule,
    ones: &[Interval],
    seconds: &Store,
    blockers: &mut Tally,
    steps: &mut Steps<L>,
) -> Result<(), NoMemory>
    requires planned { IsPlanned rule.now }
    requires exclusive { IsExclusive rule.now.link }
    requires sorted { IsSet ones.now }
    requires pairs { All (λ i. All (λ j.
        HavePlaces (option_to_list rule.now.filter) i (Some j)) seconds.now) ones.now }
    requires fresh { (q : _) → has ones.now q ≡ true → number blockers.old q ≡ 0 }
    ensures numbers { OnOk result ((q : _) → number blockers.new q ≡ (if has ones.now q
        then blockers_among rule.now seconds.now q
        else number blockers.old q)) }
    ensures cost { steps.new ≤ steps.old
        + sum_by (λ i. sum_by (asked rule.now i) seconds.now) ones.now }
{
    for first in ones {
        let count = count_blockers(rule, first, seconds, steps)?;
        blockers.set_copy(alloc, first, count)?;
    }
    Ok(())
}

/// Takes the numbers of some intervals away. Takes no memory.
pub(crate) fn clear_all(ones: &[Interval], blockers: &mut Tally)
    ensures { (q : _) → number blockers.new q
        ≡ (if has ones.now q then 0 else number blockers.old q) }
{
    for one in ones {
        blockers.clear(one);
    }
}

/// Puts what some intervals give at the end of a list.
pub(crate) fn push_all<L: Ledger>(
    alloc: Global,
    rule: &PlanRule,
    ones: &[Interval],
    blockers: &Tally,
    out: &mut IntervalList,
    steps: &mut Steps<L>,
) -> Result<(), NoMemory>
    requires planned { IsPlanned rule.now }
    requires exclusive { IsExclusive rule.now.link }
    requires places { All (λ i. HavePlaces (result_terms rule.now) i None) ones.now }
    ensures out { OnOk result ((q : _) → often out.new q
        ≡ often out.old q + given rule.now (number blockers.now) ones.now q) }
    ensures cost { steps.new ≤ steps.old + sum_by (λ i. values rule.now) ones.now }
{
    for first in ones {
        push_unblocked(alloc, rule, first, blockers, out, steps)?;
    }
    Ok(())
}
