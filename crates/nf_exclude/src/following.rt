//! How the numbers of blockers and the results of an exclusive rule move with two lists.

ghost use Rattle.std.specs.Prelude.{◌≡◌, ◌+◌, ◌≤◌, ◌++◌, IfOk, if◌then◌else◌};
ghost use Rattle.nf_core.specs.Sets.{IsSet, has};
ghost use Rattle.nf_model.specs.Members.{IsPlanned, HaveAllPlaces};
ghost use Rattle.nf_model.specs.Results.{results};
ghost use Rattle.nf_model.specs.Work.{rule_work};
ghost use Rattle.nf_pairs.specs.Deltas.{IsDelta, before};
ghost use Rattle.nf_tally.specs.Numbers.{number, often};
ghost use Rattle.nf_exclude.specs.Exclusions.{IsExclusive, blockers_among, sides};

use crate::arrivals::{clear_all, count_all, push_all};
use crate::pairs::turn_all;
use crate::turns::Turn;
use nf_core::{Delta, IntervalList, NoMemory, PlanRule, Steps};
use nf_index::Store;
use nf_tally::Tally;
use std::alloc::Global;
use std::sync::ledger::Ledger;

/// The numbers of blockers after a step, and the results that it lost and found: each as often as
/// it was lost or found, and both ways where an interval was blocked and freed again.
pub(crate) struct Moves {
    pub(crate) blockers: Tally,
    pub(crate) lost: IntervalList,
    pub(crate) found: IntervalList,
}

/// A store's intervals ascend, each once. Takes no memory.
fn ascend(store: &Store)
    ensures { IsSet store.now }
{
    store.walk();
}

/// Moves the numbers of blockers from two lists before their deltas to those now.
pub(crate) fn follow<L: Ledger>(
    alloc: Global,
    rule: &PlanRule,
    blockers: Tally,
    first: &Store,
    second: &Store,
    d1: &Delta,
    d2: &Delta,
    steps: &mut Steps<L>,
) -> Result<Moves, NoMemory>
    requires planned { IsPlanned rule.now }
    requires exclusive { IsExclusive rule.now.link }
    requires first { IsDelta first.now d1.now }
    requires second { IsDelta second.now d2.now }
    requires places { HaveAllPlaces rule.now rule.now.link (first.now ++ d1.now.gone)
        (second.now ++ d2.now.gone) }
    requires blockers { (q : _) → number blockers q ≡ (if has (before d1.now first.now) q
        then blockers_among rule.now (before d2.now second.now) q
        else 0) }
    ensures blockers { IfOk result (λ m. (q : _) → number m.blockers q
        ≡ (if has first.now q then blockers_among rule.now second.now q else 0)) }
    ensures results { IfOk result (λ m. (q : _)
        → often (results rule.now (before d1.now first.now) (before d2.now second.now)) q
        + often m.found q
        ≡ often (results rule.now first.now second.now) q + often m.lost q) }
    ensures cost { steps.new ≤ steps.old
        + rule_work rule.now (sides (before d1.now first.now) (before d2.now second.now))
        (sides first.now second.now) }
{
    ascend(first);
    ascend(second);
    let mut blockers = blockers;
    let mut lost = IntervalList::new(alloc);
    let mut found = IntervalList::new(alloc);
    let gone = d1.gone.as_slice();
    let come = d1.come.as_slice();
    let ends = d2.gone.as_slice();
    let begins = d2.come.as_slice();
    push_all(alloc, rule, gone, &blockers, &mut lost, steps)?;
    clear_all(gone, &mut blockers);
    turn_all(
        alloc,
        rule,
        Turn::Fewer,
        come,
        ends,
        first,
        &mut blockers,
        &mut found,
        steps,
    )?;
    turn_all(
        alloc,
        rule,
        Turn::More,
        come,
        begins,
        first,
        &mut blockers,
        &mut lost,
        steps,
    )?;
    count_all(alloc, rule, come, second, &mut blockers, steps)?;
    push_all(alloc, rule, come, &blockers, &mut found, steps)?;
    Ok(Moves {
        blockers,
        lost,
        found,
    })
}
