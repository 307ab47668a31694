//! The pairs of a second interval that came or went with first ones that stayed.

ghost use Rattle.std.specs.Prelude.{◌≡◌, ◌+◌, ◌≤◌, ◌∷◌, [], true, not, ◌&&◌, Some, All, OnOk, option_to_list, sum_by, if◌then◌else◌};
ghost use Rattle.nf_core.specs.Sets.{IsSet, has};
ghost use Rattle.nf_model.specs.Changes.{lacking};
ghost use Rattle.nf_model.specs.Members.{IsPlanned, HavePlaces, result_terms};
ghost use Rattle.nf_model.specs.Work.{clauses, present};
ghost use Rattle.nf_pairs.specs.Partners.{is_related};
ghost use Rattle.nf_pairs.specs.inner.Walks.{unskipped, second_sum};
ghost use Rattle.nf_tally.specs.Numbers.{number};
ghost use Rattle.nf_exclude.specs.Exclusions.{IsExclusive, blocks_in};
ghost use Rattle.nf_exclude.specs.inner.Turns.{itself_in, faces_in, asked, blocked_at, blocked_one, Turned, CanTurn};

use crate::turns::{Turn, turn_one};
use nf_core::{Interval, IntervalList, Link, NoMemory, PlanRule, Steps};
use nf_index::{Store, Which};
use nf_model::is_met;
use nf_pairs::{has_sorted, partners};
use nf_tally::Tally;
use std::alloc::Global;
use std::sync::ledger::Ledger;

/// Whether two intervals are one, where both atoms of an exclusive rule have one name.
fn is_itself(rule: &PlanRule, first: &Interval, second: &Interval) -> bool
    ensures { result ≡ itself_in rule.now first.now second.now }
{
    match rule.link {
        Link::Unless(_, name) => rule.first == name && first == second,
        _ => false,
    }
}

/// Whether an interval that is related to a first one is a blocker of it (`blocks_in` of
/// specs/Exclusions): it isn't that interval itself, and the pair meets `where`.
pub(crate) fn is_blocker<L: Ledger>(
    rule: &PlanRule,
    first: &Interval,
    second: &Interval,
    steps: &mut Steps<L>,
) -> bool
    requires planned { IsPlanned rule.now }
    requires exclusive { IsExclusive rule.now.link }
    requires related { is_related rule.now.link first.now second.now ≡ true }
    requires pair { HavePlaces (option_to_list rule.now.filter) first.now (Some second.now) }
    ensures value { result ≡ blocks_in rule.now first.now second.now }
    ensures cost { steps.new ≤ steps.old
        + (if faces_in rule.now first.now second.now then present rule.now.filter else 0) }
{
    if is_itself(rule, first, second) {
        return false;
    }
    is_met(rule, first, Some(second), steps)
}

/// Turns a first interval by a second one, unless it is to be skipped or that one doesn't block it.
fn turn_pair<L: Ledger>(
    alloc: Global,
    rule: &PlanRule,
    turn: Turn,
    skipped: &[Interval],
    second: &Interval,
    first: &Interval,
    blockers: &mut Tally,
    out: &mut IntervalList,
    steps: &mut Steps<L>,
) -> Result<(), NoMemory>
    requires planned { IsPlanned rule.now }
    requires exclusive { IsExclusive rule.now.link }
    requires sorted { IsSet skipped.now }
    requires related { is_related rule.now.link first.now second.now ≡ true }
    requires pair { HavePlaces (option_to_list rule.now.filter) first.now (Some second.now) }
    requires places { HavePlaces (result_terms rule.now) first.now None }
    requires enough { CanTurn turn (blocked_at rule.now skipped.now second.now first.now first.now)
        (number blockers.old first.now) }
    ensures turned { OnOk result (Turned rule.now (first.now ∷ []) turn blockers.old blockers.new
        out.old out.new (blocked_at rule.now skipped.now second.now first.now)) }
    ensures cost { steps.new ≤ steps.old
        + unskipped skipped.now (λ i. asked rule.now i second.now) first.now }
{
    if has_sorted(skipped, first) {
        return Ok(());
    }
    if !is_blocker(rule, first, second, steps) {
        return Ok(());
    }
    turn_one(alloc, rule, turn, first, blockers, out, steps)
}

/// Turns each stored first interval that a second one blocks, unless it is to be skipped.
pub(crate) fn turn_partners<L: Ledger>(
    alloc: Global,
    rule: &PlanRule,
    turn: Turn,
    skipped: &[Interval],
    second: &Interval,
    firsts: &Store,
    blockers: &mut Tally,
    out: &mut IntervalList,
    steps: &mut Steps<L>,
) -> Result<(), NoMemory>
    requires planned { IsPlanned rule.now }
    requires exclusive { IsExclusive rule.now.link }
    requires sorted { IsSet skipped.now }
    requires firsts { IsSet firsts.now }
    requires pairs { All (λ i.
        HavePlaces (option_to_list rule.now.filter) i (Some second.now)) firsts.now }
    requires places { All (λ i. HavePlaces (result_terms rule.now) i None) firsts.now }
    requires enough { (q : _) → CanTurn turn
        (blocked_one rule.now (lacking firsts.now skipped.now) q second.now)
        (number blockers.old q) }
    ensures turned { OnOk result (Turned rule.now (lacking firsts.now skipped.now) turn blockers.old
        blockers.new out.old out.new
        (λ q. blocked_one rule.now (lacking firsts.now skipped.now) q second.now)) }
    ensures cost { steps.new ≤ steps.old
        + sum_by (unskipped skipped.now (λ i. asked rule.now i second.now)) firsts.now }
{
    for first in partners(rule, Which::First, second, firsts) {
        turn_pair(
            alloc, rule, turn, skipped, second, first, blockers, out, steps,
        )?;
    }
    Ok(())
}

/// Turns the stored first intervals that each of some second ones blocks, unless they are to be
/// skipped.
pub(crate) fn turn_all<L: Ledger>(
    alloc: Global,
    rule: &PlanRule,
    turn: Turn,
    skipped: &[Interval],
    seconds: &[Interval],
    firsts: &Store,
    blockers: &mut Tally,
    out: &mut IntervalList,
    steps: &mut Steps<L>,
) -> Result<(), NoMemory>
    requires planned { IsPlanned rule.now }
    requires exclusive { IsExclusive rule.now.link }
    requires sorted { IsSet skipped.now }
    requires firsts { IsSet firsts.now }
    requires pairs { All (λ j. All (λ i.
        HavePlaces (option_to_list rule.now.filter) i (Some j)) firsts.now) seconds.now }
    requires places { All (λ i. HavePlaces (result_terms rule.now) i None) firsts.now }
    requires enough { (q : _) → CanTurn turn
        (sum_by (blocked_one rule.now (lacking firsts.now skipped.now) q) seconds.now)
        (number blockers.old q) }
    ensures turned { OnOk result (Turned rule.now (lacking firsts.now skipped.now) turn blockers.old
        blockers.new out.old out.new
        (λ q. sum_by (blocked_one rule.now (lacking firsts.now skipped.now) q) seconds.now)) }
    ensures cost { steps.new ≤ steps.old
        + second_sum (asked rule.now) skipped.now firsts.now seconds.now }
{
    for second in seconds {
        turn_partners(
            alloc, rule, turn, skipped, second, firsts, blockers, out, steps,
        )?;
    }
    Ok(())
}
