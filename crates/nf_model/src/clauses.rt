//! The clauses of a rule: whether its members meet `where`, and the result that it builds from
//! them.

ghost use Rattle.std.specs.Option.{option_copied};
ghost use Rattle.std.specs.Prelude.{◌≡◌, ◌+◌, ◌≤◌, IfOk, IsTrue, All, option_to_list, length};
ghost use Rattle.nf_core.specs.Expressions.{reads_within, widths_of};
ghost use Rattle.nf_model.specs.Members.{IsPlanned, IsForLink, CanBeBuiltFrom, HavePlaces, joined, result_terms};
ghost use Rattle.nf_model.specs.Results as spec;
ghost use Rattle.nf_model.specs.Work.{present, values};

use crate::maps::mapped_row;
use nf_core::{Interval, Link, NoMemory, PlanRule, Steps, Term};
use nf_expr::{Seen, eval};
use nf_relations::span;
use std::alloc::Global;
use std::sync::ledger::Ledger;

/// Whether members of a rule's names meet its clause `where`: exactly where the rule has none, or
/// where its value is true (`is_met` of specs/Results). An Undefined value isn't met, nor one of
/// another kind.
///
/// The rule is one of a plan. There is a second member exactly where it has two atoms, and the
/// members' rows have every place that `where` reads of them. The counter rises by 1 where there is
/// a `where`, else by nothing. Takes no memory.
#[tactic(auto, unfolding(crate::specs::Results::is_met))]
pub fn is_met<L: Ledger>(
    rule: &PlanRule,
    first: &Interval,
    second: Option<&Interval>,
    steps: &mut Steps<L>,
) -> bool
    requires planned { IsPlanned rule.now }
    requires members { IsForLink rule.now.link (option_copied second) }
    requires places { HavePlaces (option_to_list rule.now.filter) first.now (option_copied second) }
    ensures value { result ≡ spec.is_met rule.now first.now (option_copied second.entry) }
    ensures cost { steps.new ≡ steps.old + present rule.now.filter }
{
    match &rule.filter {
        None => true,
        Some(filter) => matches!(eval(filter, first, second, steps), Some(Seen::Bool(true))),
    }
}

/// The result that a rule builds from members (`built_from` of specs/Results): the span of the
/// members, with its end points replaced by those of `begin` and `end`, and the row of the map. None
/// exactly where no result arises: where an end point is Undefined or no whole number, or where
/// begin is after end.
///
/// The rule is one of a plan. From a rule with one atom it is built from one member, and from an
/// inclusive one from a pair of which the operator's condition holds. An exclusive rule doesn't look
/// at a second member. The members' rows have every place that the map, `begin` and `end` read of
/// them. Each of these is evaluated at most once, and the counter rises by 1 for each, also where
/// memory is wanted.
#[tactic(auto, unfolding(crate::specs::Results::built_by))]
pub fn build<L: Ledger>(
    alloc: Global,
    rule: &PlanRule,
    first: &Interval,
    second: Option<&Interval>,
    steps: &mut Steps<L>,
) -> Result<Option<Interval>, NoMemory>
    requires planned { IsPlanned rule.now }
    requires members { CanBeBuiltFrom rule.now.link first.now (option_copied second) }
    requires places { HavePlaces (result_terms rule.now) first.now
        (joined rule.now.link (option_copied second)) }
    ensures value { IfOk result (λ r. r
        ≡ spec.built_from rule.now first.now (option_copied second.entry)) }
    ensures counted { steps.old ≤ steps.new }
    ensures cost { steps.new ≤ steps.old + values rule.now }
{
    match (rule.link, second) {
        (Link::Pair(op, _), Some(second)) => {
            let (start, stop) = span(op, first.start, first.stop, second.start, second.stop);
            build_over(alloc, rule, start, stop, first, Some(second), steps)
        }
        _ => build_over(alloc, rule, first.start, first.stop, first, None, steps),
    }
}

/// The result of a rule from its members and their span.
#[tactic(auto, unfolding(crate::specs::Results::built))]
fn build_over<L: Ledger>(
    alloc: Global,
    rule: &PlanRule,
    start: i64,
    stop: i64,
    first: &Interval,
    second: Option<&Interval>,
    steps: &mut Steps<L>,
) -> Result<Option<Interval>, NoMemory>
    requires planned { IsPlanned rule.now }
    requires places { HavePlaces (result_terms rule.now) first.now (option_copied second) }
    ensures value { IfOk result (λ r. r
        ≡ spec.built rule.now start stop first.now (option_copied second.entry)) }
    ensures counted { steps.old ≤ steps.new }
    ensures cost { steps.new ≤ steps.old + values rule.now }
{
    let start = end_point(rule.start.as_ref(), start, first, second, steps);
    let stop = end_point(rule.stop.as_ref(), stop, first, second, steps);
    match (start, stop) {
        (Some(start), Some(stop)) if start <= stop => {
            let row = mapped_row(
                alloc,
                rule.entries.as_slice(),
                rule.keys,
                first,
                second,
                steps,
            )?;
            Ok(Some(Interval { start, stop, row }))
        }
        _ => Ok(None),
    }
}

/// An end point: the span's where there is no clause for it, else the clause's whole number. None
/// where its value is none.
fn end_point<L: Ledger>(
    clause: Option<&Term>,
    time: i64,
    first: &Interval,
    second: Option<&Interval>,
    steps: &mut Steps<L>,
) -> Option<i64>
    requires { HavePlaces (option_to_list (option_copied clause)) first.now (option_copied second) }
    ensures value { result
        ≡ spec.end_point (option_copied clause.entry) time first.now (option_copied second.entry) }
    ensures cost { steps.new ≡ steps.old + present (option_copied clause.entry) }
{
    let Some(term) = clause else {
        return Some(time);
    };
    match eval(term, first, second, steps) {
        Some(Seen::Int(n)) => Some(n),
        _ => None,
    }
}
