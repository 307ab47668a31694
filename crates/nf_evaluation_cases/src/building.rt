//! What a rule builds from members, and whether they meet its `where`.

ghost use Rattle.std.specs.Prelude.{◌≡◌, ◌≤◌, ◌+◌, All, IfSome, IsTrue, option_to_list};
ghost use Rattle.std.specs.Option.{option_copied};
ghost use Rattle.nf_core.specs.Expressions.{reads_within, widths_of};
ghost use Rattle.nf_core.specs.Plan.{IsPlan, IsRuleOf};
ghost use Rattle.nf_core.specs.declared.terms.PlanEntry.{PlanEntry as EntryOf};
ghost use Rattle.nf_model.specs.Members as members;
ghost use Rattle.nf_model.specs.Work.{clauses};

use crate::events::{member_of, member_shown};
use crate::expressions::may_be_read;
use crate::stopped::{FORM, Stopped};
use nf_core::{Interval, Link, Plan, PlanEntry, PlanRule, Steps, Term};
use nf_model::{build, is_met};
use nf_relations::holds;
use std::alloc::Global;
use std::sync::ledger::Ledger;

/// What the first rule of a plan does with members, of which the second one stands behind ` & `: `met`
/// or `not met`, and the result that is built, or `none`.
pub fn build_answer<L: Ledger>(
    alloc: Global,
    plan: &Plan,
    text: &str,
    steps: &mut Steps<L>,
) -> Result<String, Stopped> {
    let rule = first_rule(plan).ok_or(FORM)?;
    let other = second_name(rule.link);
    if rule.first >= plan.names() || other >= plan.names() {
        return Err(FORM);
    }
    match text.split_once(" & ") {
        None => {
            let first = member_of(alloc, plan, rule.first, text)?;
            built_shown(alloc, plan, rule, &first, None, steps)
        }
        Some((first, second)) => {
            let first = member_of(alloc, plan, rule.first, first)?;
            let second = member_of(alloc, plan, other, second)?;
            built_shown(alloc, plan, rule, &first, Some(&second), steps)
        }
    }
}

// The first rule of a plan.
#[tactic(auto, using(crate::proofs::ReadLemmas::first_rule))]
fn first_rule(plan: &Plan) -> Option<&PlanRule>
    ensures { IfSome result (λ rule. IsRuleOf plan.now rule.now) }
{
    if plan.rules() == 0 {
        return None;
    }
    Some(plan.rule(0))
}

// The name of the second member, 0 where there is none.
fn second_name(link: Link) -> u32 {
    match link {
        Link::One => 0,
        Link::Pair(_, name) | Link::Unless(_, name) => name,
    }
}

// What a rule of a plan does with members that have what it reads.
fn built_shown<L: Ledger>(
    alloc: Global,
    plan: &Plan,
    rule: &PlanRule,
    first: &Interval,
    second: Option<&Interval>,
    steps: &mut Steps<L>,
) -> Result<String, Stopped>
    requires valid { IsPlan plan.now }
    requires rule { IsRuleOf plan.now rule.now }
{
    if !is_for_link(rule.link, first, second) {
        return Err(FORM);
    }
    if !is_filter_read(rule, first, second)
        || !is_result_read(rule, first, joined(rule.link, second))
    {
        return Err(FORM);
    }
    let (met, built) = met_and_built(alloc, rule, first, second, steps)?;
    let met = if met { "met" } else { "not met" };
    match built {
        None => Ok(format!(in alloc; "{met}, none")?),
        Some(interval) => {
            let text = member_shown(alloc, plan, rule.head, &interval)?;
            Ok(format!(in alloc; "{met}, {text}")?)
        }
    }
}

// Whether `where` is met, and which result is built. Both together raise the counter by no more than
// there are clauses.
fn met_and_built<L: Ledger>(
    alloc: Global,
    rule: &PlanRule,
    first: &Interval,
    second: Option<&Interval>,
    steps: &mut Steps<L>,
) -> Result<(bool, Option<Interval>), Stopped>
    requires planned { members.IsPlanned rule.now }
    requires link { members.IsForLink rule.now.link (option_copied second) }
    requires made { members.CanBeBuiltFrom rule.now.link first.now (option_copied second) }
    requires places { members.HavePlaces (option_to_list rule.now.filter)
        first.now (option_copied second) }
    requires made_places { members.HavePlaces (members.result_terms rule.now)
        first.now (members.joined rule.now.link (option_copied second)) }
    ensures cost { steps.new ≤ steps.old + clauses rule.now }
{
    let met = is_met(rule, first, second, steps);
    let built = build(alloc, rule, first, second, steps)?;
    Ok((met, built))
}

// Whether members are those of a link: a pair of which the operator's condition holds, for one.
fn is_for_link(link: Link, first: &Interval, second: Option<&Interval>) -> bool
    ensures link { IsTrue result → members.IsForLink link (option_copied second.entry) }
    ensures made { IsTrue result
        → members.CanBeBuiltFrom link first.now (option_copied second.entry) }
{
    match (link, second) {
        (Link::One, None) | (Link::Unless(_, _), Some(_)) => true,
        (Link::Pair(op, _), Some(second)) => {
            holds(op, first.start, first.stop, second.start, second.stop)
        }
        _ => false,
    }
}

// The second member that a result reads.
fn joined<'a>(link: Link, second: Option<&'a Interval>) -> Option<&'a Interval>
    ensures { option_copied result ≡ members.joined link (option_copied second.entry) }
{
    match link {
        Link::Pair(_, _) => second,
        _ => None,
    }
}

// Whether members have what a `where` reads.
fn is_filter_read(rule: &PlanRule, first: &Interval, second: Option<&Interval>) -> bool
    ensures { IsTrue result → members.HavePlaces (option_to_list rule.now.filter)
        first.now (option_copied second.entry) }
{
    is_optional_read(&rule.filter, first, second)
}

fn is_optional_read(clause: &Option<Term>, first: &Interval, second: Option<&Interval>) -> bool
    ensures { IsTrue result → members.HavePlaces (option_to_list clause.now)
        first.now (option_copied second.entry) }
{
    match clause {
        None => true,
        Some(term) => may_be_read(term, first, second),
    }
}

// Whether members have what a result's clauses read.
#[tactic(auto, using(crate::proofs::ReadLemmas::result_read))]
fn is_result_read(rule: &PlanRule, first: &Interval, second: Option<&Interval>) -> bool
    ensures { IsTrue result → members.HavePlaces (members.result_terms rule.now)
        first.now (option_copied second.entry) }
{
    if !are_entries_read(rule.entries.as_slice(), first, second) {
        return false;
    }
    if !is_optional_read(&rule.start, first, second) {
        return false;
    }
    is_optional_read(&rule.stop, first, second)
}

fn are_entries_read(entries: &[PlanEntry], first: &Interval, second: Option<&Interval>) -> bool
    ensures { IsTrue result → All (λ (entry : EntryOf). IsTrue
        (reads_within (widths_of first.now (option_copied second.entry)) entry.value)) entries.now }
{
    entries
        .iter()
        .all(|entry| may_be_read(&entry.value, first, second))
}
