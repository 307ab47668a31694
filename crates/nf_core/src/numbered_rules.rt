//! Rules over the numbers of their names, with terms for their expressions.

ghost use Rattle.std.specs.Prelude.{◌≡◌, ◌<◌, ◌^◌, List, length, map, option_map, All, Contains, IfOk, OnOk};
ghost use Rattle.nf_core.specs.inner.Numbered.{HasFewKeys, IsNumbered, keys_at, member_seen, members_seen};
ghost use Rattle.nf_core.specs.Trees.{Rule as RuleOf, IsRule};
ghost use Rattle.nf_core.specs.Written.{names_in, names_of, names_read, keys_of_name, member_by, members_by, term_of, entry_of, first_of, link_of, plan_rule};

use crate::errors::NoMemory;
use crate::lists::ListOf;
use crate::names::Names;
use crate::numbered_terms::{Member, Members, numbered_term};
use crate::numbering::number_of;
use crate::terms::{Link, PlanEntry, PlanEntryList, PlanRule, Term};
use crate::text_sets::TextSet;
use crate::trees::{Atom, Body, Entry, EntryList, Expr, Rule, RuleList};
use std::alloc::Global;

/// Rules over the numbers of their names (`plan_rule` of specs/Written). As a by-product it is said of
/// each rule what holds of all: that its expressions are within the limits (`IsRule` of specs/Trees).
pub fn rules_by_number(
    alloc: Global,
    names: &Names,
    keys: &[TextSet],
    rules: &RuleList,
) -> Result<ListOf<PlanRule>, NoMemory>
    requires named { names.now ≡ names_of rules.now }
    requires keyed { keys.now ≡ map (keys_of_name rules.now) names.now }
    requires few { length names.now < 2 ^ 32 }
    requires few_keys { All (λ list. length list < 2 ^ 32) keys.now }
    ensures rules { IfOk result (λ list. list ≡ map (plan_rule rules.now) rules.now) }
    ensures limits { OnOk result (All IsRule rules.now) }
{
    let mut list = ListOf::new(alloc);
    for rule in rules.as_slice() {
        list.push(numbered_rule(alloc, names, keys, rule)?)?;
    }
    Ok(list)
}

/// A rule over the numbers of its names.
fn numbered_rule(
    alloc: Global,
    names: &Names,
    keys: &[TextSet],
    rule: &Rule,
) -> Result<PlanRule, NoMemory>
    requires few { length names.now < 2 ^ 32 }
    requires few_keys { All (λ list. length list < 2 ^ 32) keys.now }
    requires each { length keys.now ≡ length names.now }
    requires known { All (Contains names.now) (names_in rule.now) }
    ensures rule { IfOk result (IsNumbered names.now keys.now rule.now) }
    ensures limits { IsRule rule.now }
{
    let head = number_of(names, &rule.head);
    let head_keys = &keys[head as usize];
    let members = members_of(names, keys, &rule.body);
    Ok(PlanRule {
        head,
        keys: head_keys.len() as u32,
        first: first_number(names, &rule.body),
        link: numbered_link(names, &rule.body),
        filter: numbered_clause(alloc, &members, &rule.filter)?,
        entries: numbered_map(alloc, &members, head_keys, &rule.entries)?,
        start: numbered_clause(alloc, &members, &rule.start)?,
        stop: numbered_clause(alloc, &members, &rule.stop)?,
    })
}

/// The number of a body's first name.
fn first_number(names: &Names, body: &Body) -> u32
    requires few { length names.now < 2 ^ 32 }
    requires known { All (Contains names.now) (names_read body.now) }
    ensures { (rules : List RuleOf) → names_of rules ≡ names.now
        → result ≡ first_of rules body.now }
{
    match body {
        Body::One(first) | Body::Pair(first, _, _) | Body::Unless(first, _, _) => {
            number_of(names, &first.name)
        }
    }
}

/// How a body's first name is linked to its second one, by that name's number.
fn numbered_link(names: &Names, body: &Body) -> Link
    requires few { length names.now < 2 ^ 32 }
    requires known { All (Contains names.now) (names_read body.now) }
    ensures { (rules : List RuleOf) → names_of rules ≡ names.now
        → result ≡ link_of rules body.now }
{
    match body {
        Body::One(_) => Link::One,
        Body::Pair(_, op, second) => Link::Pair(*op, number_of(names, &second.name)),
        Body::Unless(_, xop, second) => Link::Unless(*xop, number_of(names, &second.name)),
    }
}

/// The members of a body as its rule's expressions read them.
fn members_of<'a>(names: &Names, keys: &'a [TextSet], body: &'a Body) -> Members<'a>
    requires few { length names.now < 2 ^ 32 }
    requires each { length keys.now ≡ length names.now }
    requires known { All (Contains names.now) (names_read body.now) }
    ensures { members_seen result ≡ members_by (keys_at names.now keys.now) body.now }
{
    match body {
        Body::One(first) => Members {
            first: member(names, keys, first),
            second: None,
        },
        Body::Pair(first, _, second) | Body::Unless(first, _, second) => Members {
            first: member(names, keys, first),
            second: Some(member(names, keys, second)),
        },
    }
}

/// An atom as the expressions of a rule read it.
fn member<'a>(names: &Names, keys: &'a [TextSet], atom: &'a Atom) -> Member<'a>
    requires few { length names.now < 2 ^ 32 }
    requires each { length keys.now ≡ length names.now }
    requires known { Contains names.now atom.now.name }
    ensures { member_seen result ≡ member_by (keys_at names.now keys.now) atom.now }
{
    Member {
        label: &atom.label,
        keys: &keys[number_of(names, &atom.name) as usize],
    }
}

/// The term of a clause, where there is that clause.
fn numbered_clause(
    alloc: Global,
    members: &Members<'_>,
    expr: &Option<Expr>,
) -> Result<Option<Term>, NoMemory>
    requires few { All HasFewKeys (members_seen members.now) }
    ensures { IfOk result (λ t. t ≡ option_map (term_of (members_seen members.now)) expr.now) }
{
    match expr {
        Some(expr) => Ok(Some(numbered_term(alloc, members, expr)?)),
        None => Ok(None),
    }
}

/// The entries of a map over the keys of the head.
fn numbered_map(
    alloc: Global,
    members: &Members<'_>,
    keys: &TextSet,
    entries: &EntryList,
) -> Result<PlanEntryList, NoMemory>
    requires few { All HasFewKeys (members_seen members.now) }
    requires few_keys { length keys.now < 2 ^ 32 }
    ensures { IfOk result
        (λ list. list ≡ map (entry_of keys.now (members_seen members.now)) entries.now) }
{
    let mut list = PlanEntryList::new(alloc);
    for entry in entries.as_slice() {
        list.push(numbered_entry(alloc, members, keys, entry)?)?;
    }
    Ok(list)
}

/// An entry of a map over the keys of the head.
fn numbered_entry(
    alloc: Global,
    members: &Members<'_>,
    keys: &TextSet,
    entry: &Entry,
) -> Result<PlanEntry, NoMemory>
    requires few { All HasFewKeys (members_seen members.now) }
    requires few_keys { length keys.now < 2 ^ 32 }
    ensures { IfOk result (λ made. made ≡ entry_of keys.now (members_seen members.now) entry.now) }
{
    Ok(PlanEntry {
        place: keys.place_of(entry.key.as_str()) as u32,
        value: numbered_term(alloc, members, &entry.value)?,
    })
}
