//! A plan with a wide name, whose rules are given as trees, since no text has such a name.

ghost use Rattle.std.specs.Prelude.{◌≡◌, [], IfOk, None};
ghost use Rattle.nf_core.specs.Trees.{rule_from};
ghost use Rattle.nf_core.specs.Written.{CanBePlanned};

use crate::stopped::{FORM, Stopped};
use nf_core::{Atom, Body, EntryList, Op, Plan, Rule, RuleList, Text};
use nf_order::levels;
use std::alloc::Global;

/// The plan of `|1 :- a before b` and `w :- |1`.
pub fn wide_plan(alloc: Global) -> Result<Plan, Stopped> {
    let rules = wide_rules(alloc)?;
    let levels = levels(alloc, &rules).map_err(|_| FORM)?;
    Ok(Plan::build(alloc, &rules, &levels)?)
}

fn wide_rules(alloc: Global) -> Result<RuleList, Stopped>
    ensures { IfOk result CanBePlanned }
{
    let first = atom_of(alloc, "a")?;
    let second = atom_of(alloc, "b")?;
    let mut rules = RuleList::new(alloc);
    rules.push(rule_of(alloc, "|1", Body::Pair(first, Op::Before, second))?)?;
    rules.push(rule_of(alloc, "w", Body::One(atom_of(alloc, "|1")?))?)?;
    Ok(rules)
}

fn atom_of(alloc: Global, name: &str) -> Result<Atom, Stopped>
    ensures { IfOk result (λ atom. atom ≡ record { label = name.now; name = name.now }) }
{
    Ok(Atom {
        label: Text::new(alloc, name)?,
        name: Text::new(alloc, name)?,
    })
}

// The rule of a head and a body, without clauses.
fn rule_of(alloc: Global, head: &str, body: Body) -> Result<Rule, Stopped>
    ensures { IfOk result (λ rule. rule ≡ rule_from head.now body None [] None None) }
{
    Ok(Rule {
        head: Text::new(alloc, head)?,
        body,
        filter: None,
        entries: EntryList::new(alloc),
        start: None,
        stop: None,
    })
}
