//! The six rules as trees.

ghost use Rattle.std.specs.Prelude.{◌≡◌, ◌∷◌, [], IfOk};
ghost use Rattle.nf_drill.specs.Rules as spec;

use nf_core::{Atom, BinOp, Body, Entry, EntryList, Expr, NoMemory, Op, Rule, RuleList, Text, Xop};
use sqlite_items::Boxed;
use std::alloc::Global;

/// The six rules of `drill`, in order (`drill_rules` of specs/Rules.antt).
pub fn drill_rules(alloc: Global) -> Result<RuleList, NoMemory>
    ensures { IfOk result (λ rules. rules ≡ spec.drill_rules) }
{
    let mut rules = RuleList::new(alloc);
    rules.push(pair_rule(alloc)?)?;
    rules.push(lone_rule(alloc)?)?;
    rules.push(reach_rule(alloc)?)?;
    rules.push(hit_in_reach_rule(alloc)?)?;
    rules.push(hit_of_pair_rule(alloc)?)?;
    rules.push(calm_rule(alloc)?)?;
    Ok(rules)
}

/// `pair :- a coincide b map { k -> b.k }`
fn pair_rule(alloc: Global) -> Result<Rule, NoMemory>
    ensures { IfOk result (λ rule. rule ≡ spec.pair_rule) }
{
    let mut entries = EntryList::new(alloc);
    entries.push(Entry {
        key: Text::new(alloc, "k")?,
        value: Expr::Key(Text::new(alloc, "b")?, Text::new(alloc, "k")?),
    })?;
    Ok(Rule {
        head: Text::new(alloc, "pair")?,
        body: Body::Pair(atom(alloc, "a")?, Op::Coincide, atom(alloc, "b")?),
        filter: None,
        entries,
        start: None,
        stop: None,
    })
}

/// `lone :- a unless contain c`
fn lone_rule(alloc: Global) -> Result<Rule, NoMemory>
    ensures { IfOk result (λ rule. rule ≡ spec.lone_rule) }
{
    let body = Body::Unless(atom(alloc, "a")?, Xop::Contain, atom(alloc, "c")?);
    plain(alloc, "lone", body)
}

/// `reach :- a end a.begin + 4`
fn reach_rule(alloc: Global) -> Result<Rule, NoMemory>
    ensures { IfOk result (λ rule. rule ≡ spec.reach_rule) }
{
    let start = Boxed::new(alloc, Expr::Start(Text::new(alloc, "a")?))?;
    let four = Boxed::new(alloc, Expr::Int(4))?;
    Ok(Rule {
        head: Text::new(alloc, "reach")?,
        body: Body::One(atom(alloc, "a")?),
        filter: None,
        entries: EntryList::new(alloc),
        start: None,
        stop: Some(Expr::Bin(BinOp::Add, start, four)),
    })
}

/// `hit :- d during reach`
fn hit_in_reach_rule(alloc: Global) -> Result<Rule, NoMemory>
    ensures { IfOk result (λ rule. rule ≡ spec.hit_in_reach_rule) }
{
    let body = Body::Pair(atom(alloc, "d")?, Op::During, atom(alloc, "reach")?);
    plain(alloc, "hit", body)
}

/// `hit :- pair`
fn hit_of_pair_rule(alloc: Global) -> Result<Rule, NoMemory>
    ensures { IfOk result (λ rule. rule ≡ spec.hit_of_pair_rule) }
{
    let body = Body::One(atom(alloc, "pair")?);
    plain(alloc, "hit", body)
}

/// `calm :- reach unless contain hit`
fn calm_rule(alloc: Global) -> Result<Rule, NoMemory>
    ensures { IfOk result (λ rule. rule ≡ spec.calm_rule) }
{
    let body = Body::Unless(atom(alloc, "reach")?, Xop::Contain, atom(alloc, "hit")?);
    plain(alloc, "calm", body)
}

/// An atom without a label of its own.
fn atom(alloc: Global, name: &str) -> Result<Atom, NoMemory>
    ensures { IfOk result (λ atom. atom ≡ spec.atom_of name.now) }
{
    Ok(Atom {
        label: Text::new(alloc, name)?,
        name: Text::new(alloc, name)?,
    })
}

/// A rule of a head and a body alone.
fn plain(alloc: Global, head: &str, body: Body) -> Result<Rule, NoMemory>
    ensures { IfOk result (λ rule. rule ≡ spec.plain head.now body) }
{
    Ok(Rule {
        head: Text::new(alloc, head)?,
        body,
        filter: None,
        entries: EntryList::new(alloc),
        start: None,
        stop: None,
    })
}
