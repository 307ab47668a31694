//! What sources are compiled to, as it is shown.

ghost use Rattle.std.specs.Prelude.{All, IfOk};
ghost use Rattle.nf_core.specs.Trees.{IsWritten};

use crate::canonical::canonical_lines;
use crate::checks::push_item;
use crate::expressions::push_term;
use crate::given::Given;
use crate::judged::level_shown;
use nf_core::{Link, NoMemory, Plan, PlanRule, Term, TryCopy};
use nf_spec::{Compiled, SourceList, SpecFault, compile};
use std::alloc::Global;

/// The heads of the rules that sources are compiled to, each with its level, or the refusal.
pub fn compiled_shown(alloc: Global, given: &Given<'_>, between: &str) -> Result<String, NoMemory> {
    match compiled(alloc, given)? {
        Ok(compiled) => heads_shown(alloc, &compiled, between),
        Err(fault) => Ok(format!(in alloc; "{fault}")?),
    }
}

/// The plan that sources are compiled to, a line for each name and one for each rule, or the refusal.
pub fn plan_shown(alloc: Global, given: &Given<'_>, between: &str) -> Result<String, NoMemory> {
    match compiled(alloc, given)? {
        Ok(compiled) => copies_shown(alloc, &compiled.plan, between),
        Err(fault) => Ok(format!(in alloc; "{fault}")?),
    }
}

/// The canonical lines of the rules that sources are compiled to, or the refusal.
pub fn listed_shown(alloc: Global, given: &Given<'_>, between: &str) -> Result<String, NoMemory> {
    match compiled(alloc, given)? {
        Ok(compiled) => canonical_lines(alloc, compiled.rules.as_slice(), between),
        Err(fault) => Ok(format!(in alloc; "{fault}")?),
    }
}

// What the sources are compiled to under the root.
fn compiled(alloc: Global, given: &Given<'_>) -> Result<Result<Compiled, SpecFault>, NoMemory>
    ensures { IfOk result (λ r. IfOk r (λ compiled. All IsWritten compiled.rules)) }
{
    let mut files = SourceList::new(alloc);
    for source in given.sources.iter() {
        files.add(source)?;
    }
    if files.len() > u32::MAX as usize {
        return Err(NoMemory);
    }
    Ok(compile(alloc, &files, given.root))
}

fn heads_shown(alloc: Global, compiled: &Compiled, between: &str) -> Result<String, NoMemory> {
    let mut out = String::new(alloc);
    if compiled.plan.rules() as usize != compiled.rules.len() {
        out.push_str("another count of rules in the plan")?;
    }
    for rule in compiled.rules.as_slice() {
        let item = level_shown(alloc, &compiled.levels, rule.head.as_str())?;
        push_item(&mut out, between, item.as_str())?;
    }
    Ok(out)
}

// The copy of a plan, where it is as the plan.
fn copies_shown(alloc: Global, plan: &Plan, between: &str) -> Result<String, NoMemory> {
    let shown = shown(alloc, plan, between)?;
    let copy = plan.copy(alloc)?;
    if plan_is_as(alloc, &copy, between, shown.as_str())? {
        return Ok(shown);
    }
    Ok(format!(in alloc; "another copy than {shown}")?)
}

fn plan_is_as(alloc: Global, plan: &Plan, between: &str, text: &str) -> Result<bool, NoMemory> {
    let found = shown(alloc, plan, between)?;
    Ok(found.as_str() == text)
}

fn shown(alloc: Global, plan: &Plan, between: &str) -> Result<String, NoMemory> {
    let mut out = String::new(alloc);
    for name in 0..plan.names() {
        let item = name_shown(alloc, plan, name)?;
        push_item(&mut out, between, item.as_str())?;
    }
    for rule in 0..plan.rules() {
        let item = rule_shown(alloc, plan.rule(rule))?;
        push_item(&mut out, between, item.as_str())?;
    }
    Ok(out)
}

// `NAME head level 1 keys K ..`, and `event` where it is no head.
fn name_shown(alloc: Global, plan: &Plan, name: u32) -> Result<String, NoMemory> {
    if name >= plan.names() {
        return Ok(String::from_str(alloc, "no such name")?);
    }
    let text = plan.name(name);
    let what = if plan.is_head(name) { "head" } else { "event" };
    let level = plan.level(name);
    let mut out = format!(in alloc; "{text} {what} level {level}")?;
    if plan.find(text) != Some(name) {
        out.push_str(" found elsewhere")?;
    }
    for place in 0..plan.keys(name) {
        write!(out, " {}", plan.key(name, place))?;
    }
    Ok(out)
}

// `HEAD/KEYS: FIRST OP SECOND` by number, and the clauses.
fn rule_shown(alloc: Global, rule: &PlanRule) -> Result<String, NoMemory> {
    let head = rule.head;
    let keys = rule.keys;
    let mut out = format!(in alloc; "{head}/{keys}: {}", rule.first)?;
    match rule.link {
        Link::One => {}
        Link::Pair(op, second) => write!(out, " {op:?} {second}")?,
        Link::Unless(xop, second) => write!(out, " unless {xop:?} {second}")?,
    }
    push_clause(&mut out, "where", &rule.filter)?;
    for entry in rule.entries.as_slice() {
        write!(out, " {}->", entry.place)?;
        push_term(&mut out, &entry.value)?;
    }
    push_clause(&mut out, "begin", &rule.start)?;
    push_clause(&mut out, "end", &rule.stop)?;
    Ok(out)
}

fn push_clause(out: &mut String, word: &str, clause: &Option<Term>) -> Result<(), NoMemory> {
    if let Some(x) = clause {
        write!(out, " {word} ")?;
        push_term(out, x)?;
    }
    Ok(())
}
