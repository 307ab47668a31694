//! Modules, as they are shown: `NAME IMPORT ..{HEAD=LABEL:NAME ..;}`, each rule with its clauses.

use crate::expressions::push_expr;
use nf_core::{Atom, Body, Entry, Expr, Module, ModuleList, NoMemory, Rule, TryCopy};
use nf_parse::parse;
use std::alloc::Global;

/// Whether a source is read as modules, or its fault.
pub fn accepted_shown(alloc: Global, source: &[u8]) -> Result<String, NoMemory> {
    match parse(alloc, source) {
        Ok(_) => Ok(String::from_str(alloc, "accepted")?),
        Err(fault) => Ok(format!(in alloc; "{fault}")?),
    }
}

/// The modules of a source, or its fault.
pub fn modules_shown(alloc: Global, source: &[u8]) -> Result<String, NoMemory> {
    match parse(alloc, source) {
        Ok(modules) => copies_shown(alloc, &modules),
        Err(fault) => Ok(format!(in alloc; "{fault}")?),
    }
}

/// The modules of the words of a source that stand between spaces, each on a line of its own, or the
/// fault, whose line is then the number of the word.
pub fn words_shown(alloc: Global, source: &[u8]) -> Result<String, NoMemory> {
    let mut lines = Vec::new(alloc);
    for byte in source {
        lines.push(if *byte == b' ' { b'\n' } else { *byte })?;
    }
    lines.push(b'\n')?;
    modules_shown(alloc, lines.as_slice())
}

/// The `where` of the first rule of a source, `none` where it has none, or the fault.
pub fn filter_shown(alloc: Global, source: &[u8]) -> Result<String, NoMemory> {
    match parse(alloc, source) {
        Ok(modules) => first_filter(alloc, &modules),
        Err(fault) => Ok(format!(in alloc; "{fault}")?),
    }
}

fn first_filter(alloc: Global, modules: &ModuleList) -> Result<String, NoMemory> {
    let mut out = String::new(alloc);
    let rule = modules.get(0).and_then(|module| module.rules.get(0));
    match rule.and_then(|rule| rule.filter.as_ref()) {
        Some(filter) => push_expr(&mut out, filter)?,
        None => out.push_str("none")?,
    }
    Ok(out)
}

// Modules, with copies of their rules, whose text differs from theirs where a copy does.
fn copies_shown(alloc: Global, modules: &ModuleList) -> Result<String, NoMemory> {
    let mut out = String::new(alloc);
    for module in modules.as_slice() {
        push_names(&mut out, module)?;
        push_rules(&mut out, module.rules.as_slice())?;
        let rules = module.rules.copy(alloc)?;
        let mut copies = String::new(alloc);
        push_rules(&mut copies, rules.as_slice())?;
        if !out.as_str().ends_with(copies.as_str()) {
            out.push_str("copied as ")?;
            out.push_str(copies.as_str())?;
        }
    }
    Ok(out)
}

fn push_names(out: &mut String, module: &Module) -> Result<(), NoMemory> {
    if let Some(name) = &module.name {
        out.push_str(name.as_str())?;
    }
    for name in module.imports.as_slice() {
        write!(out, " {}", name.as_str())?;
    }
    Ok(())
}

fn push_rules(out: &mut String, rules: &[Rule]) -> Result<(), NoMemory> {
    out.push('{')?;
    for rule in rules {
        push_rule(out, rule)?;
    }
    out.push('}')?;
    Ok(())
}

fn push_rule(out: &mut String, rule: &Rule) -> Result<(), NoMemory> {
    write!(out, "{}=", rule.head.as_str())?;
    push_body(out, &rule.body)?;
    push_clause(out, "where", &rule.filter)?;
    for entry in rule.entries.as_slice() {
        push_entry(out, entry)?;
    }
    push_clause(out, "begin", &rule.start)?;
    push_clause(out, "end", &rule.stop)?;
    out.push(';')?;
    Ok(())
}

fn push_body(out: &mut String, body: &Body) -> Result<(), NoMemory> {
    match body {
        Body::One(first) => push_atom(out, first),
        Body::Pair(first, op, second) => {
            push_atom(out, first)?;
            write!(out, " {op:?} ")?;
            push_atom(out, second)
        }
        Body::Unless(first, xop, second) => {
            push_atom(out, first)?;
            write!(out, " unless {xop:?} ")?;
            push_atom(out, second)
        }
    }
}

fn push_atom(out: &mut String, atom: &Atom) -> Result<(), NoMemory> {
    write!(out, "{}:{}", atom.label.as_str(), atom.name.as_str())?;
    Ok(())
}

fn push_clause(out: &mut String, word: &str, clause: &Option<Expr>) -> Result<(), NoMemory> {
    if let Some(x) = clause {
        write!(out, " {word} ")?;
        push_expr(out, x)?;
    }
    Ok(())
}

fn push_entry(out: &mut String, entry: &Entry) -> Result<(), NoMemory> {
    write!(out, " {}->", entry.key.as_str())?;
    push_expr(out, &entry.value)
}
