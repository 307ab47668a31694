//! Kinds, selections and levels, as they are shown.

use crate::checks::push_item;
use nf_core::{Levels, ModuleList, NoMemory, RuleList};
use nf_modules::select;
use nf_order::levels;
use nf_parse::parse;
use nf_typing::check_rule;
use std::alloc::Global;

/// For each rule of a source `accepted` or its first fault, or the fault of the source.
pub fn kinds_shown(alloc: Global, source: &[u8], between: &str) -> Result<String, NoMemory> {
    match parse(alloc, source) {
        Ok(modules) => kinds_of(alloc, &modules, between),
        Err(fault) => Ok(format!(in alloc; "{fault}")?),
    }
}

fn kinds_of(alloc: Global, modules: &ModuleList, between: &str) -> Result<String, NoMemory> {
    let mut out = String::new(alloc);
    for module in modules.as_slice() {
        for rule in module.rules.as_slice() {
            match check_rule(rule) {
                Ok(()) => push_item(&mut out, between, "accepted")?,
                Err(fault) => {
                    let fault = format!(in alloc; "{fault}")?;
                    push_item(&mut out, between, fault.as_str())?;
                }
            }
        }
    }
    Ok(out)
}

/// The heads of the rules of a source that are selected under a root, or the fault.
pub fn selected_shown(
    alloc: Global,
    source: &[u8],
    root: Option<&str>,
    between: &str,
) -> Result<String, NoMemory> {
    match selected(alloc, source, root)? {
        Ok(rules) => heads_of(alloc, &rules, between),
        Err(fault) => Ok(fault),
    }
}

// The rules of a source that are selected under a root, or the fault as it is shown.
fn selected(
    alloc: Global,
    source: &[u8],
    root: Option<&str>,
) -> Result<Result<RuleList, String>, NoMemory> {
    let modules = match parse(alloc, source) {
        Ok(modules) => modules,
        Err(fault) => return Ok(Err(format!(in alloc; "{fault}")?)),
    };
    match select(alloc, &modules, root) {
        Ok(rules) => Ok(Ok(rules)),
        Err(fault) => Ok(Err(format!(in alloc; "{fault}")?)),
    }
}

fn heads_of(alloc: Global, rules: &RuleList, between: &str) -> Result<String, NoMemory> {
    let mut out = String::new(alloc);
    for rule in rules.as_slice() {
        push_item(&mut out, between, rule.head.as_str())?;
    }
    Ok(out)
}

/// The names of all rules of a source with their levels, in the order in which they first appear, or
/// the first cycle, or the fault of the source.
pub fn levels_shown(alloc: Global, source: &[u8], between: &str) -> Result<String, NoMemory> {
    match selected(alloc, source, None)? {
        Ok(rules) => leveled(alloc, &rules, between),
        Err(fault) => Ok(fault),
    }
}

fn leveled(alloc: Global, rules: &RuleList, between: &str) -> Result<String, NoMemory> {
    if rules.len() > u32::MAX as usize {
        return Ok(String::from_str(alloc, "too many")?);
    }
    match levels(alloc, rules) {
        Ok(levels) => each_shown(alloc, rules, &levels, between),
        Err(fault) => Ok(format!(in alloc; "{fault}")?),
    }
}

// The names of rules with their levels. A name that comes once more is left out.
fn each_shown(
    alloc: Global,
    rules: &RuleList,
    levels: &Levels,
    between: &str,
) -> Result<String, NoMemory> {
    let mut out = String::new(alloc);
    let mut seen = Levels::new(alloc);
    for rule in rules.as_slice() {
        push_level(
            alloc,
            &mut out,
            &mut seen,
            levels,
            rule.head.as_str(),
            between,
        )?;
        for place in 0..2 {
            if let Some(atom) = rule.reads(place) {
                push_level(
                    alloc,
                    &mut out,
                    &mut seen,
                    levels,
                    atom.name.as_str(),
                    between,
                )?;
            }
        }
    }
    Ok(out)
}

fn push_level(
    alloc: Global,
    out: &mut String,
    seen: &mut Levels,
    levels: &Levels,
    name: &str,
    between: &str,
) -> Result<(), NoMemory> {
    if seen.of(name).is_some() {
        return Ok(());
    }
    seen.add(name, 0)?;
    let item = level_shown(alloc, levels, name)?;
    push_item(out, between, item.as_str())
}

/// A name with its level, and `none` where it has none.
pub fn level_shown(alloc: Global, levels: &Levels, name: &str) -> Result<String, NoMemory> {
    match levels.of(name) {
        Some(level) => Ok(format!(in alloc; "{name} {level}")?),
        None => Ok(format!(in alloc; "{name} none")?),
    }
}
