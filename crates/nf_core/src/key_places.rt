//! The keys of names, by number: what rules read under a name's labels, and what they map into it.

ghost use Rattle.std.specs.Prelude.{◌≡◌, ◌^◌, ◌<◌, [], ◌∷◌, length, map, option_to_list, bytes_eq, All, Contains, IfOk, OnOk, if◌then◌else◌};
ghost use Rattle.std.specs.List.{IsDistinct};
ghost use Rattle.std.proofs.Common.{replicate};
ghost use Rattle.nf_core.specs.Texts.{text_eq};
ghost use Rattle.nf_core.specs.Trees.{expressions_of, values_of};
ghost use Rattle.nf_core.specs.inner.Collected.{AreGiven, put_in};
ghost use Rattle.nf_core.specs.Written.{names_in, names_of, keys_of_name, keys_read, keys_read_of, keys_read_in, keys_mapped, keys_mapped_in, keys_read_by, keys_by_rule};

use crate::errors::NoMemory;
use crate::lists::ListOf;
use crate::names::Names;
use crate::numbering::number_of;
use crate::sorted_texts::SortedTexts;
use crate::text_sets::TextSet;
use crate::texts::Text;
use crate::trees::{Atom, Body, EntryList, Expr, Rule, RuleList};
use std::alloc::Global;

/// The keys of each of the names of some rules, in the order of their numbers: those that a rule reads
/// from an atom of the name or maps into it as a head (`keys_of_name` of specs/Written). The rules are
/// walked once.
pub fn keys_by_number(
    alloc: Global,
    names: &Names,
    rules: &RuleList,
) -> Result<ListOf<TextSet>, NoMemory>
    requires named { names.now ≡ names_of rules.now }
    requires few { length names.now < 2 ^ 32 }
    ensures { IfOk result (λ keys. keys ≡ map (keys_of_name rules.now) names.now) }
{
    let mut keys = no_keys(alloc, names.len())?;
    for rule in rules.as_slice() {
        add_keys(alloc, names, rule, keys.as_mut_slice())?;
    }
    by_place(alloc, keys)
}

/// No keys for each of some names.
fn no_keys(alloc: Global, names: usize) -> Result<Vec<SortedTexts>, NoMemory>
    ensures { IfOk result (λ keys. keys.items ≡ replicate names []) }
{
    let mut keys = Vec::new(alloc);
    for _ in 0..names {
        keys.push(SortedTexts::new(alloc))?;
    }
    Ok(keys)
}

/// The keys of each name by place.
fn by_place(alloc: Global, keys: Vec<SortedTexts>) -> Result<ListOf<TextSet>, NoMemory>
    ensures { IfOk result (λ list. list ≡ keys.items) }
{
    let mut list = ListOf::new(alloc);
    for texts in keys {
        list.push(texts.into_set(alloc)?)?;
    }
    Ok(list)
}

/// Gives each name the keys that a rule reads from its atoms, and the head those that it maps.
fn add_keys(
    alloc: Global,
    names: &Names,
    rule: &Rule,
    keys: &mut [SortedTexts],
) -> Result<(), NoMemory>
    requires few { length names.now < 2 ^ 32 }
    requires distinct { IsDistinct text_eq names.now }
    requires each { length keys.old ≡ length names.now }
    requires known { All (Contains names.now) (names_in rule.now) }
    ensures { OnOk result (AreGiven names.now (keys_by_rule rule.now) keys.old keys.new) }
{
    add_read_keys(alloc, names, rule, keys)?;
    add_mapped_keys(alloc, names, rule, keys)
}

/// Gives each name the keys that a rule reads from its atoms.
fn add_read_keys(
    alloc: Global,
    names: &Names,
    rule: &Rule,
    keys: &mut [SortedTexts],
) -> Result<(), NoMemory>
    requires few { length names.now < 2 ^ 32 }
    requires distinct { IsDistinct text_eq names.now }
    requires each { length keys.old ≡ length names.now }
    requires known { All (Contains names.now) (names_in rule.now) }
    ensures { OnOk result (AreGiven names.now (keys_read_by rule.now) keys.old keys.new) }
{
    match &rule.body {
        Body::One(first) => add_atom(alloc, names, rule, first, keys),
        Body::Pair(first, _, second) | Body::Unless(first, _, second) => {
            add_atom(alloc, names, rule, first, keys)?;
            add_atom(alloc, names, rule, second, keys)
        }
    }
}

/// Gives the name of an atom the keys that a rule reads from this atom.
fn add_atom(
    alloc: Global,
    names: &Names,
    rule: &Rule,
    atom: &Atom,
    keys: &mut [SortedTexts],
) -> Result<(), NoMemory>
    requires few { length names.now < 2 ^ 32 }
    requires distinct { IsDistinct text_eq names.now }
    requires each { length keys.old ≡ length names.now }
    requires known { Contains names.now atom.now.name }
    ensures { OnOk result
        (AreGiven names.now (λ name. keys_read_in name rule.now atom.now) keys.old keys.new) }
{
    let number = number_of(names, &atom.name) as usize;
    add_reads(alloc, &atom.label, rule, &mut keys[number])
}

/// Gives the head of a rule the keys that the rule maps.
fn add_mapped_keys(
    alloc: Global,
    names: &Names,
    rule: &Rule,
    keys: &mut [SortedTexts],
) -> Result<(), NoMemory>
    requires few { length names.now < 2 ^ 32 }
    requires distinct { IsDistinct text_eq names.now }
    requires each { length keys.old ≡ length names.now }
    requires known { Contains names.now rule.now.head }
    ensures { OnOk result
        (AreGiven names.now (λ name. keys_mapped_in name rule.now) keys.old keys.new) }
{
    let number = number_of(names, &rule.head) as usize;
    add_mapped(alloc, &rule.entries, &mut keys[number])
}

/// Puts the keys of a map in.
#[tactic(auto, using(crate::proofs::CollectedKeyLemmas::fold_map_more))]
fn add_mapped(alloc: Global, entries: &EntryList, keys: &mut SortedTexts) -> Result<(), NoMemory>
    ensures { OnOk result (keys.new ≡ put_in keys.old (keys_mapped entries.now)) }
{
    for entry in entries.as_slice() {
        keys.add(alloc, &entry.key)?;
    }
    Ok(())
}

/// Puts the keys that the expressions of a rule read under a label in.
#[tactic(auto, using(crate::proofs::CollectedKeyLemmas::fold_expressions_of))]
fn add_reads(
    alloc: Global,
    label: &Text,
    rule: &Rule,
    keys: &mut SortedTexts,
) -> Result<(), NoMemory>
    ensures { OnOk result
        (keys.new ≡ put_in keys.old (keys_read_of label.now (expressions_of rule.now))) }
{
    add_reads_of_clause(alloc, label, &rule.filter, keys)?;
    add_reads_of_map(alloc, label, &rule.entries, keys)?;
    add_reads_of_clause(alloc, label, &rule.start, keys)?;
    add_reads_of_clause(alloc, label, &rule.stop, keys)
}

/// Puts the keys that the values of a map read under a label in.
#[tactic(auto, using(crate::proofs::CollectedKeyLemmas::fold_flat_map_more))]
fn add_reads_of_map(
    alloc: Global,
    label: &Text,
    entries: &EntryList,
    keys: &mut SortedTexts,
) -> Result<(), NoMemory>
    ensures { OnOk result
        (keys.new ≡ put_in keys.old (keys_read_of label.now (values_of entries.now))) }
{
    for entry in entries.as_slice() {
        add_reads_of(alloc, label, &entry.value, keys)?;
    }
    Ok(())
}

/// Puts the keys that a clause reads under a label in, where there is that clause.
fn add_reads_of_clause(
    alloc: Global,
    label: &Text,
    expr: &Option<Expr>,
    keys: &mut SortedTexts,
) -> Result<(), NoMemory>
    ensures { OnOk result
        (keys.new ≡ put_in keys.old (keys_read_of label.now (option_to_list expr.now))) }
{
    match expr {
        Some(expr) => add_reads_of(alloc, label, expr, keys),
        None => Ok(()),
    }
}

/// Puts the keys that an expression reads under a label in. It calls itself for each operand, so it
/// stands as many calls deep as the expression has nodes on a way down, which is at most one more than
/// it has operators: at most 257 calls in a rule.
#[tactic(auto, using(std::proofs::lemmas::Grind::common_steps), unfolding(crate::specs::Written::keys_read, crate::specs::Written::keys_at_node))]
fn add_reads_of(
    alloc: Global,
    label: &Text,
    expr: &Expr,
    keys: &mut SortedTexts,
) -> Result<(), NoMemory>
    ensures { OnOk result (keys.new ≡ put_in keys.old (keys_read label.now expr.now)) }
{
    match expr {
        Expr::Key(read, key) => add_read(alloc, label, read, key, keys),
        Expr::Neg(operand) => add_reads_of(alloc, label, operand.get(), keys),
        Expr::Not(operand) => add_reads_of(alloc, label, operand.get(), keys),
        Expr::Bin(_, left, right) => {
            add_reads_of(alloc, label, left.get(), keys)?;
            add_reads_of(alloc, label, right.get(), keys)
        }
        _ => Ok(()),
    }
}

/// Puts a key in, where it is read under a label.
fn add_read(
    alloc: Global,
    label: &Text,
    read: &Text,
    key: &Text,
    keys: &mut SortedTexts,
) -> Result<(), NoMemory>
    ensures { OnOk result
        (keys.new ≡ put_in keys.old (if bytes_eq read.now label.now then key.now ∷ [] else [])) }
{
    if read == label {
        return keys.add(alloc, key);
    }
    Ok(())
}
