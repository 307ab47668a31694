//! The reader of the clauses of a rule.

ghost use Rattle.std.specs.Prelude.{◌≡◌, ◌≤◌, [], IfOk, OnOk, All, IfSome, unwrap_or};
ghost use Rattle.nf_grammar.specs.inner.Parsers.{Reads, alone};
ghost use Rattle.nf_parse.specs.inner.Parsers.{TookWord, IsWithin};
ghost use Rattle.nf_parse.specs.inner.Limited.{IsLimited, HasLimitedValue};
ghost use Rattle.nf_parse.specs.inner.RuleReading as spec;

use crate::expressions::expression;
use crate::literals::name_of;
use crate::reader::Reader;
use crate::symbol::Sym;
use nf_core::{Entry, EntryList, Expr, ListOf, MOST_OPEN, MOST_OPERATORS, trees_by_parts};
use nf_grammar::Halt;
use std::alloc::Global;

/// An expression by itself: what stands behind it may have as many operators.
#[tactic(auto, unfolding(crate::specs::inner::RuleReading::limited, nf_grammar::specs::inner::Parsers::alone))]
fn whole(alloc: Global, reader: &mut Reader<'_>) -> Result<Expr, Halt>
    requires { reader.old.room ≤ MOST_OPERATORS }
    ensures reads { Reads (alone spec.limited reader.old) result reader.new }
    ensures within { IsWithin reader.old reader.new }
    ensures limits { IfOk result IsLimited }
{
    trees_by_parts();
    let operators = reader.operators();
    let x = expression(alloc, MOST_OPEN, reader)?;
    reader.allow(operators);
    Ok(x)
}

/// A keyword and its expression.
#[tactic(auto, unfolding(crate::specs::inner::RuleReading::clause))]
pub(crate) fn clause(alloc: Global, word: Sym, reader: &mut Reader<'_>) -> Result<Expr, Halt>
    requires { reader.old.room ≤ MOST_OPERATORS }
    ensures reads { Reads (spec.clause spec.limited word reader.old) result reader.new }
    ensures within { IsWithin reader.old reader.new }
    ensures shorter { OnOk result (TookWord reader.old reader.new) }
    ensures limits { IfOk result IsLimited }
{
    reader.skip(word)?;
    whole(alloc, reader)
}

/// A keyword and its expression, where the keyword comes next.
#[tactic(auto, unfolding(nf_grammar::specs::inner::Parsers::choose))]
pub(crate) fn optional_clause(
    alloc: Global,
    word: Sym,
    reader: &mut Reader<'_>,
) -> Result<Option<Expr>, Halt>
    requires { reader.old.room ≤ MOST_OPERATORS }
    ensures reads { Reads (spec.optional_clause spec.limited word reader.old) result reader.new }
    ensures within { IsWithin reader.old reader.new }
    ensures limits { IfOk result (λ x. IfSome x IsLimited) }
{
    if reader.is_at(word) {
        Ok(Some(clause(alloc, word, reader)?))
    } else {
        Ok(None)
    }
}

/// An entry of a map.
#[tactic(auto, unfolding(crate::specs::inner::RuleReading::entry))]
fn entry(alloc: Global, reader: &mut Reader<'_>) -> Result<Entry, Halt>
    requires { reader.old.room ≤ MOST_OPERATORS }
    ensures reads { Reads (spec.entry spec.limited reader.old) result reader.new }
    ensures within { IsWithin reader.old reader.new }
    ensures shorter { OnOk result (TookWord reader.old reader.new) }
    ensures limits { IfOk result HasLimitedValue }
{
    let key = reader.take(Sym::Ident)?;
    let key = name_of(alloc, key)?;
    let value = clause(alloc, Sym::Arrow, reader)?;
    Ok(Entry { key, value })
}

/// An entry of a map behind a comma.
fn next_entry(alloc: Global, reader: &mut Reader<'_>) -> Result<Entry, Halt>
    requires { reader.old.room ≤ MOST_OPERATORS }
    ensures reads { Reads (spec.next_entry spec.limited reader.old) result reader.new }
    ensures within { IsWithin reader.old reader.new }
    ensures shorter { OnOk result (TookWord reader.old reader.new) }
    ensures limits { IfOk result HasLimitedValue }
{
    reader.skip(Sym::Comma)?;
    entry(alloc, reader)
}

/// Entries of a map with commas between them.
fn entry_list(alloc: Global, reader: &mut Reader<'_>) -> Result<EntryList, Halt>
    requires { reader.old.room ≤ MOST_OPERATORS }
    ensures reads { Reads (spec.entry_list spec.limited reader.old) result reader.new }
    ensures within { IsWithin reader.old reader.new }
    ensures limits { IfOk result (All HasLimitedValue) }
{
    let first = entry(alloc, reader)?;
    let mut entries = EntryList::new(alloc);
    entries.push(first)?;
    'entries: while reader.is_at(Sym::Comma) {
        let entry = next_entry(alloc, reader)?;
        entries.push(entry)?;
    }
    Ok(entries)
}

/// The entries of a map, between braces.
#[tactic(auto, unfolding(nf_grammar::specs::inner::Parsers::choose))]
fn inner_entries(alloc: Global, reader: &mut Reader<'_>) -> Result<Option<EntryList>, Halt>
    requires { reader.old.room ≤ MOST_OPERATORS }
    ensures reads { Reads (spec.inner_entries spec.limited reader.old) result reader.new }
    ensures within { IsWithin reader.old reader.new }
    ensures limits { IfOk result (λ entries. IfSome entries (All HasLimitedValue)) }
{
    if reader.is_at(Sym::Ident) {
        Ok(Some(entry_list(alloc, reader)?))
    } else {
        Ok(None)
    }
}

/// A list, where there is one, else an empty one.
pub(crate) fn or_empty<T: Drop>(alloc: Global, list: Option<ListOf<T>>) -> ListOf<T>
    ensures { result ≡ unwrap_or list [] }
{
    match list {
        Some(list) => list,
        None => ListOf::new(alloc),
    }
}

/// A map: its entries between braces.
#[tactic(auto, using(crate::proofs::PartStepLemmas::all_or_empty), unfolding(crate::specs::inner::RuleReading::entries))]
fn entries(alloc: Global, reader: &mut Reader<'_>) -> Result<EntryList, Halt>
    requires { reader.old.room ≤ MOST_OPERATORS }
    ensures reads { Reads (spec.entries spec.limited reader.old) result reader.new }
    ensures within { IsWithin reader.old reader.new }
    ensures limits { IfOk result (All HasLimitedValue) }
{
    reader.skip(Sym::Map)?;
    reader.skip(Sym::OpenBrace)?;
    let entries = inner_entries(alloc, reader)?;
    reader.skip(Sym::CloseBrace)?;
    Ok(or_empty(alloc, entries))
}

/// A map, where one comes next.
#[tactic(auto, unfolding(nf_grammar::specs::inner::Parsers::choose))]
pub(crate) fn optional_entries(
    alloc: Global,
    reader: &mut Reader<'_>,
) -> Result<Option<EntryList>, Halt>
    requires { reader.old.room ≤ MOST_OPERATORS }
    ensures reads { Reads (spec.optional_entries spec.limited reader.old) result reader.new }
    ensures within { IsWithin reader.old reader.new }
    ensures limits { IfOk result (λ entries. IfSome entries (All HasLimitedValue)) }
{
    if reader.is_at(Sym::Map) {
        Ok(Some(entries(alloc, reader)?))
    } else {
        Ok(None)
    }
}
