//! The reader of rules.

ghost use Rattle.std.specs.Prelude.{◌≡◌, ◌≤◌, OnOk, IfSome, IfNone, true};
ghost use Rattle.nf_parse.specs.declared.symbol.Sym.TheVariants as sym;
ghost use Rattle.nf_parse.specs.Grammar as grammar;
ghost use Rattle.nf_grammar.specs.State.{next};
ghost use Rattle.nf_grammar.specs.inner.Parsers as parser;
ghost use Rattle.nf_grammar.specs.inner.Parsers.{Reads, behind, in_table};
ghost use Rattle.nf_parse.specs.State.{kind_of_next};
ghost use Rattle.nf_parse.specs.inner.Parsers.{TookWord, IsWithin, is_at};
ghost use Rattle.nf_parse.specs.inner.RuleReading as spec;

use crate::clauses::{optional_clause, optional_entries, or_empty};
use crate::literals::name_of;
use crate::reader::Reader;
use crate::symbol::Sym;
use nf_core::{Atom, Body, MOST_OPERATORS, Module, Op, Rule, RuleList, Text, TextList, Xop};
use nf_grammar::Halt;
use std::alloc::Global;

/// The inclusive operator that a word is.
#[tactic(auto, unfolding(crate::specs::Grammar::op_of))]
fn op_of(next: Option<Sym>) -> Option<Op>
    ensures { result ≡ in_table grammar.op_of next }
{
    match next? {
        Sym::Before => Some(Op::Before),
        Sym::Meet => Some(Op::Meet),
        Sym::During => Some(Op::During),
        Sym::Coincide => Some(Op::Coincide),
        Sym::Start => Some(Op::Start),
        Sym::Finish => Some(Op::Finish),
        Sym::Overlap => Some(Op::Overlap),
        Sym::Slice => Some(Op::Slice),
        _ => None,
    }
}

/// The exclusive operator that a word is.
#[tactic(auto, unfolding(crate::specs::Grammar::xop_of))]
fn xop_of(next: Option<Sym>) -> Option<Xop>
    ensures { result ≡ in_table grammar.xop_of next }
{
    match next? {
        Sym::After => Some(Xop::After),
        Sym::Follow => Some(Xop::Follow),
        Sym::Contain => Some(Xop::Contain),
        _ => None,
    }
}

/// The inclusive operator that comes next, where one does. Goes past it.
#[tactic(auto, using(crate::proofs::StepLemmas::some_word))]
fn op(reader: &mut Reader<'_>) -> Option<Op>
    ensures is { result ≡ in_table grammar.op_of (kind_of_next (next reader.old)) }
    ensures behind { IfSome result (λ _. reader.new ≡ behind reader.old) }
    ensures stays { IfNone result (reader.new ≡ reader.old) }
{
    let op = op_of(reader.next())?;
    reader.advance();
    Some(op)
}

/// The exclusive operator that comes next.
#[tactic(auto, using(crate::proofs::PartStepLemmas::table_steps))]
fn xop(reader: &mut Reader<'_>) -> Result<Xop, Halt>
    ensures reads { Reads (parser.token spec.xop_of_word reader.old) result reader.new }
    ensures within { IsWithin reader.old reader.new }
{
    let Some(xop) = xop_of(reader.next()) else {
        return Err(reader.refuse());
    };
    reader.advance();
    Ok(xop)
}

/// A `:` and a name, where a `:` comes next.
#[tactic(auto, unfolding(nf_grammar::specs::inner::Parsers::choose))]
fn name_behind(alloc: Global, reader: &mut Reader<'_>) -> Result<Option<Text>, Halt>
    ensures reads { Reads (spec.name_behind reader.old) result reader.new }
    ensures within { IsWithin reader.old reader.new }
{
    if reader.is_at(Sym::Colon) {
        reader.skip(Sym::Colon)?;
        let name = reader.take(Sym::Ident)?;
        Ok(Some(name_of(alloc, name)?))
    } else {
        Ok(None)
    }
}

/// An atom: a name, or a label and a name.
#[tactic(auto, unfolding(crate::specs::inner::RuleReading::atom))]
fn atom(alloc: Global, reader: &mut Reader<'_>) -> Result<Atom, Halt>
    ensures reads { Reads (spec.atom reader.old) result reader.new }
    ensures within { IsWithin reader.old reader.new }
{
    let word = reader.take(Sym::Ident)?;
    match name_behind(alloc, reader)? {
        None => Ok(Atom {
            label: name_of(alloc, word)?,
            name: name_of(alloc, word)?,
        }),
        Some(name) => Ok(Atom {
            label: name_of(alloc, word)?,
            name,
        }),
    }
}

/// `unless`, an exclusive operator and an atom, behind a first one.
#[tactic(auto, unfolding(crate::specs::inner::RuleReading::exclusive))]
fn exclusive(alloc: Global, first: Atom, reader: &mut Reader<'_>) -> Result<Body, Halt>
    ensures reads { Reads (spec.exclusive first reader.old) result reader.new }
    ensures within { IsWithin reader.old reader.new }
{
    reader.skip(Sym::Unless)?;
    let xop = xop(reader)?;
    let second = atom(alloc, reader)?;
    Ok(Body::Unless(first, xop, second))
}

/// What stands behind the first atom of a body.
#[tactic(auto, using(crate::proofs::PartStepLemmas::body_steps))]
fn body_behind(alloc: Global, first: Atom, reader: &mut Reader<'_>) -> Result<Body, Halt>
    ensures reads { Reads (spec.body_behind first reader.old) result reader.new }
    ensures within { IsWithin reader.old reader.new }
{
    if let Some(op) = op(reader) {
        let second = atom(alloc, reader)?;
        Ok(Body::Pair(first, op, second))
    } else if reader.is_at(Sym::Unless) {
        exclusive(alloc, first, reader)
    } else {
        Ok(Body::One(first))
    }
}

/// The body of a rule.
#[tactic(auto, unfolding(crate::specs::inner::RuleReading::rule_body))]
fn body(alloc: Global, reader: &mut Reader<'_>) -> Result<Body, Halt>
    ensures reads { Reads (spec.rule_body reader.old) result reader.new }
    ensures within { IsWithin reader.old reader.new }
{
    let first = atom(alloc, reader)?;
    body_behind(alloc, first, reader)
}

/// A rule.
#[tactic(auto, unfolding(crate::specs::inner::RuleReading::rule))]
fn rule(alloc: Global, reader: &mut Reader<'_>) -> Result<Rule, Halt>
    requires { reader.old.room ≤ MOST_OPERATORS }
    ensures reads { Reads (spec.rule spec.limited reader.old) result reader.new }
    ensures within { IsWithin reader.old reader.new }
    ensures shorter { OnOk result (TookWord reader.old reader.new) }
{
    let head = reader.take(Sym::Ident)?;
    let head = name_of(alloc, head)?;
    reader.skip(Sym::Defines)?;
    let body = body(alloc, reader)?;
    let filter = optional_clause(alloc, Sym::Where, reader)?;
    let entries = optional_entries(alloc, reader)?;
    let start = optional_clause(alloc, Sym::Begin, reader)?;
    let stop = optional_clause(alloc, Sym::End, reader)?;
    Ok(Rule {
        head,
        body,
        filter,
        entries: or_empty(alloc, entries),
        start,
        stop,
    })
}

/// The rules here, as long as one follows another.
#[tactic(auto, using(crate::proofs::PartListLemmas::list_steps), unfolding(crate::specs::inner::RuleReading::rules))]
pub(crate) fn rules(alloc: Global, reader: &mut Reader<'_>) -> Result<RuleList, Halt>
    requires { reader.old.room ≤ MOST_OPERATORS }
    ensures reads { Reads (spec.rules spec.limited reader.old) result reader.new }
    ensures within { IsWithin reader.old reader.new }
    ensures shorter { is_at sym.Ident reader.old ≡ true
        → OnOk result (TookWord reader.old reader.new) }
{
    let mut rules = RuleList::new(alloc);
    'rules: while reader.is_at(Sym::Ident) {
        let rule = rule(alloc, reader)?;
        rules.push(rule)?;
    }
    Ok(rules)
}

/// The rules here, as long as one follows another, as a module without name.
pub(crate) fn run_of_rules(alloc: Global, reader: &mut Reader<'_>) -> Result<Module, Halt>
    requires { reader.old.room ≤ MOST_OPERATORS }
    ensures reads { Reads (spec.run_of_rules spec.limited reader.old) result reader.new }
    ensures within { IsWithin reader.old reader.new }
    ensures shorter { is_at sym.Ident reader.old ≡ true
        → OnOk result (TookWord reader.old reader.new) }
{
    let rules = rules(alloc, reader)?;
    Ok(Module {
        name: None,
        imports: TextList::new(alloc),
        rules,
    })
}
