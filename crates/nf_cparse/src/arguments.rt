//! The reader of arguments, and of what stands to the right of `=`.

ghost use Rattle.std.specs.Prelude.{◌≡◌, [], OnOk, unwrap_or};
ghost use Rattle.nf_grammar.specs.inner.Parsers.{Reads};
ghost use Rattle.nf_cparse.specs.inner.Parsers.{TookWord, IsWithin};
ghost use Rattle.nf_cparse.specs.inner.StatementReading as spec;

use crate::expressions::{expression, named};
use crate::reader::Reader;
use crate::symbol::Sym;
use nf_cast::{PlacedExpr, PlacedExprList, PlacedRight};
use nf_core::ListOf;
use nf_grammar::Halt;
use std::alloc::Global;

/// An expression that stands in no other one: what stands behind it may have as many operators.
#[tactic(auto, unfolding(crate::specs::inner::StatementReading::whole, nf_grammar::specs::inner::Parsers::alone))]
pub(crate) fn whole(
    alloc: Global,
    depth: usize,
    reader: &mut Reader<'_>,
) -> Result<PlacedExpr, Halt>
    ensures reads { Reads (spec.whole depth reader.old) result reader.new }
    ensures within { IsWithin reader.old reader.new }
{
    let operators = reader.operators();
    let value = expression(alloc, depth, reader)?;
    reader.allow(operators);
    Ok(value)
}

/// An argument behind a comma.
fn next_argument(alloc: Global, depth: usize, reader: &mut Reader<'_>) -> Result<PlacedExpr, Halt>
    ensures reads { Reads (spec.next_argument depth reader.old) result reader.new }
    ensures within { IsWithin reader.old reader.new }
    ensures shorter { OnOk result (TookWord reader.old reader.new) }
{
    reader.skip(Sym::Comma)?;
    whole(alloc, depth, reader)
}

/// Arguments with commas between them.
fn argument_list(
    alloc: Global,
    depth: usize,
    reader: &mut Reader<'_>,
) -> Result<PlacedExprList, Halt>
    ensures reads { Reads (spec.argument_list depth reader.old) result reader.new }
    ensures within { IsWithin reader.old reader.new }
{
    let first = whole(alloc, depth, reader)?;
    let mut arguments = ListOf::new(alloc);
    arguments.push(first)?;
    'arguments: while reader.is_at(Sym::Comma) {
        let argument = next_argument(alloc, depth, reader)?;
        arguments.push(argument)?;
    }
    Ok(arguments)
}

/// The arguments before a parenthesis that closes, where there are some.
#[tactic(auto, unfolding(nf_grammar::specs::inner::Parsers::choose))]
fn optional_arguments(
    alloc: Global,
    depth: usize,
    reader: &mut Reader<'_>,
) -> Result<Option<PlacedExprList>, Halt>
    ensures reads { Reads (spec.optional_arguments depth reader.old) result reader.new }
    ensures within { IsWithin reader.old reader.new }
{
    if reader.is_at(Sym::Close) {
        Ok(None)
    } else {
        Ok(Some(argument_list(alloc, depth, reader)?))
    }
}

/// A list, where there is one, else an empty one.
pub(crate) fn or_empty<T: Drop>(alloc: Global, list: Option<ListOf<T>>) -> ListOf<T>
    ensures { result ≡ unwrap_or list [] }
{
    match list {
        Some(list) => list,
        None => ListOf::new(alloc),
    }
}

/// The arguments of a call, between parentheses.
#[tactic(auto, unfolding(crate::specs::inner::StatementReading::arguments))]
pub(crate) fn arguments(
    alloc: Global,
    depth: usize,
    reader: &mut Reader<'_>,
) -> Result<PlacedExprList, Halt>
    ensures reads { Reads (spec.arguments depth reader.old) result reader.new }
    ensures within { IsWithin reader.old reader.new }
{
    reader.skip(Sym::Open)?;
    let found = optional_arguments(alloc, depth, reader)?;
    reader.skip(Sym::Close)?;
    Ok(or_empty(alloc, found))
}

/// A call as a value.
#[tactic(auto, unfolding(crate::specs::inner::StatementReading::called))]
fn called(alloc: Global, depth: usize, reader: &mut Reader<'_>) -> Result<PlacedRight, Halt>
    ensures reads { Reads (spec.called depth reader.old) result reader.new }
    ensures within { IsWithin reader.old reader.new }
{
    let name = named(alloc, reader)?;
    let arguments = arguments(alloc, depth, reader)?;
    Ok(PlacedRight::Call(name, arguments))
}

/// An expression as a value.
#[tactic(auto, unfolding(crate::specs::inner::StatementReading::computed))]
fn computed(alloc: Global, depth: usize, reader: &mut Reader<'_>) -> Result<PlacedRight, Halt>
    ensures reads { Reads (spec.computed depth reader.old) result reader.new }
    ensures within { IsWithin reader.old reader.new }
{
    let value = whole(alloc, depth, reader)?;
    Ok(PlacedRight::Value(value))
}

/// What stands to the right of `=`: a call, where a name and a parenthesis that opens come next, else an
/// expression.
#[tactic(auto, unfolding(crate::specs::inner::StatementReading::right_of))]
pub(crate) fn right_of(
    alloc: Global,
    depth: usize,
    reader: &mut Reader<'_>,
) -> Result<PlacedRight, Halt>
    ensures reads { Reads (spec.right_of depth reader.old) result reader.new }
    ensures within { IsWithin reader.old reader.new }
{
    if reader.is_at_call() {
        called(alloc, depth, reader)
    } else {
        computed(alloc, depth, reader)
    }
}
