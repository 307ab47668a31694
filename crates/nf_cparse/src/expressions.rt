//! The reader of expressions.

ghost use Rattle.std.specs.Prelude.{◌≡◌, OnOk, Some};
ghost use Rattle.nf_grammar.specs.State.{next};
ghost use Rattle.nf_grammar.specs.inner.Parsers.{Reads, in_table};
ghost use Rattle.nf_cparse.specs.inner.Parsers.{TookWord, IsWithin};
ghost use Rattle.nf_cparse.specs.inner.ExpressionReading as spec;

use crate::level::Level;
use crate::operators::op_at;
use crate::reader::Reader;
use crate::symbol::Sym;
use crate::values::{literal_of, name_of};
use nf_cast::{PlacedExpr, PlacedName};
use nf_core::BinOp;
use nf_grammar::Halt;
use sqlite_items::Boxed;
use std::alloc::Global;

/// An expression, in which at most so many parentheses and brackets are open at once.
pub(crate) fn expression(
    alloc: Global,
    depth: usize,
    reader: &mut Reader<'_>,
) -> Result<PlacedExpr, Halt>
    ensures reads { Reads (spec.expression (spec.nest depth) reader.old) result reader.new }
    ensures within { IsWithin reader.old reader.new }
{
    chain(alloc, Level::Or, depth, reader)
}

/// Operands with operators of a level between them, left associative.
#[cycle(parser)]
fn chain(
    alloc: Global,
    level: Level,
    depth: usize,
    reader: &mut Reader<'_>,
) -> Result<PlacedExpr, Halt>
    ensures reads { Reads (spec.chain_at (spec.nest depth) level reader.old) result reader.new }
    ensures within { IsWithin reader.old reader.new }
{
    let mut left = operand(alloc, level, depth, reader)?;
    'operands: while let Some(op) = op_at(level, reader.next()) {
        left = right_of(alloc, left, op, level, depth, reader)?;
    }
    Ok(left)
}

/// An operand of the operators of a level.
#[cycle(parser)]
fn operand(
    alloc: Global,
    level: Level,
    depth: usize,
    reader: &mut Reader<'_>,
) -> Result<PlacedExpr, Halt>
    ensures reads { Reads (spec.operand (spec.nest depth) level reader.old) result reader.new }
    ensures within { IsWithin reader.old reader.new }
{
    match level {
        Level::Or => chain(alloc, Level::And, depth, reader),
        Level::And => chain(alloc, Level::Equality, depth, reader),
        Level::Equality => chain(alloc, Level::Relation, depth, reader),
        Level::Relation => chain(alloc, Level::Sum, depth, reader),
        Level::Sum => chain(alloc, Level::Product, depth, reader),
        Level::Product => unary(alloc, depth, reader),
    }
}

/// The operator that comes next and its right operand, behind a left one.
#[cycle(parser)]
fn right_of(
    alloc: Global,
    left: PlacedExpr,
    op: BinOp,
    level: Level,
    depth: usize,
    reader: &mut Reader<'_>,
) -> Result<PlacedExpr, Halt>
    requires { in_table (spec.op_of_word level) (next reader.old) ≡ Some op }
    ensures reads { Reads (spec.right_at (spec.nest depth) level left reader.old)
        result reader.new }
    ensures within { IsWithin reader.old reader.new }
    ensures shorter { OnOk result (TookWord reader.old reader.new) }
{
    reader.operator()?;
    let right = operand(alloc, level, depth, reader)?;
    Ok(PlacedExpr::Bin(op, Boxed::new(alloc, left)?, Boxed::new(alloc, right)?))
}

/// An operand behind any number of signs.
#[cycle(parser)]
#[tactic(auto, using(crate::proofs::OperandLemmas::other_read))]
fn unary(alloc: Global, depth: usize, reader: &mut Reader<'_>) -> Result<PlacedExpr, Halt>
    ensures reads { Reads (spec.signed_operand (spec.nest depth) reader.old) result reader.new }
    ensures within { IsWithin reader.old reader.new }
{
    match reader.next() {
        Some(Sym::Minus) => {
            let line = reader.operator()?.line;
            let operand = unary(alloc, depth, reader)?;
            Ok(PlacedExpr::Neg(line, Boxed::new(alloc, operand)?))
        }
        Some(Sym::Bang) => {
            let line = reader.operator()?.line;
            let operand = unary(alloc, depth, reader)?;
            Ok(PlacedExpr::Not(line, Boxed::new(alloc, operand)?))
        }
        _ => primary(alloc, depth, reader),
    }
}

/// An operand without operators, by its first word.
#[cycle(parser)]
#[tactic(auto, using(crate::proofs::KindLemmas::primary_words))]
fn primary(alloc: Global, depth: usize, reader: &mut Reader<'_>) -> Result<PlacedExpr, Halt>
    ensures reads { Reads (spec.primary (spec.nest depth) reader.old) result reader.new }
    ensures within { IsWithin reader.old reader.new }
{
    match reader.next() {
        Some(Sym::Lit) => literal(reader),
        Some(Sym::Ident) => name_or_cell(alloc, depth, reader),
        _ => parens(alloc, depth, reader),
    }
}

/// A literal.
#[tactic(auto, unfolding(crate::specs::inner::ExpressionReading::literal))]
fn literal(reader: &mut Reader<'_>) -> Result<PlacedExpr, Halt>
    ensures reads { Reads (spec.literal reader.old) result reader.new }
    ensures within { IsWithin reader.old reader.new }
{
    let token = reader.take(Sym::Lit)?;
    Ok(PlacedExpr::Lit(token.line, literal_of(token.text)))
}

/// A name.
#[tactic(auto, unfolding(crate::specs::inner::ExpressionReading::named))]
pub(crate) fn named(alloc: Global, reader: &mut Reader<'_>) -> Result<PlacedName, Halt>
    ensures reads { Reads (spec.named reader.old) result reader.new }
    ensures within { IsWithin reader.old reader.new }
    ensures shorter { OnOk result (TookWord reader.old reader.new) }
{
    let token = reader.take(Sym::Ident)?;
    let name = name_of(alloc, token.text)?;
    Ok(PlacedName {
        line: token.line,
        name,
    })
}

/// A name, or a cell of an array where a bracket opens behind a name.
#[cycle(parser)]
#[tactic(auto, unfolding(crate::specs::inner::ExpressionReading::name_or_cell))]
fn name_or_cell(alloc: Global, depth: usize, reader: &mut Reader<'_>) -> Result<PlacedExpr, Halt>
    ensures reads { Reads (spec.name_or_cell (spec.index_at depth) reader.old)
        result reader.new }
    ensures within { IsWithin reader.old reader.new }
{
    let name = named(alloc, reader)?;
    behind_name(alloc, name, depth, reader)
}

/// What stands behind a name: an index where a bracket opens, else nothing.
#[cycle(parser)]
#[tactic(auto, unfolding(crate::specs::inner::ExpressionReading::behind_name))]
fn behind_name(
    alloc: Global,
    name: PlacedName,
    depth: usize,
    reader: &mut Reader<'_>,
) -> Result<PlacedExpr, Halt>
    ensures reads { Reads (spec.behind_name (spec.index_at depth) name reader.old)
        result reader.new }
    ensures within { IsWithin reader.old reader.new }
{
    if reader.is_at(Sym::OpenBracket) {
        let place = index(alloc, depth, reader)?;
        Ok(PlacedExpr::Cell(name, Boxed::new(alloc, place)?))
    } else {
        Ok(PlacedExpr::Name(name))
    }
}

/// An expression between parentheses. At most so many parentheses and brackets are open at once.
#[cycle(parser)]
#[tactic(auto, using(crate::proofs::StepLemmas::parens_steps))]
fn parens(alloc: Global, depth: usize, reader: &mut Reader<'_>) -> Result<PlacedExpr, Halt>
    ensures reads { Reads (spec.parens_at depth reader.old) result reader.new }
    ensures within { IsWithin reader.old reader.new }
{
    if depth == 0 {
        return Err(reader.nowhere(Sym::Open));
    }
    let line = reader.take(Sym::Open)?.line;
    let inner = chain(alloc, Level::Or, depth - 1, reader)?;
    reader.skip(Sym::Close)?;
    Ok(PlacedExpr::Parens(line, Boxed::new(alloc, inner)?))
}

/// An index between brackets, the first of which counts as an operator. At most so many parentheses and
/// brackets are open at once.
#[cycle(parser)]
#[tactic(auto, using(crate::proofs::StepLemmas::index_steps))]
fn index(alloc: Global, depth: usize, reader: &mut Reader<'_>) -> Result<PlacedExpr, Halt>
    ensures reads { Reads (spec.index_at depth reader.old) result reader.new }
    ensures within { IsWithin reader.old reader.new }
{
    if depth == 0 {
        return Err(reader.nowhere(Sym::OpenBracket));
    }
    if !reader.is_at(Sym::OpenBracket) {
        return Err(reader.refuse());
    }
    reader.operator()?;
    let inner = chain(alloc, Level::Or, depth - 1, reader)?;
    reader.skip(Sym::CloseBracket)?;
    Ok(inner)
}
