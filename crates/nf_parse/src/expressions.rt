//! The reader of expressions.

ghost use Rattle.std.specs.Prelude.{◌≡◌, OnOk, Some};
ghost use Rattle.nf_grammar.specs.State.{next};
ghost use Rattle.nf_grammar.specs.inner.Parsers.{Reads, in_table};
ghost use Rattle.nf_parse.specs.inner.Parsers.{TookWord, IsWithin};
ghost use Rattle.nf_parse.specs.inner.Reading as spec;

use crate::level::Level;
use crate::literals::{name_of, number_of, text_of};
use crate::operators::op_at;
use crate::reader::Reader;
use crate::symbol::Sym;
use nf_core::{BinOp, Expr, Text};
use nf_grammar::Halt;
use sqlite_items::Boxed;
use std::alloc::Global;

/// An expression, in which at most so many parentheses are open at once.
pub(crate) fn expression(alloc: Global, depth: usize, reader: &mut Reader<'_>) -> Result<Expr, Halt>
    ensures reads { Reads (spec.expression (spec.paren depth) reader.old) result reader.new }
    ensures within { IsWithin reader.old reader.new }
{
    chain(alloc, Level::Or, depth, reader)
}

/// Operands with operators of a level between them, left associative.
#[cycle(parser)]
fn chain(alloc: Global, level: Level, depth: usize, reader: &mut Reader<'_>) -> Result<Expr, Halt>
    ensures reads { Reads (spec.chain_at (spec.paren depth) level reader.old) result reader.new }
    ensures within { IsWithin reader.old reader.new }
{
    let mut left = operand(alloc, level, depth, reader)?;
    'operands: while let Some(op) = op_at(level, reader.next()) {
        left = right_of(alloc, left, op, level, depth, reader)?;
    }
    Ok(left)
}

/// An operand of the operators of a level.
#[cycle(parser)]
fn operand(alloc: Global, level: Level, depth: usize, reader: &mut Reader<'_>) -> Result<Expr, Halt>
    ensures reads { Reads (spec.operand (spec.paren depth) level reader.old) result reader.new }
    ensures within { IsWithin reader.old reader.new }
{
    match level {
        Level::Or => chain(alloc, Level::And, depth, reader),
        Level::And => comparison(alloc, depth, reader),
        Level::Compare => chain(alloc, Level::Sum, depth, reader),
        Level::Sum => chain(alloc, Level::Product, depth, reader),
        Level::Product => unary(alloc, depth, reader),
    }
}

/// The operator that comes next and its right operand, behind a left one.
#[cycle(parser)]
fn right_of(
    alloc: Global,
    left: Expr,
    op: BinOp,
    level: Level,
    depth: usize,
    reader: &mut Reader<'_>,
) -> Result<Expr, Halt>
    requires { in_table (spec.op_of_word level) (next reader.old) ≡ Some op }
    ensures reads { Reads (spec.right_at (spec.paren depth) level left reader.old)
        result reader.new }
    ensures within { IsWithin reader.old reader.new }
    ensures shorter { OnOk result (TookWord reader.old reader.new) }
{
    reader.operator()?;
    let right = operand(alloc, level, depth, reader)?;
    Ok(Expr::Bin(op, Boxed::new(alloc, left)?, Boxed::new(alloc, right)?))
}

/// A sum, or two with a comparison between them.
#[cycle(parser)]
fn comparison(alloc: Global, depth: usize, reader: &mut Reader<'_>) -> Result<Expr, Halt>
    ensures reads { Reads (spec.comparison (spec.paren depth) reader.old) result reader.new }
    ensures within { IsWithin reader.old reader.new }
{
    let left = operand(alloc, Level::Compare, depth, reader)?;
    match op_at(Level::Compare, reader.next()) {
        None => Ok(left),
        Some(op) => right_of(alloc, left, op, Level::Compare, depth, reader),
    }
}

/// An operand behind any number of signs.
#[cycle(parser)]
#[tactic(auto, using(crate::proofs::OperandLoopLemmas::other_read))]
fn unary(alloc: Global, depth: usize, reader: &mut Reader<'_>) -> Result<Expr, Halt>
    ensures reads { Reads (spec.signed_operand (spec.paren depth) reader.old) result reader.new }
    ensures within { IsWithin reader.old reader.new }
{
    match reader.next() {
        Some(Sym::Minus) => {
            reader.operator()?;
            let operand = unary(alloc, depth, reader)?;
            Ok(Expr::Neg(Boxed::new(alloc, operand)?))
        }
        Some(Sym::Bang) => {
            reader.operator()?;
            let operand = unary(alloc, depth, reader)?;
            Ok(Expr::Not(Boxed::new(alloc, operand)?))
        }
        _ => primary(alloc, depth, reader),
    }
}

/// An operand without operators, by its first word.
#[cycle(parser)]
#[tactic(auto, using(crate::proofs::KindLemmas::primary_words))]
fn primary(alloc: Global, depth: usize, reader: &mut Reader<'_>) -> Result<Expr, Halt>
    ensures reads { Reads (spec.primary (spec.paren depth) reader.old) result reader.new }
    ensures within { IsWithin reader.old reader.new }
{
    match reader.next() {
        Some(Sym::Number) => {
            let word = reader.take(Sym::Number)?;
            Ok(Expr::Int(number_of(word)))
        }
        Some(Sym::Text) => {
            let word = reader.take(Sym::Text)?;
            Ok(Expr::Text(text_of(alloc, word)?))
        }
        Some(Sym::True) => {
            reader.skip(Sym::True)?;
            Ok(Expr::Bool(true))
        }
        Some(Sym::False) => {
            reader.skip(Sym::False)?;
            Ok(Expr::Bool(false))
        }
        Some(Sym::Ident) => read(alloc, reader),
        _ => paren(alloc, depth, reader),
    }
}

/// A read of a key, of a begin or of an end under a label.
#[tactic(auto, unfolding(crate::specs::inner::Reading::read))]
fn read(alloc: Global, reader: &mut Reader<'_>) -> Result<Expr, Halt>
    ensures reads { Reads (spec.read reader.old) result reader.new }
    ensures within { IsWithin reader.old reader.new }
{
    let label = reader.take(Sym::Ident)?;
    let label = name_of(alloc, label)?;
    reader.skip(Sym::Dot)?;
    member(alloc, label, reader)
}

/// What is read under a label: a key, the begin or the end.
#[tactic(auto, using(crate::proofs::KindLemmas::member_words))]
fn member(alloc: Global, label: Text, reader: &mut Reader<'_>) -> Result<Expr, Halt>
    ensures reads { Reads (spec.member label reader.old) result reader.new }
    ensures within { IsWithin reader.old reader.new }
{
    match reader.next() {
        Some(Sym::Ident) => {
            let key = reader.take(Sym::Ident)?;
            Ok(Expr::Key(label, name_of(alloc, key)?))
        }
        Some(Sym::Begin) => {
            reader.skip(Sym::Begin)?;
            Ok(Expr::Start(label))
        }
        _ => {
            reader.skip(Sym::End)?;
            Ok(Expr::Stop(label))
        }
    }
}

/// An expression between parentheses, of which at most so many are open at once.
#[cycle(parser)]
#[tactic(auto, using(crate::proofs::StepLemmas::paren_steps))]
fn paren(alloc: Global, depth: usize, reader: &mut Reader<'_>) -> Result<Expr, Halt>
    ensures reads { Reads (spec.paren depth reader.old) result reader.new }
    ensures within { IsWithin reader.old reader.new }
{
    if depth == 0 {
        return Err(if reader.is_at(Sym::Open) {
            reader.too_deep()
        } else {
            reader.refuse()
        });
    }
    reader.skip(Sym::Open)?;
    let inner = chain(alloc, Level::Or, depth - 1, reader)?;
    reader.skip(Sym::Close)?;
    Ok(inner)
}
