//! The reader of statements and blocks. Its stack is as deep as the blocks and the expressions of the text,
//! which the limits bound.

ghost use Rattle.std.specs.Prelude.{◌≡◌, OnOk, option_map};
ghost use Rattle.nf_grammar.specs.State.{next};
ghost use Rattle.nf_grammar.specs.inner.Parsers.{Reads};
ghost use Rattle.nf_cparse.specs.Grammar.{Closed};
ghost use Rattle.nf_cparse.specs.inner.Parsers.{TookWord, IsWithin};
ghost use Rattle.nf_cparse.specs.inner.StatementReading as spec;

use crate::arguments::{arguments, right_of, whole};
use crate::expressions::named;
use crate::loops::{declared, header_start, header_step, header_test};
use crate::reader::Reader;
use crate::symbol::Sym;
use nf_cast::{PlacedBlock, PlacedExpr, PlacedName, PlacedRight, PlacedStmt};
use nf_grammar::Halt;
use sqlite_items::Items;
use std::alloc::Global;

/// Whether `const` comes next. Goes past it then.
#[tactic(auto, unfolding(crate::specs::inner::StatementReading::constant, nf_grammar::specs::inner::Parsers::choose))]
fn constant(reader: &mut Reader<'_>) -> Result<bool, Halt>
    ensures reads { Reads (spec.constant reader.old) result reader.new }
    ensures within { IsWithin reader.old reader.new }
{
    if reader.is_at(Sym::Const) {
        reader.skip(Sym::Const)?;
        Ok(true)
    } else {
        Ok(false)
    }
}

/// The value that a name is set to, between `=` and `;`.
#[tactic(auto, unfolding(crate::specs::inner::StatementReading::set_to))]
fn set_to(alloc: Global, depth: usize, reader: &mut Reader<'_>) -> Result<PlacedRight, Halt>
    ensures reads { Reads (spec.set_to depth reader.old) result reader.new }
    ensures within { IsWithin reader.old reader.new }
    ensures shorter { OnOk result (TookWord reader.old reader.new) }
{
    reader.skip(Sym::Equal)?;
    let right = right_of(alloc, depth, reader)?;
    reader.skip(Sym::Semicolon)?;
    Ok(right)
}

/// A declaration.
#[tactic(auto, unfolding(crate::specs::inner::StatementReading::local))]
fn local(alloc: Global, depth: usize, reader: &mut Reader<'_>) -> Result<PlacedStmt, Halt>
    ensures reads { Reads (spec.local depth reader.old) result reader.new }
    ensures within { IsWithin reader.old reader.new }
    ensures shorter { OnOk result (TookWord reader.old reader.new) }
{
    let constant = constant(reader)?;
    let name = declared(alloc, reader)?;
    let right = set_to(alloc, depth, reader)?;
    Ok(PlacedStmt::Local {
        constant,
        name,
        right,
    })
}

/// An index between brackets, whose operators are its own.
#[tactic(auto, unfolding(crate::specs::inner::StatementReading::place))]
fn place(alloc: Global, depth: usize, reader: &mut Reader<'_>) -> Result<PlacedExpr, Halt>
    ensures reads { Reads (spec.place depth reader.old) result reader.new }
    ensures within { IsWithin reader.old reader.new }
{
    reader.skip(Sym::OpenBracket)?;
    let index = whole(alloc, depth, reader)?;
    reader.skip(Sym::CloseBracket)?;
    Ok(index)
}

/// What an element of an array is set to, behind the array's name.
#[tactic(auto, unfolding(crate::specs::inner::StatementReading::store_behind))]
fn store_behind(
    alloc: Global,
    name: PlacedName,
    depth: usize,
    reader: &mut Reader<'_>,
) -> Result<PlacedStmt, Halt>
    ensures reads { Reads (spec.store_behind depth name reader.old) result reader.new }
    ensures within { IsWithin reader.old reader.new }
{
    let index = place(alloc, depth, reader)?;
    reader.skip(Sym::Equal)?;
    let value = whole(alloc, depth, reader)?;
    reader.skip(Sym::Semicolon)?;
    Ok(PlacedStmt::Store(name, index, value))
}

/// The arguments of a call that is a statement, behind its name.
#[tactic(auto, unfolding(crate::specs::inner::StatementReading::call_behind))]
fn call_behind(
    alloc: Global,
    name: PlacedName,
    depth: usize,
    reader: &mut Reader<'_>,
) -> Result<PlacedStmt, Halt>
    ensures reads { Reads (spec.call_behind depth name reader.old) result reader.new }
    ensures within { IsWithin reader.old reader.new }
{
    let arguments = arguments(alloc, depth, reader)?;
    reader.skip(Sym::Semicolon)?;
    Ok(PlacedStmt::Call(name, arguments))
}

/// What a name is set to, behind the name.
#[tactic(auto, unfolding(crate::specs::inner::StatementReading::assign_behind))]
fn assign_behind(
    alloc: Global,
    name: PlacedName,
    depth: usize,
    reader: &mut Reader<'_>,
) -> Result<PlacedStmt, Halt>
    ensures reads { Reads (spec.assign_behind depth name reader.old) result reader.new }
    ensures within { IsWithin reader.old reader.new }
{
    let right = set_to(alloc, depth, reader)?;
    Ok(PlacedStmt::Assign(name, right))
}

/// What stands behind the name with which a statement begins, by the next word.
#[tactic(auto, unfolding(crate::specs::inner::StatementReading::behind_name, nf_grammar::specs::inner::Parsers::choose))]
fn behind_name(
    alloc: Global,
    name: PlacedName,
    depth: usize,
    reader: &mut Reader<'_>,
) -> Result<PlacedStmt, Halt>
    ensures reads { Reads (spec.behind_name depth name reader.old) result reader.new }
    ensures within { IsWithin reader.old reader.new }
{
    if reader.is_at(Sym::Open) {
        call_behind(alloc, name, depth, reader)
    } else if reader.is_at(Sym::OpenBracket) {
        store_behind(alloc, name, depth, reader)
    } else {
        assign_behind(alloc, name, depth, reader)
    }
}

/// A statement that begins with a name.
#[tactic(auto, unfolding(crate::specs::inner::StatementReading::named_statement))]
fn named_statement(alloc: Global, depth: usize, reader: &mut Reader<'_>) -> Result<PlacedStmt, Halt>
    ensures reads { Reads (spec.named_statement depth reader.old) result reader.new }
    ensures within { IsWithin reader.old reader.new }
    ensures shorter { OnOk result (TookWord reader.old reader.new) }
{
    let name = named(alloc, reader)?;
    behind_name(alloc, name, depth, reader)
}

/// The value of a return, where there is one.
#[tactic(auto, unfolding(nf_grammar::specs::inner::Parsers::choose))]
fn returned(
    alloc: Global,
    depth: usize,
    reader: &mut Reader<'_>,
) -> Result<Option<PlacedExpr>, Halt>
    ensures reads { Reads (spec.returned depth reader.old) result reader.new }
    ensures within { IsWithin reader.old reader.new }
{
    if reader.is_at(Sym::Semicolon) {
        Ok(None)
    } else {
        Ok(Some(whole(alloc, depth, reader)?))
    }
}

/// A return.
#[tactic(auto, unfolding(crate::specs::inner::StatementReading::exit))]
fn exit(alloc: Global, depth: usize, reader: &mut Reader<'_>) -> Result<PlacedStmt, Halt>
    ensures reads { Reads (spec.exit depth reader.old) result reader.new }
    ensures within { IsWithin reader.old reader.new }
    ensures shorter { OnOk result (TookWord reader.old reader.new) }
{
    let line = reader.take(Sym::Return)?.line;
    let value = returned(alloc, depth, reader)?;
    reader.skip(Sym::Semicolon)?;
    Ok(PlacedStmt::Return(line, value))
}

/// The condition of an `if`, between parentheses.
#[tactic(auto, unfolding(crate::specs::inner::StatementReading::condition))]
fn condition(alloc: Global, depth: usize, reader: &mut Reader<'_>) -> Result<PlacedExpr, Halt>
    ensures reads { Reads (spec.condition depth reader.old) result reader.new }
    ensures within { IsWithin reader.old reader.new }
{
    reader.skip(Sym::Open)?;
    let condition = whole(alloc, depth, reader)?;
    reader.skip(Sym::Close)?;
    Ok(condition)
}

/// A block that was closed, without the line of its end.
fn opened(block: Option<(PlacedBlock, u64)>) -> Option<PlacedBlock>
    ensures { result ≡ option_map (λ (x : Closed). x.0) block }
{
    match block {
        None => None,
        Some((block, _)) => Some(block),
    }
}

/// A block behind `else`, where `else` comes next.
#[cycle(blocks)]
#[tactic(auto, unfolding(nf_grammar::specs::inner::Parsers::choose))]
fn otherwise(
    alloc: Global,
    depth: usize,
    blocks: usize,
    reader: &mut Reader<'_>,
) -> Result<Option<(PlacedBlock, u64)>, Halt>
    ensures reads { Reads (spec.otherwise_at depth blocks reader.old) result reader.new }
    ensures within { IsWithin reader.old reader.new }
{
    if reader.is_at(Sym::Else) {
        reader.skip(Sym::Else)?;
        Ok(Some(block(alloc, depth, blocks, reader)?))
    } else {
        Ok(None)
    }
}

/// A conditional statement.
#[cycle(blocks)]
#[tactic(auto, unfolding(crate::specs::inner::StatementReading::conditional))]
fn conditional(
    alloc: Global,
    depth: usize,
    blocks: usize,
    reader: &mut Reader<'_>,
) -> Result<PlacedStmt, Halt>
    ensures reads { Reads (spec.conditional_at depth blocks reader.old) result reader.new }
    ensures within { IsWithin reader.old reader.new }
    ensures shorter { OnOk result (TookWord reader.old reader.new) }
{
    reader.skip(Sym::If)?;
    let condition = condition(alloc, depth, reader)?;
    let (then, _) = block(alloc, depth, blocks, reader)?;
    let otherwise = otherwise(alloc, depth, blocks, reader)?;
    Ok(PlacedStmt::If(condition, then, opened(otherwise)))
}

/// A loop.
#[cycle(blocks)]
#[tactic(auto, unfolding(crate::specs::inner::StatementReading::counted_loop))]
fn counted_loop(
    alloc: Global,
    depth: usize,
    blocks: usize,
    reader: &mut Reader<'_>,
) -> Result<PlacedStmt, Halt>
    ensures reads { Reads (spec.counted_loop_at depth blocks reader.old) result reader.new }
    ensures within { IsWithin reader.old reader.new }
    ensures shorter { OnOk result (TookWord reader.old reader.new) }
{
    reader.skip(Sym::For)?;
    reader.skip(Sym::Open)?;
    let name = header_start(alloc, reader)?;
    let (tested, bound) = header_test(alloc, reader)?;
    let (set, counted) = header_step(alloc, reader)?;
    reader.skip(Sym::Close)?;
    let (body, _) = block(alloc, depth, blocks, reader)?;
    Ok(PlacedStmt::For {
        name,
        tested,
        bound,
        set,
        counted,
        body,
    })
}

/// A statement, by its first word.
#[cycle(blocks)]
#[tactic(auto, unfolding(crate::specs::inner::StatementReading::statement, nf_grammar::specs::inner::Parsers::choose))]
fn statement(
    alloc: Global,
    depth: usize,
    blocks: usize,
    reader: &mut Reader<'_>,
) -> Result<PlacedStmt, Halt>
    ensures reads { Reads (spec.statement_at depth blocks reader.old) result reader.new }
    ensures within { IsWithin reader.old reader.new }
    ensures shorter { OnOk result (TookWord reader.old reader.new) }
{
    if reader.is_at(Sym::Const) || reader.is_at(Sym::Int64) {
        local(alloc, depth, reader)
    } else if reader.is_at(Sym::Ident) {
        named_statement(alloc, depth, reader)
    } else if reader.is_at(Sym::If) {
        conditional(alloc, depth, blocks, reader)
    } else if reader.is_at(Sym::For) {
        counted_loop(alloc, depth, blocks, reader)
    } else {
        exit(alloc, depth, reader)
    }
}

/// Whether a statement may begin with the next word.
#[tactic(auto, unfolding(crate::specs::inner::StatementReading::starts))]
fn begins_statement(next: Option<Sym>) -> bool
    ensures { result ≡ spec.begins_with next }
{
    matches!(
        next,
        Some(Sym::Const | Sym::Int64 | Sym::Ident | Sym::If | Sym::For | Sym::Return)
    )
}

/// Statements, one after the other.
#[cycle(blocks)]
fn statements(
    alloc: Global,
    depth: usize,
    blocks: usize,
    reader: &mut Reader<'_>,
) -> Result<Items<PlacedStmt>, Halt>
    ensures reads { Reads (spec.statements_at depth blocks reader.old) result reader.new }
    ensures within { IsWithin reader.old reader.new }
{
    let mut stmts = Items::new(alloc);
    'statements: while begins_statement(reader.next()) {
        let statement = statement(alloc, depth, blocks, reader)?;
        stmts.push(statement)?;
    }
    Ok(stmts)
}

/// A block, and the line of its end. At most so many blocks are open at once.
#[cycle(blocks)]
pub(crate) fn block(
    alloc: Global,
    depth: usize,
    blocks: usize,
    reader: &mut Reader<'_>,
) -> Result<(PlacedBlock, u64), Halt>
    ensures reads { Reads (spec.block depth blocks reader.old) result reader.new }
    ensures within { IsWithin reader.old reader.new }
{
    if blocks == 0 {
        return Err(reader.nowhere(Sym::OpenBrace));
    }
    reader.skip(Sym::OpenBrace)?;
    let stmts = statements(alloc, depth, blocks - 1, reader)?;
    let line = reader.take(Sym::CloseBrace)?.line;
    Ok((PlacedBlock { stmts }, line))
}
