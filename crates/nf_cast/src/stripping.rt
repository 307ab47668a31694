//! The trees of a text without its lines and its parentheses.

ghost use Rattle.std.specs.Prelude.{◌≡◌, IfOk, map};
ghost use Rattle.std.specs.Option.{option_copied};
ghost use Rattle.nf_cast.specs.Placed.{strip, strip_right, strip_bound, strip_optional, strip_stmt, strip_block, strip_cells, strip_item, names_of};

use crate::expressions::{CBound, CExpr, CExprList, CRight};
use crate::objects::{CFunc, CItem, CItemList, CObject};
use crate::placed::{
    PlacedBlock, PlacedBound, PlacedCells, PlacedExpr, PlacedFunc, PlacedItem, PlacedName,
    PlacedObject, PlacedRight, PlacedStmt,
};
use crate::statements::{CBlock, CStmt, CStmtList};
use nf_core::{ListOf, NoMemory, TextList, TryCopy};
use sqlite_items::{Boxed, Items};
use std::alloc::Global;

/// An expression without its lines and its parentheses (`strip` in specs/Placed.antt). It takes memory
/// for what it holds, and calls itself for each operand.
#[tactic(auto, unfolding(crate::specs::Placed::strip))]
pub(crate) fn strip_expression(alloc: Global, expression: &PlacedExpr) -> Result<CExpr, NoMemory>
    ensures { IfOk result (λ a. a ≡ strip expression.now) }
{
    match expression {
        PlacedExpr::Lit(_, n) => Ok(CExpr::Lit(*n)),
        PlacedExpr::Name(at) => Ok(CExpr::Name(at.name.copy(alloc)?)),
        PlacedExpr::Cell(at, index) => {
            let index = Boxed::new(alloc, strip_expression(alloc, index.get())?)?;
            Ok(CExpr::Cell(at.name.copy(alloc)?, index))
        }
        PlacedExpr::Neg(_, a) => {
            Ok(CExpr::Neg(Boxed::new(alloc, strip_expression(alloc, a.get())?)?))
        }
        PlacedExpr::Not(_, a) => {
            Ok(CExpr::Not(Boxed::new(alloc, strip_expression(alloc, a.get())?)?))
        }
        PlacedExpr::Bin(op, left, right) => {
            let left = Boxed::new(alloc, strip_expression(alloc, left.get())?)?;
            let right = Boxed::new(alloc, strip_expression(alloc, right.get())?)?;
            Ok(CExpr::Bin(*op, left, right))
        }
        PlacedExpr::Parens(_, inner) => strip_expression(alloc, inner.get()),
    }
}

/// Arguments without their lines and their parentheses.
fn strip_arguments(alloc: Global, arguments: &[PlacedExpr]) -> Result<CExprList, NoMemory>
    ensures { IfOk result (λ list. list ≡ map strip arguments.now) }
{
    let mut list = ListOf::new(alloc);
    for argument in arguments {
        list.push(strip_expression(alloc, argument)?)?;
    }
    Ok(list)
}

/// A right side without its lines and its parentheses.
#[tactic(auto, unfolding(crate::specs::Placed::strip_right))]
fn strip_right_side(alloc: Global, right: &PlacedRight) -> Result<CRight, NoMemory>
    ensures { IfOk result (λ r. r ≡ strip_right right.now) }
{
    match right {
        PlacedRight::Call(at, arguments) => {
            let name = at.name.copy(alloc)?;
            Ok(CRight::Call(name, strip_arguments(alloc, arguments.as_slice())?))
        }
        PlacedRight::Value(a) => Ok(CRight::Value(strip_expression(alloc, a)?)),
    }
}

/// A loop's bound without its line.
#[tactic(auto, unfolding(crate::specs::Placed::strip_bound))]
fn strip_limit(alloc: Global, limit: &PlacedBound) -> Result<CBound, NoMemory>
    ensures { IfOk result (λ b. b ≡ strip_bound limit.now) }
{
    match limit {
        PlacedBound::Lit(n) => Ok(CBound::Lit(*n)),
        PlacedBound::Name(at) => Ok(CBound::Name(at.name.copy(alloc)?)),
    }
}

/// The value of a return without its lines and its parentheses.
#[tactic(auto, unfolding(crate::specs::Placed::strip_optional))]
fn strip_value(alloc: Global, value: &Option<PlacedExpr>) -> Result<Option<CExpr>, NoMemory>
    ensures { IfOk result (λ a. a ≡ strip_optional value.now) }
{
    match value {
        None => Ok(None),
        Some(a) => Ok(Some(strip_expression(alloc, a)?)),
    }
}

/// A statement without its lines and its parentheses (`strip_stmt` in specs/Placed.antt). It calls itself
/// for the statements of its blocks.
#[cycle(stripping)]
#[tactic(auto, unfolding(crate::specs::Placed::strip_stmt, crate::specs::Placed::strip_block))]
fn strip_statement(alloc: Global, statement: &PlacedStmt) -> Result<CStmt, NoMemory>
    ensures { IfOk result (λ stmt. stmt ≡ strip_stmt statement.now) }
{
    match statement {
        PlacedStmt::Local {
            constant,
            name,
            right,
        } => {
            let name = name.name.copy(alloc)?;
            let right = strip_right_side(alloc, right)?;
            Ok(CStmt::Local {
                constant: *constant,
                name,
                right,
            })
        }
        PlacedStmt::Assign(at, right) => {
            let name = at.name.copy(alloc)?;
            Ok(CStmt::Assign(name, strip_right_side(alloc, right)?))
        }
        PlacedStmt::Store(at, index, value) => {
            let index = strip_expression(alloc, index)?;
            let value = strip_expression(alloc, value)?;
            Ok(CStmt::Store(at.name.copy(alloc)?, index, value))
        }
        PlacedStmt::Call(at, arguments) => {
            let name = at.name.copy(alloc)?;
            Ok(CStmt::Call(name, strip_arguments(alloc, arguments.as_slice())?))
        }
        PlacedStmt::If(condition, block, None) => {
            let condition = strip_expression(alloc, condition)?;
            Ok(CStmt::If(condition, strip_body(alloc, block)?, None))
        }
        PlacedStmt::If(condition, block, Some(otherwise)) => {
            let condition = strip_expression(alloc, condition)?;
            let block = strip_body(alloc, block)?;
            Ok(CStmt::If(condition, block, Some(strip_body(alloc, otherwise)?)))
        }
        PlacedStmt::For {
            name,
            bound,
            body,
            ..
        } => {
            let name = name.name.copy(alloc)?;
            let bound = strip_limit(alloc, bound)?;
            let body = strip_body(alloc, body)?;
            Ok(CStmt::For { name, bound, body })
        }
        PlacedStmt::Return(_, value) => Ok(CStmt::Return(strip_value(alloc, value)?)),
    }
}

/// A block without its lines and its parentheses.
#[cycle(stripping)]
fn strip_body(alloc: Global, block: &PlacedBlock) -> Result<CBlock, NoMemory>
    ensures { IfOk result (λ body. body ≡ strip_block block.now) }
{
    let stmts = strip_statements(alloc, block.stmts.as_slice())?;
    Ok(CBlock { stmts })
}

/// Statements without their lines and their parentheses.
#[cycle(stripping)]
fn strip_statements(alloc: Global, statements: &[PlacedStmt]) -> Result<CStmtList, NoMemory>
    ensures { IfOk result (λ stmts. stmts ≡ map strip_stmt statements.now) }
{
    let mut stmts = Items::new(alloc);
    for statement in statements {
        stmts.push(strip_statement(alloc, statement)?)?;
    }
    Ok(stmts)
}

/// Names without their lines.
fn strip_names(alloc: Global, names: &[PlacedName]) -> Result<TextList, NoMemory>
    ensures { IfOk result (λ texts. texts ≡ names_of names.now) }
{
    let mut texts = ListOf::new(alloc);
    for at in names {
        texts.push(at.name.copy(alloc)?)?;
    }
    Ok(texts)
}

/// The number of an array's cells without its line.
#[tactic(auto, unfolding(crate::specs::Placed::strip_cells))]
fn strip_count(cells: &Option<PlacedCells>) -> Option<i64>
    ensures { result ≡ strip_cells cells.now }
{
    match cells {
        None => None,
        Some(cells) => Some(cells.count),
    }
}

/// An object without its lines.
fn strip_object(alloc: Global, object: &PlacedObject) -> Result<CObject, NoMemory>
    ensures { IfOk result (λ o. o ≡ record {
      name = object.now.name.name;
      cells = strip_cells object.now.cells;
    }) }
{
    let name = object.name.name.copy(alloc)?;
    Ok(CObject {
        name,
        cells: strip_count(&object.cells),
    })
}

/// A function without its lines and its parentheses.
fn strip_func(alloc: Global, func: &PlacedFunc) -> Result<CFunc, NoMemory>
    ensures { IfOk result (λ f. f ≡ record {
      form = func.now.form;
      name = func.now.name.name;
      params = names_of func.now.params;
      body = strip_block func.now.body;
    }) }
{
    let name = func.name.name.copy(alloc)?;
    let params = strip_names(alloc, func.params.as_slice())?;
    let body = strip_body(alloc, &func.body)?;
    Ok(CFunc {
        form: func.form,
        name,
        params,
        body,
    })
}

/// An object or a function without its lines and its parentheses.
#[tactic(auto, unfolding(crate::specs::Placed::strip_item))]
fn strip_one(alloc: Global, item: &PlacedItem) -> Result<CItem, NoMemory>
    ensures { IfOk result (λ i. i ≡ strip_item item.now) }
{
    match item {
        PlacedItem::Object(object) => Ok(CItem::Object(strip_object(alloc, object)?)),
        PlacedItem::Func(func) => Ok(CItem::Func(strip_func(alloc, func)?)),
    }
}

/// The objects and functions of a text without their lines and their parentheses (`strip_item` in
/// specs/Placed.antt): the trees that a program of this text has. NoMemory comes where memory is wanted;
/// then nothing is left. The stack that it takes is as deep as the blocks and the expressions of the
/// text.
pub fn strip_items(alloc: Global, items: &[PlacedItem]) -> Result<CItemList, NoMemory>
    ensures { IfOk result (λ list. list ≡ map strip_item items.now) }
{
    let mut list = ListOf::new(alloc);
    for item in items {
        list.push(strip_one(alloc, item)?)?;
    }
    Ok(list)
}
