//! The trees of a C text as it is written: with the line of each token at which a rule may be broken,
//! with its parentheses, and with all four names of a loop's header.

use crate::objects::CForm;
use nf_core::{BinOp, ListOf, Text};
use sqlite_items::{Boxed, Items};

/// A name, and the line on which it stands, counted from 1.
#[derive(Debug, Drop)]
pub struct PlacedName {
    pub line: u64,
    pub name: Text,
}

/// An expression. Each node but a binary operator's has the line of its first token. `Parens` is an
/// expression between parentheses.
#[derive(Debug, Drop)]
pub enum PlacedExpr {
    Lit(u64, i64),
    Name(PlacedName),
    Cell(PlacedName, Boxed<PlacedExpr>),
    Neg(u64, Boxed<PlacedExpr>),
    Not(u64, Boxed<PlacedExpr>),
    Bin(BinOp, Boxed<PlacedExpr>, Boxed<PlacedExpr>),
    Parens(u64, Boxed<PlacedExpr>),
}

/// A list of expressions.
pub type PlacedExprList = ListOf<PlacedExpr>;

/// What stands to the right of `=` in a statement.
#[derive(Debug, Drop)]
pub enum PlacedRight {
    Call(PlacedName, PlacedExprList),
    Value(PlacedExpr),
}

/// The bound of a loop.
#[derive(Debug, Drop)]
pub enum PlacedBound {
    Lit(i64),
    Name(PlacedName),
}

/// A block.
#[cycle(placed)]
#[derive(Drop)]
pub struct PlacedBlock {
    pub stmts: Items<PlacedStmt>,
}

/// A statement. The header of a `For` declares `name`, compares `tested` with the bound, and sets
/// `set` to one more than `counted`. A `Return` has the line of its word.
#[cycle(placed)]
#[derive(Drop)]
pub enum PlacedStmt {
    Local {
        constant: bool,
        name: PlacedName,
        right: PlacedRight,
    },
    Assign(PlacedName, PlacedRight),
    Store(PlacedName, PlacedExpr, PlacedExpr),
    Call(PlacedName, PlacedExprList),
    If(PlacedExpr, PlacedBlock, Option<PlacedBlock>),
    For {
        name: PlacedName,
        tested: PlacedName,
        bound: PlacedBound,
        set: PlacedName,
        counted: PlacedName,
        body: PlacedBlock,
    },
    Return(u64, Option<PlacedExpr>),
}

/// The number of an array's cells, and the line of its literal.
#[derive(Debug, Clone, Copy, PartialEq, Eq)]
pub struct PlacedCells {
    pub line: u64,
    pub count: i64,
}

/// A static object.
#[derive(Debug, Drop)]
pub struct PlacedObject {
    pub name: PlacedName,
    pub cells: Option<PlacedCells>,
}

/// A function. `end` is the line of its closing brace.
#[derive(Drop)]
pub struct PlacedFunc {
    pub form: CForm,
    pub name: PlacedName,
    pub params: ListOf<PlacedName>,
    pub body: PlacedBlock,
    pub end: u64,
}

/// An object or a function.
#[derive(Drop)]
pub enum PlacedItem {
    Object(PlacedObject),
    Func(PlacedFunc),
}

/// A list of objects and functions, in the order of the text.
pub type PlacedItemList = ListOf<PlacedItem>;
