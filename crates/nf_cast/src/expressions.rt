//! The expressions of a C text.

use nf_core::{BinOp, ListOf, NoMemory, Text, TryCopy};
use sqlite_items::Boxed;
use std::alloc::Global;

/// An expression. `Lit` is a literal `INT64_C(n)`, `Name` a variable and `Cell` an element of an
/// array. In `Bin`, `Or` stands for `||`, `And` for `&&`, and the other operators for those of their
/// meaning. Parentheses leave no node.
#[derive(Debug, Drop)]
pub enum CExpr {
    Lit(i64),
    Name(Text),
    Cell(Text, Boxed<CExpr>),
    Neg(Boxed<CExpr>),
    Not(Boxed<CExpr>),
    Bin(BinOp, Boxed<CExpr>, Boxed<CExpr>),
}

/// A list of expressions.
pub type CExprList = ListOf<CExpr>;

/// What stands to the right of `=` in a statement: a call, or an expression.
#[derive(Debug, Drop)]
pub enum CRight {
    Call(Text, CExprList),
    Value(CExpr),
}

/// The bound of a loop: a literal, or a constant.
#[derive(Debug, Drop)]
pub enum CBound {
    Lit(i64),
    Name(Text),
}

impl TryCopy for CExpr {
    fn copy(&self, alloc: Global) -> Result<CExpr, NoMemory> {
        match self {
            CExpr::Lit(n) => Ok(CExpr::Lit(*n)),
            CExpr::Name(name) => Ok(CExpr::Name(name.copy(alloc)?)),
            CExpr::Cell(name, index) => {
                let index = Boxed::new(alloc, index.get().copy(alloc)?)?;
                Ok(CExpr::Cell(name.copy(alloc)?, index))
            }
            CExpr::Neg(e) => Ok(CExpr::Neg(Boxed::new(alloc, e.get().copy(alloc)?)?)),
            CExpr::Not(e) => Ok(CExpr::Not(Boxed::new(alloc, e.get().copy(alloc)?)?)),
            CExpr::Bin(op, left, right) => {
                let left = Boxed::new(alloc, left.get().copy(alloc)?)?;
                let right = Boxed::new(alloc, right.get().copy(alloc)?)?;
                Ok(CExpr::Bin(*op, left, right))
            }
        }
    }
}

impl TryCopy for CRight {
    fn copy(&self, alloc: Global) -> Result<CRight, NoMemory> {
        match self {
            CRight::Call(name, arguments) => {
                Ok(CRight::Call(name.copy(alloc)?, arguments.copy(alloc)?))
            }
            CRight::Value(e) => Ok(CRight::Value(e.copy(alloc)?)),
        }
    }
}

impl TryCopy for CBound {
    fn copy(&self, alloc: Global) -> Result<CBound, NoMemory> {
        match self {
            CBound::Lit(n) => Ok(CBound::Lit(*n)),
            CBound::Name(name) => Ok(CBound::Name(name.copy(alloc)?)),
        }
    }
}
