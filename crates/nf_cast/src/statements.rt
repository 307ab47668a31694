//! The statements of a C text.

use crate::expressions::{CBound, CExpr, CExprList, CRight};
use nf_core::Text;
use sqlite_items::Items;

/// A block: the statements between `{` and `}`.
#[cycle(statements)]
#[derive(Drop)]
pub struct CBlock {
    pub stmts: CStmtList,
}

/// A statement. `Local` declares a local, `Assign` writes a variable, `Store` an element of an array.
/// In `For` the one name is that of the whole header, which counts it from 0 up to the bound.
#[cycle(statements)]
#[derive(Drop)]
pub enum CStmt {
    Local {
        constant: bool,
        name: Text,
        right: CRight,
    },
    Assign(Text, CRight),
    Store(Text, CExpr, CExpr),
    Call(Text, CExprList),
    If(CExpr, CBlock, Option<CBlock>),
    For {
        name: Text,
        bound: CBound,
        body: CBlock,
    },
    Return(Option<CExpr>),
}

/// A list of statements.
pub type CStmtList = Items<CStmt>;
