//! What a C text declares: static objects and functions.

use crate::statements::CBlock;
use nf_core::{ListOf, Text, TextList};

/// An object or a function.
#[derive(Drop)]
pub enum CItem {
    Object(CObject),
    Func(CFunc),
}

/// A list of objects and functions, in the order of the text.
pub type CItemList = ListOf<CItem>;

/// A static object: an array of so many cells, or a scalar where no number is given.
#[derive(Debug, Drop)]
pub struct CObject {
    pub name: Text,
    pub cells: Option<i64>,
}

/// What stands before the name of a function: `static void`, `static int64_t` or `int64_t`.
#[derive(Debug, Clone, Copy, PartialEq, Eq)]
pub enum CForm {
    StaticVoid,
    StaticInt,
    Int,
}

/// A function: its form, its name, the names of its parameters and its body.
#[derive(Drop)]
pub struct CFunc {
    pub form: CForm,
    pub name: Text,
    pub params: TextList,
    pub body: CBlock,
}
