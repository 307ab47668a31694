//! Values.

use crate::copies::TryCopy;
use crate::errors::NoMemory;
use crate::texts::Text;
use std::alloc::Global;

/// A value: a truth value, a whole number or a text.
///
/// Truth values come first, false before true, then whole numbers by size, then texts by their
/// bytes (`value_cmp` of specs/Values).
#[derive(Debug, Drop, PartialEq, Eq, PartialOrd, Ord)]
pub enum Value {
    Bool(bool),
    Int(i64),
    Text(Text),
}

impl TryCopy for Value {
    fn copy(&self, alloc: Global) -> Result<Value, NoMemory> {
        match self {
            Value::Bool(b) => Ok(Value::Bool(*b)),
            Value::Int(n) => Ok(Value::Int(*n)),
            Value::Text(text) => Ok(Value::Text(text.copy(alloc)?)),
        }
    }
}
