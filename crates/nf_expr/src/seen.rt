//! Values as lent.

ghost use Rattle.std.specs.Prelude.{◌≡◌};
ghost use Rattle.nf_expr.specs.Seen.{value_seen};

use nf_core::{Text, Value};

/// A value as it is seen: a truth value, a whole number, or a text as lent. Contracts see the value
/// (`value_seen` of specs/Seen).
#[derive(Debug, Clone, Copy)]
pub enum Seen<'a> {
    Bool(bool),
    Int(i64),
    Text(&'a Text),
}

impl<'a> Seen<'a> {
    /// The value, as lent.
    pub(crate) fn of(value: &'a Value) -> Seen<'a>
        ensures { value_seen result ≡ value.now }
    {
        match value {
            Value::Bool(b) => Seen::Bool(*b),
            Value::Int(n) => Seen::Int(*n),
            Value::Text(text) => Seen::Text(text),
        }
    }
}
