//! The values that texts spell.

/// What a text spells: a truth value, a whole number, or itself, as lent. Contracts see it by `spelling`
/// of specs/Value.antt.
#[derive(Debug, Clone, Copy, PartialEq, Eq)]
pub enum Read<'a> {
    Bool(bool),
    Int(i64),
    Text(&'a str),
}
