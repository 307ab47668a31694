//! The clauses of rules.

/// A clause with an expression: `where`, an entry of the map, `begin` or `end`.
#[derive(Debug, Clone, Copy)]
pub(crate) enum Clause {
    Filter,
    Entry,
    Start,
    Stop,
}
