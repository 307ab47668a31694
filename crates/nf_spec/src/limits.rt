//! The limit of a specification.

/// The most bytes of all sources of a specification together.
pub const SPECIFICATION_LIMIT: usize = 1_048_576;
