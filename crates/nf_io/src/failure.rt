//! The one failure of the outside.

use thiserror::Error;

/// A call of a shelf or of a sink failed. It comes only where the count of faults rose.
#[derive(Debug, Clone, Copy, PartialEq, Eq, Error)]
#[error("failed")]
pub struct Failed;
