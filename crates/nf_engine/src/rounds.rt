//! A step underway.

use crate::deltas::Deltas;
use crate::parts::RulePart;
use crate::queues::Queue;
use nf_minimal::Minimal;

/// What is kept of names and rules in a step, what changed so far, and which rules are to be
/// evaluated.
#[derive(Drop)]
pub struct Round {
    pub names: Vec<Minimal>,
    pub rules: Vec<Option<RulePart>>,
    pub changed: Deltas,
    pub queue: Queue,
}
