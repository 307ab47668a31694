//! Plans of specifications as text.

use crate::stopped::Stopped;
use nf_core::Plan;
use nf_spec::{SourceList, compile};
use std::alloc::Global;

/// The plan of rules.
pub fn plan_of(alloc: Global, rules: &[u8]) -> Result<Plan, Stopped> {
    let mut sources = SourceList::new(alloc);
    sources.add(rules)?;
    if sources.len() > u32::MAX as usize {
        return Err(Stopped::Form);
    }
    match compile(alloc, &sources, None) {
        Ok(compiled) => Ok(compiled.plan),
        Err(_) => Err(Stopped::Form),
    }
}
