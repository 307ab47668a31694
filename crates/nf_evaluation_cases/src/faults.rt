//! What faults print.

use crate::stopped::{FORM, Stopped};
use nf_core::NoMemory;
use nf_io::Failed;
use nf_line::{CutFault, LineFault, TraceFault};
use std::alloc::Global;

/// What a fault prints that is told by a word or two; a refused line is told by its fault.
pub fn fault_answer(alloc: Global, row: &str) -> Result<String, Stopped> {
    match row {
        "cut long" => Ok(format!(in alloc; "{}", CutFault::Long)?),
        "cut memory" => Ok(format!(in alloc; "{}", CutFault::NoMemory)?),
        "call failed" => Ok(format!(in alloc; "{}", Failed)?),
        "memory" => Ok(format!(in alloc; "{}", NoMemory)?),
        _ => trace_fault_answer(alloc, row),
    }
}

fn trace_fault_answer(alloc: Global, row: &str) -> Result<String, Stopped> {
    let fault = match row {
        "trace long" => TraceFault::Long(7),
        "trace not text" => TraceFault::Line(7, LineFault::NotText),
        "trace fields" => TraceFault::Line(7, LineFault::Fields),
        "trace time" => TraceFault::Line(7, LineFault::Time),
        "trace span" => TraceFault::Line(7, LineFault::Span),
        "trace key" => TraceFault::Line(7, LineFault::Key),
        "trace counts" => TraceFault::Line(7, LineFault::Counts),
        "trace order" => TraceFault::Order {
            line: 7,
            kept: 5,
            found: 4,
        },
        "trace too long" => TraceFault::TooLong,
        _ => return Err(FORM),
    };
    Ok(format!(in alloc; "{fault}")?)
}
