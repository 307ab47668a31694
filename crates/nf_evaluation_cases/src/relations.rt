//! Relations of two intervals.

use crate::answers::push_item;
use crate::intervals::times_of;
use crate::stopped::{FORM, Stopped};
use nf_core::{Op, Xop};
use nf_relations::{blocks, holds, span};
use std::alloc::Global;

static OPERATORS: [Op; 8] = [
    Op::Before,
    Op::Meet,
    Op::During,
    Op::Coincide,
    Op::Start,
    Op::Finish,
    Op::Overlap,
    Op::Slice,
];

static BLOCKERS: [Xop; 3] = [Xop::After, Xop::Follow, Xop::Contain];

/// Two intervals' times: the operators that hold of them, each with the span of its result, and those
/// by which the second one blocks the first one.
pub fn relation_answer(alloc: Global, row: &str) -> Result<String, Stopped> {
    let (first, second) = row.split_once(' ').ok_or(FORM)?;
    let (s1, e1) = times_of(first)?;
    let (s2, e2) = times_of(second)?;
    let mut out = String::new(alloc);
    for op in OPERATORS.iter() {
        if holds(*op, s1, e1, s2, e2) {
            let (start, stop) = span(*op, s1, e1, s2, e2);
            let item = format!(in alloc; "{op:?} {start}..{stop}")?;
            push_item(&mut out, ", ", item.as_str())?;
        }
    }
    for xop in BLOCKERS.iter() {
        if blocks(*xop, s1, e1, s2, e2) {
            let item = format!(in alloc; "unless {xop:?}")?;
            push_item(&mut out, ", ", item.as_str())?;
        }
    }
    Ok(out)
}
