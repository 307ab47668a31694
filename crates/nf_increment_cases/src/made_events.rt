//! Made events: intervals of names of a plan.

ghost use Rattle.std.specs.Prelude.{◌≡◌, ◌<◌, false, length, IfOk};
ghost use Rattle.nf_core.specs.Plan.{is_wide, keys_of};

use crate::random::Random;
use crate::stopped::Stopped;
use nf_core::{Interval, Plan, Row, Value};
use std::alloc::Global;

/// An interval of a name that ends at a time. Every other one is as long as 0.
pub fn made_event(
    alloc: Global,
    plan: &Plan,
    name: u32,
    time: u32,
    random: &mut Random,
) -> Result<Interval, Stopped>
    ensures row { IfOk result (λ i. length i.row ≡ length (keys_of plan.now name)) }
    ensures name { IfOk result (λ i. name < length plan.now.names) }
    ensures narrow { IfOk result (λ i. is_wide plan.now name ≡ false) }
{
    if name >= plan.names() || plan.is_wide(name) {
        return Err(Stopped::Form);
    }
    let row = made_row(alloc, plan.keys(name), random)?;
    if row.len() != plan.keys(name) as usize {
        return Err(Stopped::Form);
    }
    let stop = i64::from(time);
    let start = stop - i64::from(made_length(random));
    Ok(Interval { start, stop, row })
}

// Every other one is 0.
fn made_length(random: &mut Random) -> u32 {
    if random.one_in(2) { 0 } else { random.below(5) }
}

// A row of so many cells.
fn made_row(alloc: Global, cells: u32, random: &mut Random) -> Result<Row, Stopped> {
    let mut row = Row::new(alloc);
    for _ in 0..cells {
        push_cell(&mut row, random)?;
    }
    Ok(row)
}

// No value, a truth value, or one of a few whole numbers.
fn push_cell(row: &mut Row, random: &mut Random) -> Result<(), Stopped> {
    let number = random.below(7);
    match number {
        0 => row.push(None)?,
        1 => row.push(Some(Value::Bool(true)))?,
        2 => row.push(Some(Value::Bool(false)))?,
        3 => row.push(Some(Value::Int(i64::MAX)))?,
        _ => row.push(Some(Value::Int(i64::from(number) - 4)))?,
    }
    Ok(())
}
