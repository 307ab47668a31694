//! The two evaluators beside each other, event by event, through the bound of their trait.

ghost use Rattle.std.specs.Prelude.{◌≡◌, ◌<◌, length, IfOk};
ghost use Rattle.nf_core.specs.Plan.{keys_of};

use crate::announcing::{change_lines, lines_shown};
use crate::answers::push_item;
use crate::building::build_answer;
use crate::given::Given;
use crate::intervals::{cell_of, interval_over, push_cell, times_shown};
use crate::stopped::{FORM, Stopped};
use nf_announce::write_held;
use nf_core::{Change, Interval, NamedList, Plan, Row, Steps};
use nf_engine::Engine;
use nf_model::{Inferer, Scratch};
use std::alloc::Global;
use std::marker::Brand;
use std::sync::ledger::{Blank, Ledger};

/// Events, `NAME TIMES KEY=VALUE ..`, one after the other, and what the heads lose and gain by each;
/// `write NAME TIMES KEY=VALUE ..`, the announcement lines of that change; `held NAME`, the held intervals
/// of a name; `shown`, the lines of all held intervals of heads; and `build FIRST & SECOND`, what the first
/// rule builds. Both evaluators take each row, and where their answers differ both are shown.
pub fn step_answers(
    alloc: Global,
    given: &Given<'_>,
    rows: &[&str],
) -> Result<Vec<String>, Stopped> {
    let plan = given.plan(alloc)?;
    counted::<Brand>(alloc, &plan, given.full, rows, Blank::new(1))
}

// The same, with the ledger of the counter.
fn counted<L: Ledger>(
    alloc: Global,
    plan: &Plan,
    full: bool,
    rows: &[&str],
    blank: Blank,
) -> Result<Vec<String>, Stopped>
    requires name { blank.name ≡ L.name }
    requires parts { blank.parts ≡ L.parts }
    requires one { L.parts ≡ 1 }
{
    let mut steps: Steps<L> = Steps::new(blank);
    let scratch = Scratch::new(alloc, plan, full)?;
    let slow = run(alloc, plan, scratch, rows, &mut steps)?;
    let engine = Engine::new(alloc, plan, full)?;
    let fast = run(alloc, plan, engine, rows, &mut steps)?;
    agreed(alloc, slow, fast)
}

// The answers that two evaluators agree on, and both where they don't.
fn agreed(alloc: Global, slow: Vec<String>, fast: Vec<String>) -> Result<Vec<String>, Stopped> {
    let mut found = Vec::new(alloc);
    for (slow, fast) in slow.into_iter().zip(fast) {
        if slow == fast {
            found.push(slow)?;
        } else {
            found.push(format!(in alloc; "slow {slow}, by deltas {fast}")?)?;
        }
    }
    Ok(found)
}

// Takes each row over an evaluator of the plan.
fn run<I: Inferer + Drop, L: Ledger>(
    alloc: Global,
    plan: &Plan,
    inferer: I,
    rows: &[&str],
    steps: &mut Steps<L>,
) -> Result<Vec<String>, Stopped>
    requires { (I.content inferer).plan ≡ plan.now }
{
    let mut inferer = inferer;
    let mut found = Vec::new(alloc);
    for row in rows {
        match row.split_once(' ') {
            Some(("held", name)) => found.push(held_shown(alloc, plan, &inferer, name)?)?,
            Some(("build", text)) => found.push(build_answer(alloc, plan, text, steps)?)?,
            None => found.push(all_shown(alloc, plan, &inferer, row)?)?,
            _ => {
                let (next, answer) = enter(alloc, plan, inferer, row, steps)?;
                inferer = next;
                found.push(answer)?;
            }
        }
    }
    Ok(found)
}

// The lines of all held intervals of heads, for the row `shown`.
fn all_shown<I: Inferer>(
    alloc: Global,
    plan: &Plan,
    inferer: &I,
    row: &str,
) -> Result<String, Stopped>
    requires { (I.content inferer.now).plan ≡ plan.now }
{
    if row != "shown" {
        return Err(FORM);
    }
    lines_shown(alloc, &write_held(alloc, plan, inferer)?)
}

// Enters an event, and shows the change, by its lines where it is to be written.
fn enter<I: Inferer + Drop, L: Ledger>(
    alloc: Global,
    plan: &Plan,
    inferer: I,
    row: &str,
    steps: &mut Steps<L>,
) -> Result<(I, String), Stopped>
    requires { (I.content inferer).plan ≡ plan.now }
    ensures { IfOk result (λ r. (I.content r.0).plan ≡ plan.now) }
{
    let event = row.strip_prefix("write ").unwrap_or(row);
    let (name, rest) = event.split_once(' ').ok_or(FORM)?;
    let name = plan.find(name).ok_or(FORM)?;
    if plan.is_wide(name) {
        return Err(FORM);
    }
    let interval = member_of(alloc, plan, name, rest)?;
    let (next, change) = inferer.step(alloc, name, interval, steps)?;
    let answer = if row.starts_with("write ") {
        change_lines(alloc, plan, &change)?
    } else {
        change_shown(alloc, plan, &change)?
    };
    Ok((next, answer))
}

/// The interval of a name of a plan that a text spells: its times, and the cells of the name's keys.
pub fn member_of(alloc: Global, plan: &Plan, name: u32, text: &str) -> Result<Interval, Stopped>
    requires { name < length plan.now.names }
    ensures { IfOk result (λ i. length i.row ≡ length (keys_of plan.now name)) }
{
    let (times, cells) = text.split_once(' ').unwrap_or((text, ""));
    let row = row_of(alloc, plan, name, cells)?;
    interval_over(times, row)
}

// The cells of a name's keys.
fn row_of(alloc: Global, plan: &Plan, name: u32, cells: &str) -> Result<Row, Stopped>
    requires { name < length plan.now.names }
    ensures { IfOk result (λ row. length row ≡ length (keys_of plan.now name)) }
{
    let mut row = Row::new(alloc);
    for place in 0..plan.keys(name) {
        row.push(cell_of(alloc, cells, plan.key(name, place))?)?;
    }
    if row.len() != plan.keys(name) as usize {
        return Err(FORM);
    }
    Ok(row)
}

// What the heads lost and gained, each after its sign.
fn change_shown(alloc: Global, plan: &Plan, change: &Change) -> Result<String, Stopped> {
    let mut out = String::new(alloc);
    push_signed(alloc, plan, "-", &change.gone, &mut out)?;
    push_signed(alloc, plan, "+", &change.come, &mut out)?;
    Ok(out)
}

fn push_signed(
    alloc: Global,
    plan: &Plan,
    sign: &str,
    list: &NamedList,
    out: &mut String,
) -> Result<(), Stopped> {
    for named in list.as_slice() {
        let text = member_shown(alloc, plan, named.name, &named.interval)?;
        let name = name_of(plan, named.name)?;
        let item = format!(in alloc; "{sign}{name} {text}")?;
        push_item(out, ", ", item.as_str())?;
    }
    Ok(())
}

fn name_of(plan: &Plan, name: u32) -> Result<&str, Stopped> {
    if name >= plan.names() {
        return Err(FORM);
    }
    Ok(plan.name(name))
}

/// An interval of a name of a plan: its times, and the cells that aren't missing.
pub fn member_shown(
    alloc: Global,
    plan: &Plan,
    name: u32,
    interval: &Interval,
) -> Result<String, Stopped> {
    if name >= plan.names() {
        return Err(FORM);
    }
    let mut out = times_shown(alloc, interval)?;
    for place in 0..plan.keys(name) {
        push_cell(
            &mut out,
            &interval.row,
            place as usize,
            plan.key(name, place),
        )?;
    }
    Ok(out)
}

/// The held intervals of a name.
pub fn held_shown<I: Inferer>(
    alloc: Global,
    plan: &Plan,
    inferer: &I,
    name: &str,
) -> Result<String, Stopped>
    requires { (I.content inferer.now).plan ≡ plan.now }
{
    let name = plan.find(name).ok_or(FORM)?;
    let mut out = String::new(alloc);
    for interval in inferer.held(name) {
        let text = member_shown(alloc, plan, name, interval)?;
        push_item(&mut out, ", ", text.as_str())?;
    }
    Ok(out)
}
