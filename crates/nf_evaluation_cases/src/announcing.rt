//! Announcement lines: what is printed of items, and what lines announce.

ghost use Rattle.std.specs.Prelude.{◌≡◌, ◌<◌, All, IfOk, IsTrue, length};
ghost use Rattle.nf_core.specs.Plan.{keys_of};
ghost use Rattle.nf_core.specs.declared.intervals.Named.{Named};
ghost use Rattle.nf_announce.specs.Printed.{IsPrintable};

use crate::events::{member_of, member_shown};
use crate::stopped::{FORM, Stopped};
use nf_announce::{Printed, PrintedList, Signed, print_lines, read_line, write_change};
use nf_core::{Change, Interval, Lines, NamedList, Plan, Text, TextList};
use std::alloc::Global;

/// The lines that are printed of items: each is a sign, a name of the plan, its times and its cells, and
/// ` & ` stands between two of them. `none` is no item.
pub fn printed_answer(alloc: Global, plan: &Plan, text: &str) -> Result<String, Stopped> {
    let items = items_of(alloc, plan, text)?;
    lines_shown(alloc, &print_lines(alloc, &items)?)
}

/// Lines, as they are.
pub fn lines_shown(alloc: Global, lines: &Lines) -> Result<String, Stopped> {
    let text = str::from_utf8(lines.as_slice()).map_err(|_| FORM)?;
    Ok(String::from_str(alloc, text)?)
}

/// The announcement lines of a change.
pub fn change_lines(alloc: Global, plan: &Plan, change: &Change) -> Result<String, Stopped> {
    if !are_named(plan, &change.gone) || !are_named(plan, &change.come) {
        return Err(FORM);
    }
    lines_shown(alloc, &write_change(alloc, plan, change)?)
}

// Whether all items have names of a plan.
fn are_named(plan: &Plan, items: &NamedList) -> bool
    ensures { IsTrue result
        → All (λ (item : Named). item.name < length plan.now.names) items.now }
{
    items.as_slice().iter().all(|item| item.name < plan.names())
}

fn items_of(alloc: Global, plan: &Plan, text: &str) -> Result<PrintedList, Stopped>
    ensures { IfOk result (All IsPrintable) }
{
    let mut items = PrintedList::new(alloc);
    if text == "none" {
        return Ok(items);
    }
    'items: for item in text.split(" & ") {
        items.push(item_of(alloc, plan, item)?)?;
    }
    Ok(items)
}

fn item_of(alloc: Global, plan: &Plan, text: &str) -> Result<Printed, Stopped>
    ensures { IfOk result IsPrintable }
{
    let (added, text) = signed_of(text)?;
    let (name, rest) = text.split_once(' ').ok_or(FORM)?;
    let number = plan.find(name).ok_or(FORM)?;
    if number >= plan.names() {
        return Err(FORM);
    }
    if plan.is_wide(number) {
        return Err(FORM);
    }
    let Interval { start, stop, row } = member_of(alloc, plan, number, rest)?;
    Ok(Printed {
        added,
        name: Text::new(alloc, plan.name(number))?,
        start,
        stop,
        keys: keys_listed(alloc, plan, number)?,
        row,
    })
}

// Whether a text begins with `+`, and not with `-`, and what stands behind it.
fn signed_of(text: &str) -> Result<(bool, &str), Stopped> {
    match (text.strip_prefix("+"), text.strip_prefix("-")) {
        (Some(rest), _) => Ok((true, rest)),
        (None, Some(rest)) => Ok((false, rest)),
        (None, None) => Err(FORM),
    }
}

// The keys of a name.
fn keys_listed(alloc: Global, plan: &Plan, name: u32) -> Result<TextList, Stopped>
    requires { name < length plan.now.names }
    ensures { IfOk result (λ keys. keys ≡ keys_of plan.now name) }
{
    let mut keys = TextList::new(alloc);
    'keys: for place in 0..plan.keys(name) {
        keys.push(Text::new(alloc, plan.key(name, place))?)?;
    }
    Ok(keys)
}

/// What a line announces: its sign, its name, its times and its cells; `none` where it announces nothing.
pub fn announced_answer(alloc: Global, plan: &Plan, line: &[u8]) -> Result<String, Stopped> {
    match read_line(alloc, plan, line)? {
        Some(signed) => signed_shown(alloc, plan, &signed),
        None => Ok(String::from_str(alloc, "none")?),
    }
}

fn signed_shown(alloc: Global, plan: &Plan, signed: &Signed) -> Result<String, Stopped> {
    let sign = if signed.added { "+" } else { "-" };
    let item = &signed.item;
    if item.name >= plan.names() {
        return Err(FORM);
    }
    let name = plan.name(item.name);
    let text = member_shown(alloc, plan, item.name, &item.interval)?;
    Ok(format!(in alloc; "{sign}{name} {text}")?)
}
