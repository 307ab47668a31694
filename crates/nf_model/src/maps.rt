//! The rows that the maps of rules give.

ghost use Rattle.std.specs.List.{range_with_len};
ghost use Rattle.std.specs.Option.{option_copied};
ghost use Rattle.std.specs.Prelude.{◌≡◌, ◌==◌, ◌+◌, ◌≤◌, [], ◌∷◌, ◌++◌, IfOk, OnOk, All, map, find, option_map, length};
ghost use Rattle.nf_core.specs.Rows.{IsPlainCell};
ghost use Rattle.nf_core.specs.declared.terms.PlanEntry.{PlanEntry as EntryOf};
ghost use Rattle.nf_expr.specs.Seen.{value_seen};
ghost use Rattle.nf_model.specs.Members.{IsEntryOver};
ghost use Rattle.nf_model.specs.Results as spec;
ghost use Rattle.nf_model.specs.inner.MapEntries.{mapped_at};

use nf_core::{Interval, NoMemory, PlanEntry, Row, Steps, TryCopy, Value};
use nf_expr::{Seen, eval};
use std::alloc::Global;
use std::sync::ledger::Ledger;

/// The row that a map gives: for each place of the head's keys the value of the entry with that
/// place, and a missing cell where there is none or its value is Undefined (`row_of` of
/// specs/Results). Each entry is evaluated at most once.
pub(crate) fn mapped_row<L: Ledger>(
    alloc: Global,
    entries: &[PlanEntry],
    keys: u32,
    first: &Interval,
    second: Option<&Interval>,
    steps: &mut Steps<L>,
) -> Result<Row, NoMemory>
    requires { All (IsEntryOver first.now (option_copied second)) entries.now }
    ensures value { IfOk result (λ row. row ≡ map (λ place.
        spec.cell_of entries.now place first.now (option_copied second.entry))
        (range_with_len 0 keys)) }
    ensures counted { steps.old ≤ steps.new }
    ensures cost { steps.new ≤ steps.old + length entries.now }
{
    let mut row = Row::new(alloc);
    for place in 0..keys {
        push_cell(alloc, entries, place, first, second, steps, &mut row)?;
    }
    Ok(row)
}

/// Puts the cell that a map gives a place at the end of a row.
fn push_cell<L: Ledger>(
    alloc: Global,
    entries: &[PlanEntry],
    place: u32,
    first: &Interval,
    second: Option<&Interval>,
    steps: &mut Steps<L>,
    row: &mut Row,
) -> Result<(), NoMemory>
    requires { All (IsEntryOver first.now (option_copied second)) entries.now }
    ensures row { OnOk result (row.new ≡ row.old
        ++ spec.cell_of entries.now place first.now (option_copied second.entry) ∷ []) }
    ensures cost { steps.new ≡ steps.old + mapped_at entries.now place }
{
    let cell = owned(alloc, seen_at(entries, place, first, second, steps))?;
    row.push(cell)
}

/// The value that a map gives a place, as lent.
fn seen_at<'a, L: Ledger>(
    entries: &'a [PlanEntry],
    place: u32,
    first: &'a Interval,
    second: Option<&'a Interval>,
    steps: &mut Steps<L>,
) -> Option<Seen<'a>>
    requires { All (IsEntryOver first.now (option_copied second)) entries.now }
    ensures value { option_map value_seen result
        ≡ spec.cell_of entries.now place first.now (option_copied second.entry) }
    ensures plain { IsPlainCell (option_map value_seen result) }
    ensures cost { steps.new ≡ steps.old + mapped_at entries.now place }
{
    let entry = entry_at(entries, place)?;
    eval(&entry.value, first, second, steps)
}

/// The entry of a map with a place.
fn entry_at(entries: &[PlanEntry], place: u32) -> Option<&PlanEntry>
    ensures { option_copied result ≡ find (λ (entry : EntryOf). entry.place == place) entries.now }
{
    entries.iter().find(|entry| entry.place == place)
}

/// A value that is seen, copied.
fn owned(alloc: Global, seen: Option<Seen<'_>>) -> Result<Option<Value>, NoMemory>
    ensures { IfOk result (λ cell. cell ≡ option_map value_seen seen.entry) }
{
    match seen {
        None => Ok(None),
        Some(Seen::Bool(b)) => Ok(Some(Value::Bool(b))),
        Some(Seen::Int(n)) => Ok(Some(Value::Int(n))),
        Some(Seen::Text(text)) => Ok(Some(Value::Text(text.copy(alloc)?))),
    }
}
