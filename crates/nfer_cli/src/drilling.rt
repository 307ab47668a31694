//! Counting what a made trace changes.

ghost use Rattle.std.specs.Prelude.{◌≡◌, ◌++◌, Some, IfOk, OnOk};
ghost use Rattle.nf_io.specs.Files.{Files};
ghost use Rattle.nf_io.specs.Tells.{ShelfTells};
ghost use Rattle.nfer_cli.specs.Answers.{count_line, summary_text};
ghost use Rattle.nfer_cli.specs.Calls.{CarriesOut};
ghost use Rattle.nfer_cli.specs.Evaluating.{EvaluatesWithin};
ghost use Rattle.nfer_cli.specs.Words.{Drill};
ghost use Rattle.nfer_cli.specs.inner.Failures.{concluded};

use crate::fault::Failure;
use crate::printing::print_text;
use itoa::Buffer;
use nf_core::{Lines, NoMemory, Steps};
use nf_drill::{drill_has_one_plan, drill_plan};
use nf_engine::Engine;
use nf_io::Sink;
use nf_session::{Summary, drill};
use std::alloc::Global;
use std::sync::ledger::Ledger;

/// Counts what this many lines of the made trace change, under the plan of `drill` and by minimality, and prints the
/// four counts. No file is read, and nothing is written before all is counted and the whole text is made.
pub(crate) fn run_drill<O: Sink, L: Ledger>(
    alloc: Global,
    lines: u32,
    out: &mut O,
    steps: &mut Steps<L>,
) -> Result<(), Failure>
    ensures carries_out { (shelf : ShelfTells) → CarriesOut (Some (Drill lines)) (concluded result)
        shelf shelf (O.tells out.old) (O.tells out.new) }
    ensures evaluates { (files : Files)
        → EvaluatesWithin (Some (Drill lines)) files steps.old steps.new }
{
    drill_has_one_plan();
    let plan = drill_plan(alloc)?;
    let engine = Engine::new(alloc, &plan, false)?;
    let summary = drill(alloc, &plan, engine, lines, steps)?;
    let text = summary_text(alloc, &summary)?;
    print_text(out, text.as_slice())
}

// The text of what was counted.
fn summary_text(alloc: Global, summary: &Summary) -> Result<Lines, NoMemory>
    ensures { IfOk result (λ text. text ≡ summary_text summary.now) }
{
    let mut text = Lines::new(alloc);
    push_count(&mut text, "lines", summary.lines)?;
    push_count(&mut text, "additions", summary.additions)?;
    push_count(&mut text, "withdrawals", summary.withdrawals)?;
    push_count(&mut text, "held", summary.held)?;
    Ok(text)
}

// Puts the line of a count at the end.
fn push_count(text: &mut Lines, what: &str, count: u64) -> Result<(), NoMemory>
    ensures { OnOk result (text.new ≡ text.old ++ count_line what.now count) }
{
    let mut number = Buffer::new();
    text.push(what.as_bytes())?;
    text.push(b" ")?;
    text.push(number.format(count).as_bytes())?;
    text.push(b"\n")
}
