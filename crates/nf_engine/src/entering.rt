//! An interval entered under its name.

ghost use Rattle.std.specs.Prelude.{◌≡◌, ◌+◌, ◌<◌, ◌≤◌, not, length, IfOk, OnOk};
ghost use Rattle.nf_core.specs.Sets.{has};
ghost use Rattle.nf_engine.specs.inner.Engines.{input_of, IsBegun};
ghost use Rattle.nf_engine.specs.inner.Engines as engines;
ghost use Rattle.nf_engine.specs.inner.Readers.{AreReaders};
ghost use Rattle.nf_engine.specs.inner.Rounds.{Passage, IsPassage};
ghost use Rattle.nf_engine.specs.inner.Running.{IsEnded, whole_work};

use crate::rounds::Round;
use crate::running::run;
use crate::turns::settle;
use nf_core::{Delta, Interval, IntervalList, IntervalSet, ListOf, NoMemory, Plan, Steps};
use nf_minimal::Minimal;
use std::alloc::Global;
use std::sync::ledger::Ledger;

/// Whether an interval is among the inputs of a name.
fn is_input(
    plan: &Plan,
    entered: &[IntervalSet],
    names: &[Minimal],
    name: u32,
    interval: &Interval,
) -> bool
    requires name { name < length plan.now.names }
    requires entered { length entered.now ≡ length plan.now.names }
    requires names { length names.now ≡ length plan.now.names }
    ensures { result ≡ has (input_of plan.now entered.now names.now name) interval.now }
{
    if plan.level(name) > 0 {
        entered[name as usize].has(interval)
    } else {
        names[name as usize].has_source(interval)
    }
}

/// The delta of an interval that comes.
fn coming(alloc: Global, interval: Interval) -> Result<Delta, NoMemory>
    ensures { IfOk result (λ delta. delta ≡ engines.coming interval) }
{
    let mut come = IntervalList::new(alloc);
    come.push(interval)?;
    Ok(Delta {
        gone: IntervalList::new(alloc),
        come,
    })
}

/// Gives an interval's name its turn, and then each name that depends on what changed; an interval
/// that is an input already changes nothing. At most the work of the step is done, also where memory
/// is wanted.
pub fn enter<L: Ledger>(
    alloc: Global,
    plan: &Plan,
    entered: &[IntervalSet],
    readers: &[ListOf<u32>],
    round: &mut Round,
    name: u32,
    interval: Interval,
    steps: &mut Steps<L>,
) -> Result<bool, NoMemory>
    ghost passage: { Passage }
    requires passage { IsPassage plan.now passage }
    requires entered { length entered.now ≡ length plan.now.names }
    requires names { length round.old.names.items ≡ length plan.now.names }
    requires readers { AreReaders plan.now readers.now }
    requires name { name < length plan.now.names }
    requires begun { IsBegun plan.now passage name interval
        (has (input_of plan.now entered.now round.old.names.items name) interval) round.old }
    ensures new { IfOk result (λ new. new
        ≡ not (has (input_of plan.now entered.now round.old.names.items name) interval)) }
    ensures ended { OnOk result (IsEnded plan.now passage round.new) }
    ensures cost { steps.new
        ≤ steps.old + whole_work plan.now passage }
{
    if is_input(plan, entered, round.names.as_slice(), name, &interval) {
        return Ok(false);
    }
    let delta = coming(alloc, interval)?;
    settle(alloc, plan, readers, round, name, delta)?;
    run(alloc, plan, readers, round, steps)?;
    Ok(true)
}
