//! The turns of names within a step.

ghost use Rattle.std.specs.Prelude.{◌+◌, ◌≤◌, OnOk};
ghost use Rattle.nf_engine.specs.inner.Readers.{AreReaders};
ghost use Rattle.nf_engine.specs.inner.Rounds.{Passage, IsPassage};
ghost use Rattle.nf_engine.specs.inner.Running.{IsStarted, IsEnded, whole_work};

use crate::rounds::Round;
use crate::turns::turn;
use nf_core::{ListOf, NoMemory, Plan, Steps};
use std::alloc::Global;
use std::sync::ledger::Ledger;

/// Gives each name its turn whose rules are to be evaluated, by level and number, until there is none.
pub fn run<L: Ledger>(
    alloc: Global,
    plan: &Plan,
    readers: &[ListOf<u32>],
    round: &mut Round,
    steps: &mut Steps<L>,
) -> Result<(), NoMemory>
    ghost passage: { Passage }
    requires passage { IsPassage plan.now passage }
    requires readers { AreReaders plan.now readers.now }
    requires started { IsStarted plan.now passage round.old }
    ensures ended { OnOk result (IsEnded plan.now passage round.new) }
    ensures cost { steps.new ≤ steps.old + whole_work plan.now passage }
{
    while let Some(due) = round.queue.first() {
        turn(alloc, plan, readers, round, due.head, steps)?;
    }
    Ok(())
}
