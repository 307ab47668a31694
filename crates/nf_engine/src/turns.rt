//! One name's turn within a step.

ghost use Rattle.std.specs.Prelude.{◌≡◌, ◌+◌, ◌≤◌, ◌<◌, ◌++◌, true, false, All, length, slice_set, IfOk, OnOk};
ghost use Rattle.nf_core.specs.Plan.{IsPlan};
ghost use Rattle.nf_engine.specs.inner.Deltas.{no_change};
ghost use Rattle.nf_engine.specs.inner.Queues.{rank};
ghost use Rattle.nf_engine.specs.inner.Readers.{AreReaders};
ghost use Rattle.nf_engine.specs.inner.Rounds.{Passage, IsPassage, no_candidates, minimal_at, IsWithin, IsBetween, IsDueIn, work_left};
ghost use Rattle.nf_engine.specs.inner.Turns.{IsAppended, IsApplied, IsRecorded};
ghost use Rattle.nf_tally.specs.Numbers.{number, often};

use crate::evaluations::{evaluate, unchanged};
use crate::readers::queue_readers;
use crate::rounds::Round;
use nf_core::{Delta, IntervalList, ListOf, NoMemory, Plan, Steps};
use nf_minimal::Minimal;
use std::alloc::Global;
use std::mem;
use std::sync::ledger::Ledger;

/// Puts the intervals of a list behind those of another one.
fn append(list: &mut IntervalList, more: IntervalList) -> Result<(), NoMemory>
    ensures { OnOk result (list.new ≡ list.old ++ more) }
{
    for interval in more.into_vec() {
        list.push(interval)?;
    }
    Ok(())
}

/// Puts the intervals of a delta behind those of another one.
fn append_delta(delta: &mut Delta, more: Delta) -> Result<(), NoMemory>
    ensures { OnOk result (IsAppended more delta.old delta.new) }
{
    append(&mut delta.gone, more.gone)?;
    append(&mut delta.come, more.come)?;
    Ok(())
}

/// Whether nothing was lost and nothing gained.
fn is_nothing(delta: &Delta) -> bool
    ensures { result ≡ true → delta.now ≡ no_change }
{
    delta.gone.is_empty() && delta.come.is_empty()
}

/// Evaluates the next rule of a name, and puts what its results lost and gained behind what was
/// gathered. Answers whether there was one.
fn gather_next<L: Ledger>(
    alloc: Global,
    plan: &Plan,
    round: &mut Round,
    head: u32,
    gathered: &mut Delta,
    steps: &mut Steps<L>,
) -> Result<bool, NoMemory>
    ghost passage: { Passage }
    requires passage { IsPassage plan.now passage }
    requires head { head < length plan.now.names }
    requires gathering { IsWithin plan.now passage head gathered.old round.old }
    ensures gathering { OnOk result (IsWithin plan.now passage head gathered.new round.new) }
    ensures fewer { IfOk result (λ more. more ≡ true
        → length round.new.queue < length round.old.queue) }
    ensures last { IfOk result (λ more. more ≡ false
        → All (IsDueIn plan.now (rank plan.now head + 1)) round.new.queue) }
    ensures cost { OnOk result (steps.new
        + work_left plan.now passage (rank plan.now head + 1) round.new.queue
        ≤ steps.old + work_left plan.now passage (rank plan.now head + 1) round.old.queue) }
    ensures bound { steps.new
        ≤ steps.old + work_left plan.now passage (rank plan.now head + 1) round.old.queue }
{
    let Some(number) = round.queue.next_of(head) else {
        return Ok(false);
    };
    let delta = evaluate(alloc, plan, round, number, steps)?;
    round.queue.pop();
    append_delta(gathered, delta)?;
    Ok(true)
}

/// Evaluates all rules of a name that are to be evaluated, and answers what their results lost and
/// gained, one after the other.
fn gather<L: Ledger>(
    alloc: Global,
    plan: &Plan,
    round: &mut Round,
    head: u32,
    steps: &mut Steps<L>,
) -> Result<Delta, NoMemory>
    ghost passage: { Passage }
    requires passage { IsPassage plan.now passage }
    requires head { head < length plan.now.names }
    requires within { IsWithin plan.now passage head no_change round.old }
    ensures gathering { IfOk result (λ gathered.
        IsWithin plan.now passage head gathered round.new) }
    ensures last { OnOk result (All (IsDueIn plan.now (rank plan.now head + 1)) round.new.queue) }
    ensures cost { OnOk result (steps.new
        + work_left plan.now passage (rank plan.now head + 1) round.new.queue
        ≤ steps.old + work_left plan.now passage (rank plan.now head + 1) round.old.queue) }
    ensures bound { steps.new
        ≤ steps.old + work_left plan.now passage (rank plan.now head + 1) round.old.queue }
{
    let mut gathered = unchanged(alloc);
    let mut more = true;
    while more {
        more = gather_next(alloc, plan, round, head, &mut gathered, steps)?;
    }
    Ok(gathered)
}

/// Keeps what a name's held intervals lost and gained, unless that is nothing, and puts the rules that
/// read it into the queue.
fn record(
    plan: &Plan,
    readers: &[ListOf<u32>],
    round: &mut Round,
    head: u32,
    delta: Delta,
) -> Result<(), NoMemory>
    requires valid { IsPlan plan.now }
    requires readers { AreReaders plan.now readers.now }
    requires head { head < length plan.now.names }
    ensures { OnOk result (IsRecorded plan.now readers.now head delta round.old round.new) }
{
    if is_nothing(&delta) {
        return Ok(());
    }
    round.changed.record(head, delta)?;
    queue_readers(plan, readers[head as usize].as_slice(), &mut round.queue)?;
    Ok(())
}

/// Takes a name's candidates out.
fn take_name(alloc: Global, names: &mut Vec<Minimal>, place: usize) -> Minimal
    requires { place < length names.old.items }
    ensures name { result ≡ minimal_at names.old.items place }
    ensures rest { names.new.items ≡ slice_set names.old.items place no_candidates }
{
    mem::replace(&mut names[place], Minimal::new(alloc, false))
}

/// Puts a name's candidates back.
fn put_name(names: &mut Vec<Minimal>, place: usize, minimal: Minimal)
    requires { place < length names.old.items }
    ensures { names.new.items ≡ slice_set names.old.items place minimal }
{
    names[place] = minimal;
}

/// Gives a name's candidates what was gathered for it, and answers what its held intervals lost and
/// gained.
fn apply_at(
    alloc: Global,
    names: &mut Vec<Minimal>,
    place: usize,
    gathered: Delta,
) -> Result<Delta, NoMemory>
    requires place { place < length names.old.items }
    requires enough { (q : _) → often gathered.gone q
        ≤ number (minimal_at names.old.items place).sources q + often gathered.come q }
    ensures { IfOk result (λ delta.
        IsApplied place gathered delta names.old.items names.new.items) }
{
    let minimal = take_name(alloc, names, place);
    let (minimal, delta) = minimal.apply(alloc, gathered)?;
    put_name(names, place, minimal);
    Ok(delta)
}

/// Gives what is kept of a name what its rules and inputs lost and gained, and keeps what that made of
/// its held intervals; where that is nothing, the name stays as it is.
pub fn settle(
    alloc: Global,
    plan: &Plan,
    readers: &[ListOf<u32>],
    round: &mut Round,
    head: u32,
    gathered: Delta,
) -> Result<(), NoMemory>
    ghost passage: { Passage }
    requires passage { IsPassage plan.now passage }
    requires readers { AreReaders plan.now readers.now }
    requires head { head < length plan.now.names }
    requires gathering { IsWithin plan.now passage head gathered round.old }
    requires last { All (IsDueIn plan.now (rank plan.now head + 1)) round.old.queue }
    ensures between { OnOk result (IsBetween plan.now passage (rank plan.now head + 1) round.new) }
    ensures cost { OnOk result (work_left plan.now passage (rank plan.now head + 1) round.new.queue
        ≡ work_left plan.now passage (rank plan.now head + 1) round.old.queue) }
{
    if is_nothing(&gathered) {
        return Ok(());
    }
    let delta = apply_at(alloc, &mut round.names, head as usize, gathered)?;
    record(plan, readers, round, head, delta)?;
    Ok(())
}

/// Evaluates the rules of a name that are to be evaluated, and follows what that makes of it.
pub fn turn<L: Ledger>(
    alloc: Global,
    plan: &Plan,
    readers: &[ListOf<u32>],
    round: &mut Round,
    head: u32,
    steps: &mut Steps<L>,
) -> Result<(), NoMemory>
    ghost passage: { Passage }
    requires passage { IsPassage plan.now passage }
    requires readers { AreReaders plan.now readers.now }
    requires head { head < length plan.now.names }
    requires within { IsWithin plan.now passage head no_change round.old }
    ensures between { OnOk result (IsBetween plan.now passage (rank plan.now head + 1) round.new) }
    ensures cost { OnOk result (steps.new
        + work_left plan.now passage (rank plan.now head + 1) round.new.queue
        ≤ steps.old + work_left plan.now passage (rank plan.now head + 1) round.old.queue) }
    ensures bound { steps.new
        ≤ steps.old + work_left plan.now passage (rank plan.now head + 1) round.old.queue }
{
    let gathered = gather(alloc, plan, round, head, steps)?;
    settle(alloc, plan, readers, round, head, gathered)?;
    Ok(())
}
