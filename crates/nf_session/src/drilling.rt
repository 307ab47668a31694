//! Running a made trace, and counting what it changes.

ghost use Rattle.std.specs.Prelude.{◌≡◌, ◌+◌, ◌-◌, ◌<◌, ◌≤◌, ◌^◌, ℕ, Bool, IsTrue, if◌then◌else◌, length, IfOk};
ghost use Rattle.nf_core.specs.Plan.{is_head};
ghost use Rattle.nf_core.specs.declared.intervals.Change.{Change as ChangeOf};
ghost use Rattle.nf_model.specs.Changes.{no_inputs, pool_of};
ghost use Rattle.nf_session.specs.Costs.{work_of};
ghost use Rattle.nf_session.specs.Drill.{IsSummary, counted, drill_events, held_in};
ghost use Rattle.nf_session.specs.inner.Drilling.{AreNumbersOf, HasDrilled, StandsAt};

use crate::making::{DrillNames, Maker};
use nf_core::{Change, Held, NoMemory, Plan, Steps};
use nf_model::Inferer;
use std::alloc::Global;
use std::sync::ledger::Ledger;

/// What is counted over a made trace: how many lines it has, how many intervals were announced and how many
/// withdrawn over all of them, and how many intervals of heads are held at its end. Each count stands still at
/// 2^64 - 1.
#[derive(Debug, Clone, Copy, PartialEq, Eq)]
pub struct Summary {
    pub lines: u64,
    pub additions: u64,
    pub withdrawals: u64,
    pub held: u64,
}

/// Enters the first so many lines of the made trace (`drill_events` of specs/Drill) into an inferer of a plan without
/// inputs, and counts what they change (`IsSummary` there). Lines whose name the plan doesn't have are counted and
/// enter nothing. NoMemory comes where memory is wanted.
///
/// With a thrifty inferer the counter of evaluated expressions rises by at most the work of those lines (`work_of` of
/// specs/Costs), on every answer.
pub fn drill<I: Inferer + Drop, L: Ledger>(
    alloc: Global,
    plan: &Plan,
    inferer: I,
    lines: u32,
    steps: &mut Steps<L>,
) -> Result<Summary, NoMemory>
    requires { I.content inferer ≡ no_inputs plan.now (I.content inferer).full }
    ensures summary { IfOk result (IsSummary plan.now (I.content inferer).full lines) }
    ensures work { IsTrue (I.is_thrifty inferer) → steps.new
        ≤ steps.old + work_of plan.now (I.content inferer).full (drill_events lines) }
{
    let names = DrillNames::of(plan);
    let mut drilled = Drilled {
        inferer,
        maker: Maker::new(),
        counts: Counts {
            additions: 0,
            withdrawals: 0,
        },
    };
    for _line in 0..lines {
        drilled = drilled.enter_next(alloc, plan, &names, steps)?;
    }
    Ok(Summary {
        lines: u64::from(lines),
        additions: drilled.counts.additions,
        withdrawals: drilled.counts.withdrawals,
        held: count_held(plan, &drilled.inferer),
    })
}

// How many intervals were announced so far, and how many withdrawn.
#[derive(Debug, Clone, Copy)]
struct Counts {
    additions: u64,
    withdrawals: u64,
}

impl Counts {
    // The counts with those of a change.
    fn with(self, change: &Change) -> Counts
        ensures additions { result.additions ≡ counted (self.additions + length change.now.come) }
        ensures withdrawals { result.withdrawals
            ≡ counted (self.withdrawals + length change.now.gone) }
    {
        Counts {
            additions: self.additions.saturating_add(change.come.len() as u64),
            withdrawals: self.withdrawals.saturating_add(change.gone.len() as u64),
        }
    }
}

// What was made and entered so far.
#[derive(Drop)]
struct Drilled<I: Inferer> {
    inferer: I,
    maker: Maker,
    counts: Counts,
}

impl<I: Inferer + Drop> Drilled<I> {
    // Makes the next line, enters it, and counts what it changes.
    fn enter_next<L: Ledger>(
        self,
        alloc: Global,
        plan: &Plan,
        names: &DrillNames,
        steps: &mut Steps<L>,
    ) -> Result<Drilled<I>, NoMemory>
        requires plan { (I.content self.inferer).plan ≡ plan.now }
        requires names { AreNumbersOf plan.now names.now }
        requires few { self.maker.time + 1 < 2 ^ 32 }
        ensures plan { IfOk result (λ r. (I.content r.inferer).plan ≡ plan.now) }
        ensures thrifty { IfOk result (λ r.
            I.is_thrifty r.inferer ≡ I.is_thrifty self.inferer) }
        ensures drilled { (full : Bool) (i : ℕ)
            → HasDrilled plan.now full i (I.content self.inferer) self.maker self.counts
            → IfOk result (λ r.
            HasDrilled plan.now full (i + 1) (I.content r.inferer) r.maker r.counts) }
        ensures work { (full : Bool) (i : ℕ)
            → HasDrilled plan.now full i (I.content self.inferer) self.maker self.counts
            → IsTrue (I.is_thrifty self.inferer)
            → steps.new + work_of plan.now full (drill_events i)
            ≤ steps.old + work_of plan.now full (drill_events (i + 1)) }
    {
        let Drilled {
            inferer,
            maker,
            counts,
        } = self;
        let maker = maker.next();
        let bits = maker.bits();
        match names.by_bits(bits) {
            None => Ok(Drilled {
                inferer,
                maker,
                counts,
            }),
            Some(name) => {
                let interval = maker.interval(alloc, plan, name)?;
                let (inferer, change) = inferer.step(alloc, name, interval, steps)?;
                Ok(Drilled {
                    inferer,
                    maker,
                    counts: counts.with(&change),
                })
            }
        }
    }
}

// How many intervals of heads are held.
fn count_held<I: Inferer>(plan: &Plan, inferer: &I) -> u64
    requires { (I.content inferer.now).plan ≡ plan.now }
    ensures { result ≡ counted (held_in (I.content inferer.now)) }
{
    let mut held: u64 = 0;
    for name in 0..plan.names() {
        held = held.saturating_add(count_of_name(plan, inferer, name));
    }
    held
}

// How many intervals of a name are held, where it is a head. Else 0.
fn count_of_name<I: Inferer>(plan: &Plan, inferer: &I, name: u32) -> u64
    requires plan { (I.content inferer.now).plan ≡ plan.now }
    requires name { name < length plan.now.names }
    ensures { result ≡ (if is_head plan.now name
        then counted (length (pool_of (I.content inferer.now) name)) else 0) }
{
    if plan.is_head(name) {
        count(inferer.held(name))
    } else {
        0
    }
}

// How many intervals there are.
fn count(held: Held<'_>) -> u64
    ensures { result ≡ counted (length held.entry) }
{
    let mut count: u64 = 0;
    for _interval in held {
        count = count.saturating_add(1);
    }
    count
}
