//! The engine beside the slow evaluator, event by event.

ghost use Rattle.std.specs.Prelude.{◌≡◌, ◌<◌, false, length, IfOk};
ghost use Rattle.nf_core.specs.Plan.{is_wide, keys_of};

use crate::made_events::made_event;
use crate::made_rules::made_rules;
use crate::plans::plan_of;
use crate::random::Random;
use crate::stopped::Stopped;
use nf_core::{Change, Interval, Named, Plan, Steps, TryCopy};
use nf_engine::Engine;
use nf_model::{Inferer, Scratch};
use std::alloc::Global;
use std::sync::ledger::Ledger;

// How many events a seed has.
const EVENTS: u32 = 24;

// Both evaluators of a plan.
#[derive(Drop)]
struct Both {
    engine: Engine,
    scratch: Scratch,
}

/// Whether the engine agrees with the slow evaluator over the made specification and the made events of a seed: after
/// each event both answer the same change, and hold the same of each name. An odd seed holds every candidate.
pub fn agrees<L: Ledger>(alloc: Global, seed: u32, steps: &mut Steps<L>) -> Result<bool, Stopped> {
    let mut random = Random::new(u64::from(seed));
    let text = made_rules(alloc, &mut random)?;
    let plan = plan_of(alloc, text.as_bytes())?;
    agrees_under(alloc, &plan, seed % 2 == 1, &mut random, steps)
}

// The same under the plan of the specification.
fn agrees_under<L: Ledger>(
    alloc: Global,
    plan: &Plan,
    full: bool,
    random: &mut Random,
    steps: &mut Steps<L>,
) -> Result<bool, Stopped> {
    let mut both = Both {
        engine: Engine::new(alloc, plan, full)?,
        scratch: Scratch::new(alloc, plan, full)?,
    };
    let mut time: u32 = 0;
    for _ in 0..EVENTS {
        time = time.saturating_add(random.below(3));
        let name = random.below(plan.names());
        let interval = made_event(alloc, plan, name, time, random)?;
        let (next, alike) = enter(alloc, plan, both, name, interval, steps)?;
        if !alike || !hold_alike(plan, &next) {
            return Ok(false);
        }
        both = next;
    }
    Ok(true)
}

// Enters an interval into both, and answers whether they change alike.
fn enter<L: Ledger>(
    alloc: Global,
    plan: &Plan,
    both: Both,
    name: u32,
    interval: Interval,
    steps: &mut Steps<L>,
) -> Result<(Both, bool), Stopped>
    requires engine { both.engine.plan ≡ plan.now }
    requires scratch { both.scratch.plan ≡ plan.now }
    requires name { name < length plan.now.names }
    requires narrow { is_wide plan.now name ≡ false }
    requires row { length interval.row ≡ length (keys_of plan.now name) }
    ensures engine { IfOk result (λ r. r.0.engine.plan ≡ plan.now) }
    ensures scratch { IfOk result (λ r. r.0.scratch.plan ≡ plan.now) }
{
    let Both { engine, scratch } = both;
    let (engine, change) = engine.step(alloc, name, interval.copy(alloc)?, steps)?;
    let (scratch, wanted) = scratch.step(alloc, name, interval, steps)?;
    let alike = is_same_change(&change, &wanted);
    Ok((Both { engine, scratch }, alike))
}

// Whether two changes are equal.
fn is_same_change(one: &Change, other: &Change) -> bool {
    is_same_list(one.gone.as_slice(), other.gone.as_slice())
        && is_same_list(one.come.as_slice(), other.come.as_slice())
}

// Whether two lists have the same intervals of the same names at each place.
fn is_same_list(one: &[Named], other: &[Named]) -> bool {
    one.len() == other.len()
        && one.iter().zip(other.iter()).all(|(item, wanted)| item.name == wanted.name
            && item.interval == wanted.interval)
}

// Whether both hold the same of each name.
fn hold_alike(plan: &Plan, both: &Both) -> bool
    requires engine { both.now.engine.plan ≡ plan.now }
    requires scratch { both.now.scratch.plan ≡ plan.now }
{
    for name in 0..plan.names() {
        if !both.engine.held(name).eq(both.scratch.held(name)) {
            return false;
        }
    }
    true
}
