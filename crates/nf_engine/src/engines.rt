//! The evaluator by deltas.

ghost use Rattle.std.specs.Prelude.{◌≡◌, true, IfOk};
ghost use Rattle.nf_model.specs.Changes.{no_inputs};

use crate::beginnings::{empty_names, empty_sets, idle_rules, index_readers};
use crate::deltas::Deltas;
use crate::entering::enter;
use crate::keeping::{keep, kept_copy};
use crate::parts::RulePart;
use crate::queues::Queue;
use crate::rounds::Round;
use nf_core::{Change, Held, Interval, IntervalSet, ListOf, NoMemory, Plan, Steps, TryCopy};
use nf_minimal::Minimal;
use nf_model::Inferer;
use std::alloc::Global;
use std::marker::Model;
use std::sync::ledger::Ledger;

/// An evaluator that follows each change through the rules that read it, so it is thrifty.
/// Contracts see its content (`Content` of nf_model's specs/Changes).
#[derive(Drop)]
pub struct Engine {
    plan: Plan,
    full: bool,
    entered: Vec<IntervalSet>,
    names: Vec<Minimal>,
    rules: Vec<Option<RulePart>>,
    readers: Vec<ListOf<u32>>,
}

impl Model for Engine {
    ghost use Rattle.nf_core.specs.contracts.terms.Term as term;
    ghost use Rattle.nf_model.specs.Changes as spec;
    ghost use Rattle.std.specs.Coded.{codes};

    ghost Value = { spec.Content };

    ghost coded = { Prim.hlevel (codes, term.the_row.coded) };

    ghost use Rattle.nf_engine.specs.inner.Engines.{content_of, IsEngine};

    ghost view = { λ e. content_of e.plan e.full e.entered.items e.names.items };

    ghost invariant = { λ e.
        IsEngine e.plan e.full e.entered.items e.names.items e.rules.items e.readers.items };
}

impl Engine {
    /// The evaluator of a plan, without inputs. Under `full` every candidate is held. The plan is
    /// copied. Without inputs every pool is empty, so no expression is evaluated.
    pub fn new(alloc: Global, plan: &Plan, full: bool) -> Result<Engine, NoMemory>
        ensures content { IfOk result (λ engine. engine ≡ no_inputs plan.now full) }
    {
        let entered = empty_sets(alloc, plan.names())?;
        let names = empty_names(alloc, plan, full)?;
        let rules = idle_rules(alloc, plan)?;
        let readers = index_readers(alloc, plan)?;
        let plan = plan.copy(alloc)?;
        Ok(Engine {
            plan,
            full,
            entered,
            names,
            rules,
            readers,
        })
    }
}

impl Inferer for Engine {
    ghost content = { λ e. e };

    ghost is_thrifty = { λ e. true };

    fn step<L: Ledger>(
        self,
        alloc: Global,
        name: u32,
        interval: Interval,
        steps: &mut Steps<L>,
    ) -> Result<(Engine, Change), NoMemory> {
        let Engine {
            plan,
            full,
            mut entered,
            names,
            rules,
            readers,
        } = self;
        prove!(interval.start <= interval.stop);
        let own = kept_copy(alloc, &plan, name, &interval)?;
        let mut round = Round {
            names,
            rules,
            changed: Deltas::new(alloc),
            queue: Queue::new(alloc),
        };
        let sets = entered.as_slice();
        let lists = readers.as_slice();
        let new = enter(alloc, &plan, sets, lists, &mut round, name, interval, steps)?;
        keep(&mut entered, name, own, new)?;
        let Round {
            names,
            rules,
            changed,
            queue: _,
        } = round;
        let change = changed.into_change(alloc, &plan)?;
        let engine = Engine {
            plan,
            full,
            entered,
            names,
            rules,
            readers,
        };
        Ok((engine, change))
    }

    fn held(&self, name: u32) -> Held<'_> {
        self.names[name as usize].held().walk()
    }
}
