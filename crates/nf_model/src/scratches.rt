//! The slow evaluator.

ghost use Rattle.std.specs.Prelude.{◌≡◌, IfOk, false};
ghost use Rattle.nf_model.specs.Changes.{no_inputs};

use crate::changes::change_of;
use crate::evaluation::{empty_sets, pools_of};
use crate::inferers::Inferer;
use nf_core::{Change, Held, Interval, IntervalSet, NoMemory, Plan, Steps, TryCopy};
use std::alloc::Global;
use std::marker::Model;
use std::sync::ledger::Ledger;

/// An evaluator that keeps what was entered and computes all pools anew at each step, so it isn't
/// thrifty. Contracts see its content (`Content` of specs/Changes).
#[derive(Debug, Drop)]
pub struct Scratch {
    plan: Plan,
    full: bool,
    inputs: Vec<IntervalSet>,
    pools: Vec<IntervalSet>,
}

impl Model for Scratch {
    ghost use Rattle.nf_core.specs.contracts.terms.Term as term;
    ghost use Rattle.nf_model.specs.Changes as spec;
    ghost use Rattle.std.specs.Coded.{codes};

    ghost Value = { spec.Content };

    ghost coded = { Prim.hlevel (codes, term.the_row.coded) };

    ghost use Rattle.nf_model.specs.inner.Known.{IsEvaluated};

    ghost view = { λ s. record { plan = s.plan; full = s.full; inputs = s.inputs.items } };

    ghost invariant = { λ s. IsEvaluated s.plan s.full s.inputs.items s.pools.items };
}

impl Scratch {
    /// The evaluator of a plan, without inputs. Under `full` every candidate is held. The plan is
    /// copied. Without inputs every pool is empty, so no expression is evaluated.
    pub fn new(alloc: Global, plan: &Plan, full: bool) -> Result<Scratch, NoMemory>
        ensures content { IfOk result (λ scratch. scratch ≡ no_inputs plan.now full) }
    {
        let inputs = empty_sets(alloc, plan.names())?;
        let pools = empty_sets(alloc, plan.names())?;
        let plan = plan.copy(alloc)?;
        Ok(Scratch {
            plan,
            full,
            inputs,
            pools,
        })
    }
}

impl Inferer for Scratch {
    ghost content = { λ s. s };

    ghost is_thrifty = { λ s. false };

    fn step<L: Ledger>(
        self,
        alloc: Global,
        name: u32,
        interval: Interval,
        steps: &mut Steps<L>,
    ) -> Result<(Scratch, Change), NoMemory> {
        let Scratch {
            plan,
            full,
            mut inputs,
            pools: before,
        } = self;
        prove!(interval.start <= interval.stop);
        inputs[name as usize].insert(interval)?;
        let pools = pools_of(alloc, &plan, full, inputs.as_slice(), steps)?;
        let change = change_of(alloc, &plan, before.as_slice(), pools.as_slice())?;
        let scratch = Scratch {
            plan,
            full,
            inputs,
            pools,
        };
        Ok((scratch, change))
    }

    fn held(&self, name: u32) -> Held<'_> {
        self.pools[name as usize].walk()
    }
}
