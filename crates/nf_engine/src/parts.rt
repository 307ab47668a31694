//! What is kept of a rule between two steps.

ghost use Rattle.std.specs.Prelude.{◌≡◌, ℕ, ◌+◌, ◌≤◌, [], ◌++◌, Some, IfOk};
ghost use Rattle.nf_core.specs.Sets.{once};
ghost use Rattle.nf_model.specs.Members.{IsPlanned, HaveAllPlaces};
ghost use Rattle.nf_model.specs.Results.{results};
ghost use Rattle.nf_model.specs.Work.{rule_work};
ghost use Rattle.nf_model.specs.Changes.{delta_of};
ghost use Rattle.nf_pairs.specs.Deltas.{IsDelta, before};

use nf_core::{Delta, Link, NoMemory, PlanRule, Steps};
use nf_exclude::Exclude;
use nf_index::Store;
use nf_join::Join;
use std::alloc::Global;
use std::sync::ledger::Ledger;

/// A rule, with what its results stand on.
#[derive(Drop)]
pub enum RulePart {
    Join(Join),
    Exclude(Exclude),
}

impl RulePart {
    ghost use Rattle.nf_engine.specs.inner.Parts.{rule_of, StandsFor};

    /// The part of a rule whose names have no intervals.
    pub fn new(alloc: Global, rule: &PlanRule) -> Result<RulePart, NoMemory>
        requires { IsPlanned rule.now }
        ensures rule { IfOk result (λ part. rule_of part ≡ rule.now) }
        ensures stands { IfOk result (λ part. StandsFor part [] []) }
    {
        match rule.link {
            Link::One | Link::Pair(..) => Ok(RulePart::Join(Join::new(alloc, rule)?)),
            Link::Unless(..) => Ok(RulePart::Exclude(Exclude::new(alloc, rule)?)),
        }
    }

    /// Follows its two lists, which the deltas led to, and answers what the results lost and
    /// gained. At most the work of that is done, also where memory is wanted.
    pub fn delta<L: Ledger>(
        self,
        alloc: Global,
        first: &Store,
        second: &Store,
        d1: &Delta,
        d2: &Delta,
        steps: &mut Steps<L>,
    ) -> Result<(RulePart, Delta), NoMemory>
        requires first { IsDelta first.now d1.now }
        requires second { IsDelta second.now d2.now }
        requires places { HaveAllPlaces (rule_of self) (rule_of self).link
            (first.now ++ d1.now.gone) (second.now ++ d2.now.gone) }
        requires stands { StandsFor self (before d1.now first.now) (before d2.now second.now) }
        ensures rule { IfOk result (λ r. rule_of r.0 ≡ rule_of self) }
        ensures stands { IfOk result (λ r. StandsFor r.0 first.now second.now) }
        ensures delta { IfOk result (λ r. r.1 ≡ delta_of
            (once (results (rule_of self) (before d1.now first.now) (before d2.now second.now)))
            (once (results (rule_of self) first.now second.now))) }
        ensures cost { steps.new ≤ steps.old + rule_work (rule_of self)
            (record { firsts = before d1.now first.now; seconds = before d2.now second.now })
            (record { firsts = first.now; seconds = second.now }) }
    {
        match self {
            RulePart::Join(join) => {
                let (join, delta) = join.delta(alloc, first, second, d1, d2, steps)?;
                Ok((RulePart::Join(join), delta))
            }
            RulePart::Exclude(exclude) => {
                let (exclude, delta) = exclude.delta(alloc, first, second, d1, d2, steps)?;
                Ok((RulePart::Exclude(exclude), delta))
            }
        }
    }
}
