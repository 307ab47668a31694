//! A rule with the counts of its results.

ghost use Rattle.std.specs.Prelude.{◌≡◌, [], ◌++◌, ◌+◌, ◌≤◌, IfOk};
ghost use Rattle.nf_core.specs.Sets.{once};
ghost use Rattle.nf_model.specs.Members.{IsPlanned, HaveAllPlaces};
ghost use Rattle.nf_model.specs.Results.{results};
ghost use Rattle.nf_model.specs.Work.{rule_work};
ghost use Rattle.nf_model.specs.Changes.{delta_of};
ghost use Rattle.nf_pairs.specs.Deltas.{IsDelta, before};
ghost use Rattle.nf_pairs.specs.Partners.{HasTwoAtoms};
ghost use Rattle.nf_join.specs.Joins.{IsInclusive, StandsFor};

use crate::exchanges::{Exchanged, exchange};
use nf_core::{Delta, NoMemory, PlanRule, Steps, TryCopy};
use nf_index::Store;
use nf_tally::Tally;
use std::alloc::Global;
use std::marker::Model;
use std::sync::ledger::Ledger;

/// An inclusive rule with how often each interval is among its results over two lists, which are
/// kept elsewhere. Contracts see the rule and the counts.
#[derive(Drop)]
pub struct Join {
    rule: PlanRule,
    counts: Tally,
}

impl Model for Join {
    ghost use Rattle.nf_core.specs.contracts.terms.Term as term;
    ghost use Rattle.nf_join.specs.Joins as spec;
    ghost use Rattle.std.specs.Coded.{codes};

    ghost Value = { spec.Join };

    ghost coded = { Prim.hlevel (codes, term.the_row.coded) };

    ghost view = { λ j. record { rule = j.rule; counts = j.counts } };

    ghost invariant = { λ j. spec.IsJoinRule j.rule };
}

impl Join {
    /// The join of a rule whose two lists are empty. The rule is copied; it is one of a plan, and
    /// not an exclusive one.
    pub fn new(alloc: Global, rule: &PlanRule) -> Result<Join, NoMemory>
        requires planned { IsPlanned rule.now }
        requires inclusive { IsInclusive rule.now.link }
        ensures rule { IfOk result (λ j. j.rule ≡ rule.now) }
        ensures stands { IfOk result (λ j. StandsFor j [] []) }
    {
        Ok(Join {
            rule: rule.copy(alloc)?,
            counts: Tally::new(alloc),
        })
    }

    /// The join after deltas of its two lists led to these stores, and what its results, each once,
    /// lost and gained by them.
    ///
    /// The join stood for the two lists before the deltas (`before` of nf_pairs' specs/Deltas), and
    /// then stands for those of the stores (`StandsFor` of specs/Joins). With one atom the second
    /// store and its delta aren't looked at. The rows of the intervals that are there or went have
    /// every place that the rule's clauses read. The counter rises by the work of the touched pairs
    /// at most (`rule_work` of nf_model's specs/Work), also where memory is wanted; the join is gone
    /// then.
    pub fn delta<L: Ledger>(
        self,
        alloc: Global,
        first: &Store,
        second: &Store,
        d1: &Delta,
        d2: &Delta,
        steps: &mut Steps<L>,
    ) -> Result<(Join, Delta), NoMemory>
        requires first { IsDelta first.now d1.now }
        requires second { HasTwoAtoms self.rule.link → IsDelta second.now d2.now }
        requires places { HaveAllPlaces self.rule self.rule.link
            (first.now ++ d1.now.gone) (second.now ++ d2.now.gone) }
        requires stands { StandsFor self (before d1.now first.now) (before d2.now second.now) }
        ensures rule { IfOk result (λ r. r.0.rule ≡ self.rule) }
        ensures stands { IfOk result (λ r. StandsFor r.0 first.now second.now) }
        ensures delta { IfOk result (λ r. r.1 ≡ delta_of
            (once (results self.rule (before d1.now first.now) (before d2.now second.now)))
            (once (results self.rule first.now second.now))) }
        ensures cost { steps.new ≤ steps.old + rule_work self.rule
            (record { firsts = before d1.now first.now; seconds = before d2.now second.now })
            (record { firsts = first.now; seconds = second.now }) }
    {
        let Join { rule, counts } = self;
        let Exchanged { lost, found } = exchange(alloc, &rule, first, second, d1, d2, steps)?;
        let (counts, delta) = counts.settle(alloc, lost.as_slice(), found)?;
        Ok((Join { rule, counts }, delta))
    }
}
