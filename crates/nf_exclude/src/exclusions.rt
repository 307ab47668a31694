//! An exclusive rule between two steps.

ghost use Rattle.std.specs.Prelude.{◌≡◌, ◌+◌, ◌≤◌, ◌++◌, [], IfOk};
ghost use Rattle.nf_core.specs.Sets.{once};
ghost use Rattle.nf_model.specs.Members.{IsPlanned, HaveAllPlaces};
ghost use Rattle.nf_model.specs.Results.{results};
ghost use Rattle.nf_model.specs.Work.{rule_work};
ghost use Rattle.nf_model.specs.Changes.{delta_of};
ghost use Rattle.nf_pairs.specs.Deltas.{IsDelta, before};
ghost use Rattle.nf_exclude.specs.Exclusions.{IsExclusive, StandsFor, sides};

use crate::following::{Moves, follow};
use nf_core::{Delta, NoMemory, PlanRule, Steps, TryCopy};
use nf_index::Store;
use nf_tally::Tally;
use std::alloc::Global;
use std::marker::Model;
use std::sync::ledger::Ledger;

/// An exclusive rule, how many blockers each interval of its first name has, and how often each
/// interval is a result. Only intervals that are blocked have a number, and only results a count.
#[derive(Drop)]
pub struct Exclude {
    rule: PlanRule,
    blockers: Tally,
    counts: Tally,
}

impl Model for Exclude {
    ghost use Rattle.nf_core.specs.contracts.terms.Term as term;
    ghost use Rattle.nf_exclude.specs.Exclusions as spec;
    ghost use Rattle.std.specs.Coded.{codes};

    ghost Value = { spec.Exclude };

    ghost coded = { Prim.hlevel (codes, term.the_row.coded) };

    ghost view = { λ e. record { rule = e.rule; blockers = e.blockers; counts = e.counts } };

    ghost invariant = { λ e. spec.IsExclusiveRule e.rule };
}

impl Exclude {
    /// An exclusive rule over two empty lists (`StandsFor` of specs/Exclusions). The rule is copied;
    /// it is one of a plan. Fails where memory is wanted.
    pub fn new(alloc: Global, rule: &PlanRule) -> Result<Exclude, NoMemory>
        requires planned { IsPlanned rule.now }
        requires exclusive { IsExclusive rule.now.link }
        ensures rule { IfOk result (λ e. e.rule ≡ rule.now) }
        ensures stands { IfOk result (λ e. StandsFor e [] []) }
    {
        Ok(Exclude {
            rule: rule.copy(alloc)?,
            blockers: Tally::new(alloc),
            counts: Tally::new(alloc),
        })
    }

    /// The exclusion after deltas of its two lists led to these stores, and what its results, each
    /// once, lost and gained by them.
    ///
    /// The exclusion stood for the two lists before the deltas (`before` of nf_pairs' specs/Deltas),
    /// and then stands for those of the stores (`StandsFor` of specs/Exclusions). The two lists are
    /// looked at apart, also where both atoms of the rule have one name. A result that was lost and
    /// found again in one step, or the other way round, isn't in the answer. The rows of the
    /// intervals that are there or went have every place that the rule's clauses read. Fails where
    /// memory is wanted, or where a number would pass u128's end; the exclusion is gone then. The
    /// counter rises by the rule's work at most (`rule_work` of nf_model's specs/Work), also where
    /// it fails.
    pub fn delta<L: Ledger>(
        self,
        alloc: Global,
        first: &Store,
        second: &Store,
        d1: &Delta,
        d2: &Delta,
        steps: &mut Steps<L>,
    ) -> Result<(Exclude, Delta), NoMemory>
        requires first { IsDelta first.now d1.now }
        requires second { IsDelta second.now d2.now }
        requires places { HaveAllPlaces self.rule self.rule.link (first.now ++ d1.now.gone)
            (second.now ++ d2.now.gone) }
        requires stands { StandsFor self (before d1.now first.now) (before d2.now second.now) }
        ensures rule { IfOk result (λ r. r.0.rule ≡ self.rule) }
        ensures stands { IfOk result (λ r. StandsFor r.0 first.now second.now) }
        ensures delta { IfOk result (λ r. r.1 ≡ delta_of
            (once (results self.rule (before d1.now first.now) (before d2.now second.now)))
            (once (results self.rule first.now second.now))) }
        ensures cost { steps.new ≤ steps.old
            + rule_work self.rule (sides (before d1.now first.now) (before d2.now second.now))
            (sides first.now second.now) }
    {
        let Exclude {
            rule,
            blockers,
            counts,
        } = self;
        let Moves {
            blockers,
            lost,
            found,
        } = follow(alloc, &rule, blockers, first, second, d1, d2, steps)?;
        let (counts, delta) = counts.settle(alloc, lost.as_slice(), found)?;
        Ok((
            Exclude {
                rule,
                blockers,
                counts,
            },
            delta,
        ))
    }
}
