//! The candidates of a name by their sources, and what is held of them.

ghost use Rattle.std.specs.Prelude.{◌≡◌, ℕ, ◌+◌, ◌≤◌, [], IfOk};
ghost use Rattle.nf_tally.specs.Numbers.{number, often, is_on};

use crate::counting::Counting;
use crate::judging::Judging;
use nf_core::{Delta, Interval, NoMemory};
use nf_index::Store;
use nf_tally::{Net, Tally};
use std::alloc::Global;
use std::marker::Model;

/// The candidates of a name, each with the number of its sources, and what is held of them: the
/// minimal ones, or all of them where `full` says so. A candidate stands in a store for its first
/// source; `more` counts the further ones. Contracts see `full` and the sources (`Minimal` of
/// specs/Minimals).
#[derive(Drop)]
pub struct Minimal {
    full: bool,
    more: Tally,
    held: Store,
    suppressed: Store,
}

impl Model for Minimal {
    ghost use Rattle.nf_minimal.specs.Minimals as spec;

    ghost Value = { spec.Minimal };

    ghost use Rattle.nf_minimal.specs.inner.Further.{sources_of, IsStocked};

    ghost view = { λ m.
        record { full = m.full; sources = sources_of m.more m.held m.suppressed } };

    ghost invariant = { λ m. IsStocked m.full m.more m.held m.suppressed };
}

impl Minimal {
    ghost use Rattle.nf_model.specs.Changes.{delta_of};
    ghost use Rattle.nf_minimal.specs.Minimals.{held_of};

    /// No interval has a source. Under `full` all candidates will be held, else the minimal ones.
    /// Takes no memory.
    pub fn new(alloc: Global, full: bool) -> Minimal
        ensures full { result.full ≡ full }
        ensures sources { result.sources ≡ [] }
    {
        Minimal {
            full,
            more: Tally::new(alloc),
            held: Store::new(alloc),
            suppressed: Store::new(alloc),
        }
    }

    /// Whether an interval has a source. Takes no memory.
    pub fn has_source(&self, interval: &Interval) -> bool
        ensures { result ≡ is_on (number self.now.sources interval.now) }
    {
        self.held.has(interval) || self.suppressed.has(interval)
    }

    /// Adds a source for each interval of `come` and takes one away for each of `gone`, as often as it
    /// stands there, and answers what the held ones lost and gained, each list ascending, each once.
    /// Fails where memory is wanted; what was known is gone then.
    pub fn apply(self, alloc: Global, delta: Delta) -> Result<(Minimal, Delta), NoMemory>
        requires enough { (q : _)
            → often delta.gone q ≤ number self.sources q + often delta.come q }
        ensures full { IfOk result (λ r. r.0.full ≡ self.full) }
        ensures sources { IfOk result (λ r. (q : _) → number r.0.sources q + often delta.gone q
            ≡ number self.sources q + often delta.come q) }
        ensures delta { IfOk result (λ r. r.1 ≡ delta_of (held_of self) (held_of r.0)) }
    {
        let Minimal {
            full,
            more,
            held,
            suppressed,
        } = self;
        let Delta { gone, come } = delta;
        let net = Net::new(alloc);
        let judging = Judging {
            full,
            held,
            suppressed,
            net,
        };
        let mut counting = Counting { judging, more };
        counting.gain_all(alloc, come)?;
        counting.lose_all(alloc, gone)?;
        let Counting { judging, more } = counting;
        let Judging {
            held,
            suppressed,
            net,
            ..
        } = judging;
        let delta = net.into_delta(alloc)?;
        let minimal = Minimal {
            full,
            more,
            held,
            suppressed,
        };
        Ok((minimal, delta))
    }

    /// The intervals that are held. Takes no memory.
    pub fn held(&self) -> &Store
        ensures { result.now ≡ held_of self.now }
    {
        &self.held
    }
}
