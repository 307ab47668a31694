//! What a set lost and gained on the whole, step by step.

ghost use Rattle.std.specs.Prelude.{◌≡◌, [], IfOk, OnOk, OnErr};
ghost use Rattle.nf_tally.specs.Deltas.{Enters, Leaves, Follows};

use crate::few::Few;
use nf_core::{Delta, Interval, NoMemory, TryCopy};
use std::alloc::Global;
use std::marker::Model;

/// What a set lost and gained since some time. What came and went meanwhile isn't in it. Contracts
/// see it as the delta that it answers.
#[derive(Drop)]
pub struct Net {
    alloc: Global,
    gone: Few,
    come: Few,
}

impl Model for Net {
    ghost use Rattle.nf_core.specs.declared.intervals.Delta as spec;

    ghost Value = { spec.Delta };

    ghost view = { λ n. record { gone = n.gone; come = n.come } };
}

impl Net {
    /// Nothing lost, nothing gained. Takes no memory.
    pub fn new(alloc: Global) -> Net
        ensures { result ≡ record { gone = []; come = [] } }
    {
        Net {
            alloc,
            gone: Few::new(),
            come: Few::new(),
        }
    }

    /// Follows an interval into the set. Where memory is wanted the answer is as it was.
    pub fn enter(&mut self, alloc: Global, interval: &Interval) -> Result<(), NoMemory>
        ensures ok { OnOk result (Follows (Enters interval.now) self.old self.new) }
        ensures err { OnErr result (self.new ≡ self.old) }
    {
        if self.gone.remove(interval) {
            return Ok(());
        }
        self.come.insert(alloc, interval.copy(alloc)?)?;
        Ok(())
    }

    /// Follows an interval out of the set. Where memory is wanted the answer is as it was.
    pub fn leave(&mut self, interval: Interval) -> Result<(), NoMemory>
        ensures ok { OnOk result (Follows (Leaves interval) self.old self.new) }
        ensures err { OnErr result (self.new ≡ self.old) }
    {
        if self.come.remove(&interval) {
            return Ok(());
        }
        self.gone.insert(self.alloc, interval)?;
        Ok(())
    }

    /// What the set lost and gained, ascending. Fails exactly where memory is wanted.
    pub fn into_delta(self, alloc: Global) -> Result<Delta, NoMemory>
        ensures { IfOk result (λ delta. delta ≡ self) }
    {
        let Net { gone, come, .. } = self;
        Ok(Delta {
            gone: gone.into_list(alloc)?,
            come: come.into_list(alloc)?,
        })
    }
}
