//! Whole lists added to a tally and taken away, and what that made of it.

ghost use Rattle.std.specs.Prelude.{◌≡◌, ◌+◌, ◌<◌, ◌≤◌, IfOk, OnOk};
ghost use Rattle.nf_tally.specs.Numbers.{number, one_at, often, IsNet};
ghost use Rattle.nf_tally.specs.inner.Carried.{Carries};

use crate::net::Net;
use crate::tally::Tally;
use nf_core::{Delta, Interval, IntervalList, NoMemory};
use std::alloc::Global;

impl Tally {
    /// Adds `come` and takes `gone` away, each interval as often as it stands there, and answers which
    /// intervals came to have a number and which lost theirs, whatever happened in between. An
    /// interval that is new is copied once. Fails where memory is wanted or a number would pass
    /// u128's end; the tally is gone then.
    pub fn settle(
        self,
        alloc: Global,
        gone: &[Interval],
        come: IntervalList,
    ) -> Result<(Tally, Delta), NoMemory>
        requires { (q : _) → often gone.now q ≤ number self q + often come q }
        ensures numbers { IfOk result (λ r. (q : _)
            → number r.0 q + often gone.now q ≡ number self q + often come q) }
        ensures delta { IfOk result (λ r. IsNet (number self) (number r.0) r.1) }
    {
        let mut tally = self;
        let mut net = Net::new(alloc);
        gain_all(alloc, &mut tally, &mut net, come)?;
        lose_all(&mut tally, &mut net, gone)?;
        Ok((tally, net.into_delta(alloc)?))
    }
}

/// Adds each interval of a list.
fn gain_all(
    alloc: Global,
    tally: &mut Tally,
    net: &mut Net,
    come: IntervalList,
) -> Result<(), NoMemory>
    ensures numbers { OnOk result
        ((q : _) → number tally.new q ≡ number tally.old q + often come q) }
    ensures net { OnOk result (Carries tally.old tally.new net.old net.new) }
{
    for interval in come.into_vec() {
        gain(alloc, tally, net, interval)?;
    }
    Ok(())
}

/// Takes each interval of a list away.
fn lose_all(tally: &mut Tally, net: &mut Net, gone: &[Interval]) -> Result<(), NoMemory>
    requires { (q : _) → often gone.now q ≤ number tally.old q }
    ensures numbers { OnOk result
        ((q : _) → number tally.new q + often gone.now q ≡ number tally.old q) }
    ensures net { OnOk result (Carries tally.old tally.new net.old net.new) }
{
    for interval in gone {
        lose(tally, net, interval)?;
    }
    Ok(())
}

/// One more for an interval: a new one has come.
fn gain(alloc: Global, tally: &mut Tally, net: &mut Net, interval: Interval) -> Result<(), NoMemory>
    ensures numbers { OnOk result
        ((q : _) → number tally.new q ≡ number tally.old q + one_at interval q) }
    ensures net { OnOk result (Carries tally.old tally.new net.old net.new) }
{
    if tally.raise_known(&interval)? {
        return Ok(());
    }
    net.enter(alloc, &interval)?;
    tally.put(interval, 1)
}

/// One less for an interval: the last one has gone.
fn lose(tally: &mut Tally, net: &mut Net, interval: &Interval) -> Result<(), NoMemory>
    requires { 0 < number tally.old interval.now }
    ensures numbers { OnOk result
        ((q : _) → number tally.new q + one_at interval.now q ≡ number tally.old q) }
    ensures net { OnOk result (Carries tally.old tally.new net.old net.new) }
{
    if tally.lower_many(interval) {
        return Ok(());
    }
    let Some(last) = tally.take(interval) else {
        return Ok(());
    };
    net.leave(last)
}
