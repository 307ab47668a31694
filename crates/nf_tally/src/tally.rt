//! A number above 0 for each of some intervals.

ghost use Rattle.std.specs.Prelude.{◌≡◌, ℕ, ◌+◌, ◌<◌, [], true, false, nat_lt, Some, None, IfOk, OnOk, OnErr, if◌then◌else◌};
ghost use Rattle.nf_core.specs.Intervals.{same};
ghost use Rattle.nf_tally.specs.Numbers.{number, one_at, is_on};

use crate::counts::Counts;
use nf_core::{Interval, IntervalSet, NoMemory, TryCopy};
use std::alloc::Global;
use std::marker::Model;

/// A number above 0 for each of some intervals; every other interval has the number 0. Contracts see
/// the intervals with their numbers, and read them by `number`. Most numbers are 1, so the intervals
/// that have one are a set, and only what a number is above 1 is counted.
#[derive(Drop)]
pub struct Tally {
    alloc: Global,
    known: IntervalSet,
    beyond: Counts,
}

impl Model for Tally {
    ghost use Rattle.nf_tally.specs.Numbers.{Numbers};
    ghost use Rattle.nf_tally.specs.inner.Counted.{counted, AreCounted};

    ghost Value = { Numbers };

    ghost view = { λ t. counted t.known t.beyond };

    ghost invariant = { λ t. AreCounted t.known t.beyond };
}

impl Tally {
    /// The tally in which no interval has a number. Takes no memory.
    pub fn new(alloc: Global) -> Tally
        ensures { result ≡ [] }
    {
        Tally {
            alloc,
            known: IntervalSet::new(alloc),
            beyond: Counts::new(alloc),
        }
    }

    /// The number of an interval, 0 where it has none. Takes no memory.
    pub fn number(&self, interval: &Interval) -> u128
        ensures { result ≡ number self.now interval.now }
    {
        if self.known.has(interval) {
            self.beyond.number(interval) + 1
        } else {
            0
        }
    }

    /// One more for an interval, which is kept where it had no number. Where memory is wanted, or the
    /// number stands at u128's end, the tally stays as it was.
    pub fn raise(&mut self, interval: Interval) -> Result<(), NoMemory>
        ensures ok { OnOk result
            ((q : _) → number self.new q ≡ number self.old q + one_at interval q) }
        ensures err { OnErr result (self.new ≡ self.old) }
    {
        if self.raise_known(&interval)? {
            return Ok(());
        }
        self.put(interval, 1)
    }

    /// One more for an interval, which is copied where it had no number. Where memory is wanted, or
    /// the number stands at u128's end, the tally stays as it was.
    pub fn raise_copy(&mut self, alloc: Global, interval: &Interval) -> Result<(), NoMemory>
        ensures ok { OnOk result
            ((q : _) → number self.new q ≡ number self.old q + one_at interval.now q) }
        ensures err { OnErr result (self.new ≡ self.old) }
    {
        if self.raise_known(interval)? {
            return Ok(());
        }
        self.put(interval.copy(alloc)?, 1)
    }

    /// One less for an interval, which isn't kept where its number falls to 0. Takes no memory.
    pub fn lower(&mut self, interval: &Interval)
        requires { 0 < number self.old interval.now }
        ensures { (q : _) → number self.new q + one_at interval.now q ≡ number self.old q }
    {
        if !self.lower_many(interval) {
            self.clear(interval);
        }
    }

    /// Gives an interval without a number one: it is copied, unless the number is 0. Where memory is
    /// wanted the tally stays as it was.
    pub fn set_copy(
        &mut self,
        alloc: Global,
        interval: &Interval,
        count: u128,
    ) -> Result<(), NoMemory>
        requires { number self.old interval.now ≡ 0 }
        ensures ok { OnOk result ((q : _)
            → number self.new q ≡ (if same interval.now q then count else number self.old q)) }
        ensures err { OnErr result (self.new ≡ self.old) }
    {
        if count == 0 {
            return Ok(());
        }
        self.put(interval.copy(alloc)?, count)
    }

    /// Takes an interval's number away whole. Takes no memory.
    pub fn clear(&mut self, interval: &Interval)
        ensures { (q : _)
            → number self.new q ≡ (if same interval.now q then 0 else number self.old q) }
    {
        self.known.remove(interval);
        self.beyond.clear(interval);
    }

    /// One more for an interval that has a number, and nothing else. Answers whether it has one.
    pub(crate) fn raise_known(&mut self, interval: &Interval) -> Result<bool, NoMemory>
        ensures known { IfOk result (λ known. known ≡ is_on (number self.old interval.now)) }
        ensures raised { IfOk result (λ known. known ≡ true
            → (q : _) → number self.new q ≡ number self.old q + one_at interval.now q) }
        ensures unknown { IfOk result (λ known. known ≡ false → self.new ≡ self.old) }
        ensures err { OnErr result (self.new ≡ self.old) }
    {
        if !self.known.has(interval) {
            return Ok(false);
        }
        if self.beyond.number(interval) >= u128::MAX - 1 {
            return Err(NoMemory);
        }
        self.beyond.raise_copy(self.alloc, interval)?;
        Ok(true)
    }

    /// One less for an interval whose number is above 1, and nothing else. Answers whether it is.
    pub(crate) fn lower_many(&mut self, interval: &Interval) -> bool
        ensures many { result ≡ nat_lt 1 (number self.old interval.now) }
        ensures lowered { result ≡ true
            → (q : _) → number self.new q + one_at interval.now q ≡ number self.old q }
        ensures few { result ≡ false → self.new ≡ self.old }
    {
        self.beyond.lower(interval)
    }

    /// Gives an interval without a number one above 0. Where memory is wanted the tally stays as it
    /// was.
    pub(crate) fn put(&mut self, interval: Interval, count: u128) -> Result<(), NoMemory>
        requires some { 0 < count }
        requires none { number self.old interval ≡ 0 }
        ensures ok { OnOk result ((q : _)
            → number self.new q ≡ (if same interval q then count else number self.old q)) }
        ensures err { OnErr result (self.new ≡ self.old) }
    {
        if count == 1 {
            self.known.insert(interval)?;
            return Ok(());
        }
        let key = interval.copy(self.alloc)?;
        self.beyond.put(interval.copy(self.alloc)?, count - 1)?;
        match self.known.insert(interval) {
            Ok(_) => Ok(()),
            Err(error) => {
                self.beyond.clear(&key);
                Err(error)
            }
        }
    }

    /// Takes an interval's number away whole, and answers the interval that was kept for it.
    pub(crate) fn take(&mut self, interval: &Interval) -> Option<Interval>
        ensures taken { result ≡
            (if is_on (number self.old interval.now) then Some interval.now else None) }
        ensures rest { (q : _)
            → number self.new q ≡ (if same interval.now q then 0 else number self.old q) }
    {
        let kept = self.known.take(interval);
        self.beyond.clear(interval);
        kept
    }
}
