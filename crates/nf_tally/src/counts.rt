//! A number above 0 for each of a few intervals, in a map.

ghost use Rattle.std.specs.Prelude.{◌≡◌, ℕ, ◌+◌, ◌<◌, [], true, false, nat_lt, Some, None, IfOk, OnOk, OnErr, if◌then◌else◌};
ghost use Rattle.nf_core.specs.Intervals.{same};
ghost use Rattle.nf_tally.specs.Numbers.{number, one_at, is_on};

use nf_core::{Interval, NoMemory, TryCopy};
use std::alloc::Global;
use std::collections::BTreeMap;
use std::marker::Model;

/// A number above 0 for each of some intervals; every other interval has the number 0. Contracts see
/// the intervals with their numbers, and read them by `number`.
#[derive(Drop)]
pub struct Counts {
    numbers: BTreeMap<Interval, u128>,
}

impl Model for Counts {
    ghost use Rattle.nf_tally.specs.Numbers.{Numbers};
    ghost use Rattle.nf_tally.specs.inner.Positive.{ArePositive};

    ghost Value = { Numbers };

    ghost view = { λ c. c.numbers.entries };

    ghost invariant = { λ c. ArePositive c.numbers.entries };
}

impl Counts {
    /// No interval has a number. Takes no memory.
    pub fn new(alloc: Global) -> Counts
        ensures { result ≡ [] }
    {
        Counts {
            numbers: BTreeMap::new(alloc),
        }
    }

    /// The number of an interval, 0 where it has none. Takes no memory.
    pub fn number(&self, interval: &Interval) -> u128
        ensures { result ≡ number self.now interval.now }
    {
        self.numbers.get(interval).copied().unwrap_or(0)
    }

    /// One more for an interval, which is copied where it had no number. Where memory is wanted, or
    /// the number stands at u128's end, the numbers stay as they were.
    pub fn raise_copy(&mut self, alloc: Global, interval: &Interval) -> Result<(), NoMemory>
        ensures ok { OnOk result
            ((q : _) → number self.new q ≡ number self.old q + one_at interval.now q) }
        ensures err { OnErr result (self.new ≡ self.old) }
    {
        if self.raise_known(interval)? {
            return Ok(());
        }
        self.put(interval.copy(alloc)?, 1)
    }

    /// Takes an interval's number away whole. Takes no memory.
    pub fn clear(&mut self, interval: &Interval)
        ensures { (q : _)
            → number self.new q ≡ (if same interval.now q then 0 else number self.old q) }
    {
        self.numbers.remove(interval);
    }

    /// One more for an interval that has a number, and nothing else. Answers whether it has one.
    pub fn raise_known(&mut self, interval: &Interval) -> Result<bool, NoMemory>
        ensures known { IfOk result (λ known. known ≡ is_on (number self.old interval.now)) }
        ensures raised { IfOk result (λ known. known ≡ true
            → (q : _) → number self.new q ≡ number self.old q + one_at interval.now q) }
        ensures unknown { IfOk result (λ known. known ≡ false → self.new ≡ self.old) }
        ensures err { OnErr result (self.new ≡ self.old) }
    {
        let Some(count) = self.numbers.get_mut(interval) else {
            return Ok(false);
        };
        let Some(more) = count.checked_add(1) else {
            return Err(NoMemory);
        };
        *count = more;
        Ok(true)
    }

    /// One less for an interval that has a number, which isn't kept where it falls to 0. Answers
    /// whether it has one. Takes no memory.
    pub fn lower(&mut self, interval: &Interval) -> bool
        ensures known { result ≡ is_on (number self.old interval.now) }
        ensures lowered { result ≡ true
            → (q : _) → number self.new q + one_at interval.now q ≡ number self.old q }
        ensures unknown { result ≡ false → self.new ≡ self.old }
    {
        if self.lower_many(interval) {
            return true;
        }
        if self.number(interval) == 0 {
            return false;
        }
        self.clear(interval);
        true
    }

    // One less for an interval whose number is above 1, and nothing else. Answers whether it is.
    fn lower_many(&mut self, interval: &Interval) -> bool
        ensures many { result ≡ nat_lt 1 (number self.old interval.now) }
        ensures lowered { result ≡ true
            → (q : _) → number self.new q + one_at interval.now q ≡ number self.old q }
        ensures few { result ≡ false → self.new ≡ self.old }
    {
        let Some(count) = self.numbers.get_mut(interval) else {
            return false;
        };
        if *count <= 1 {
            return false;
        }
        *count -= 1;
        true
    }

    /// Gives an interval a number above 0.
    pub fn put(&mut self, interval: Interval, count: u128) -> Result<(), NoMemory>
        requires { 0 < count }
        ensures ok { OnOk result ((q : _)
            → number self.new q ≡ (if same interval q then count else number self.old q)) }
        ensures err { OnErr result (self.new ≡ self.old) }
    {
        self.numbers.insert(interval, count)?;
        Ok(())
    }
}
