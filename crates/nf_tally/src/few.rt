//! Some intervals, of which one alone is kept without a set.

ghost use Rattle.std.specs.Prelude.{◌≡◌, false, [], ◌∷◌, ◌++◌, IfOk, OnOk, OnErr};
ghost use Rattle.nf_core.specs.Sets.{has, inserted, removed};

use nf_core::{Interval, IntervalList, IntervalSet, NoMemory, TryCopy};
use std::alloc::Global;
use std::marker::Model;

/// A sorted list of intervals, each once, which mostly has at most one. Contracts see that list.
#[derive(Drop)]
pub struct Few {
    kept: Kept,
}

// Some intervals.
#[derive(Drop)]
enum Kept {
    None,
    One(Interval),
    Many(IntervalSet),
}

impl Model for Few {
    ghost use Rattle.std.specs.Prelude.{List};
    ghost use Rattle.nf_core.specs.Intervals as interval;
    ghost use Rattle.nf_tally.specs.inner.Fewer.{listed};

    ghost Value = { List interval.Interval };

    ghost view = { λ f. listed f.kept };
}

impl Few {
    /// No intervals. Takes no memory.
    pub fn new() -> Few
        ensures { result ≡ [] }
    {
        Few { kept: Kept::None }
    }

    /// Adds an interval. Where memory is wanted the list stays as it was.
    pub fn insert(&mut self, alloc: Global, interval: Interval) -> Result<(), NoMemory>
        ensures ok { OnOk result (self.new ≡ inserted interval self.old) }
        ensures err { OnErr result (self.new ≡ self.old) }
    {
        match &mut self.kept {
            Kept::None => self.kept = Kept::One(interval),
            Kept::One(one) => self.kept = Kept::Many(both(alloc, one, interval)?),
            Kept::Many(set) => {
                set.insert(interval)?;
            }
        }
        Ok(())
    }

    /// Takes an interval away, and answers whether it was there. Takes no memory.
    pub fn remove(&mut self, interval: &Interval) -> bool
        ensures found { result ≡ has self.old interval.now }
        ensures rest { self.new ≡ removed interval.now self.old }
        ensures none { result ≡ false → self.new ≡ self.old }
    {
        match &mut self.kept {
            Kept::None => false,
            Kept::One(one) => {
                if interval.cmp(&*one).is_ne() {
                    return false;
                }
                self.kept = Kept::None;
                true
            }
            Kept::Many(set) => set.remove(interval),
        }
    }

    /// The intervals, moved into a list.
    pub fn into_list(self, alloc: Global) -> Result<IntervalList, NoMemory>
        ensures { IfOk result (λ list. list ≡ self) }
    {
        let mut list = IntervalList::new(alloc);
        match self.kept {
            Kept::None => {}
            Kept::One(one) => list.push(one)?,
            Kept::Many(mut set) => push_all(&mut set, &mut list)?,
        }
        Ok(list)
    }
}

// A set of two intervals, of which the first is copied.
fn both(alloc: Global, one: &Interval, other: Interval) -> Result<IntervalSet, NoMemory>
    ensures { IfOk result (λ set. set ≡ inserted other (one.now ∷ [])) }
{
    let mut set = IntervalSet::new(alloc);
    set.insert(one.copy(alloc)?)?;
    set.insert(other)?;
    Ok(set)
}

// Moves the intervals of a set to the end of a list.
fn push_all(set: &mut IntervalSet, list: &mut IntervalList) -> Result<(), NoMemory>
    ensures { OnOk result (list.new ≡ list.old ++ set.old) }
{
    while let Some(interval) = set.pop_first() {
        list.push(interval)?;
    }
    Ok(())
}
