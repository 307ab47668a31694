//! How many intervals a store looks at.

ghost use Rattle.std.specs.Prelude.{◌≤ℤ◌};

use crate::stopped::Stopped;
use nf_core::{Interval, Op, Row, Xop};
use nf_index::{Rel, Store, Which};
use std::alloc::Global;

// Every relation; the first of them are decided by one order of a store.
static RELATIONS: [Rel; 12] = [
    Rel::Pair(Op::Before),
    Rel::Pair(Op::Meet),
    Rel::Pair(Op::Coincide),
    Rel::Pair(Op::Start),
    Rel::Pair(Op::Finish),
    Rel::Unless(Xop::After),
    Rel::Unless(Xop::Follow),
    Rel::Pair(Op::During),
    Rel::Pair(Op::Overlap),
    Rel::Pair(Op::Slice),
    Rel::Unless(Xop::Contain),
    Rel::Inside,
];

const ONE_ORDER: usize = 7;

// How many places of a store are asked at.
const PROBES: u32 = 16;

/// The most intervals that a walk looks at besides those that it hands out, in a store of so many of
/// which none lies inside another.
pub fn most_beside_flat(alloc: Global, count: u32) -> Result<u64, Stopped> {
    let mut store = Store::new(alloc);
    for place in 0..count {
        let start = 3 * i64::from(place);
        insert(alloc, &mut store, start, start + 7)?;
    }
    Ok(most_beside(&store, count, RELATIONS.as_slice()))
}

/// The same in a store of which every tenth interval has a third of the others inside, over the
/// relations that one order decides.
pub fn most_beside_nested(alloc: Global, count: u32) -> Result<u64, Stopped> {
    let store = nested_store(alloc, count)?;
    Ok(most_beside(&store, count, &RELATIONS[..ONE_ORDER]))
}

/// The same over all relations.
pub fn most_beside_all(alloc: Global, count: u32) -> Result<u64, Stopped> {
    let store = nested_store(alloc, count)?;
    Ok(most_beside(&store, count, RELATIONS.as_slice()))
}

// The store of which every tenth interval has a third of the others inside.
fn nested_store(alloc: Global, count: u32) -> Result<Store, Stopped> {
    let mut store = Store::new(alloc);
    for place in 0..count {
        let start = 3 * i64::from(place);
        let length = if place % 10 == 0 { i64::from(count) } else { 1 };
        insert(alloc, &mut store, start, start + length)?;
    }
    Ok(store)
}

fn insert(alloc: Global, store: &mut Store, start: i64, stop: i64) -> Result<(), Stopped>
    requires { start ≤ℤ stop }
{
    let row = Row::new(alloc);
    store.insert(Interval { start, stop, row })?;
    Ok(())
}

// The most over some relations, at places all over the store, of three lengths.
fn most_beside(store: &Store, count: u32, relations: &[Rel]) -> u64 {
    let mut most = 0;
    for rel in relations {
        for probe in 0..PROBES {
            most = most.max(most_at(store, *rel, count, probe));
        }
    }
    most
}

fn most_at(store: &Store, rel: Rel, count: u32, probe: u32) -> u64 {
    let start = i64::from(count.saturating_mul(probe) / 5);
    let mut most = 0;
    for length in [0, 7, count] {
        let stop = start + i64::from(length);
        let first = beside(store, rel, Which::First, start, stop);
        let second = beside(store, rel, Which::Second, start, stop);
        most = most.max(first).max(second);
    }
    most
}

// How many are looked at besides those that are handed out.
fn beside(store: &Store, rel: Rel, which: Which, start: i64, stop: i64) -> u64 {
    let mut walk = store.matching(rel, which, start, stop);
    let mut handed: u64 = 0;
    while walk.next().is_some() {
        handed = handed.saturating_add(1);
    }
    walk.visits().saturating_sub(handed)
}
