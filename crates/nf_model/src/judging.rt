//! Which candidates are held.

ghost use Rattle.std.specs.Ordering.{int_eq};
ghost use Rattle.std.specs.Prelude.{◌≡◌, ◌&&◌, [], ◌∷◌, ◌++◌, OnOk, IfOk, if◌then◌else◌};
ghost use Rattle.nf_core.specs.Intervals as interval;
ghost use Rattle.nf_core.specs.Sets as sets;
ghost use Rattle.nf_model.specs.Pools as pool;

use nf_core::{Interval, IntervalList, IntervalSet, NoMemory, TryCopy};
use std::alloc::Global;

/// Whether two intervals begin and end at the same times.
fn has_same_times(interval: &Interval, other: &Interval) -> bool
    ensures { result
        ≡ (int_eq interval.now.start other.now.start && int_eq interval.now.stop other.now.stop) }
{
    interval.start == other.start && interval.stop == other.stop
}

/// Whether an interval lies within another one and has other times.
fn is_strictly_inside(inner: &Interval, outer: &Interval) -> bool
    ensures { result ≡ interval.is_strictly_inside inner.now outer.now }
{
    outer.start <= inner.start && inner.stop <= outer.stop && !has_same_times(inner, outer)
}

/// Whether no member of a list lies strictly inside an interval.
fn is_minimal(members: &[Interval], interval: &Interval) -> bool
    ensures { result ≡ pool.is_minimal members.now interval.now }
{
    !members
        .iter()
        .any(|member| is_strictly_inside(member, interval))
}

/// Puts a copy of an interval at the end of a list, where it is minimal among the members.
fn push_minimal(
    alloc: Global,
    members: &[Interval],
    interval: &Interval,
    out: &mut IntervalList,
) -> Result<(), NoMemory>
    ensures { OnOk result (out.new ≡ out.old
        ++ (if pool.is_minimal members.now interval.now then interval.now ∷ [] else [])) }
{
    if is_minimal(members, interval) {
        out.push(interval.copy(alloc)?)?;
    }
    Ok(())
}

/// The members that have no other member strictly inside them.
fn minimal(alloc: Global, members: &[Interval]) -> Result<IntervalList, NoMemory>
    ensures { IfOk result (λ list. list ≡ pool.minimal members.now) }
{
    let mut out = IntervalList::new(alloc);
    for member in members {
        push_minimal(alloc, members, member, &mut out)?;
    }
    Ok(out)
}

/// The members in ascending order, with repeats taken out.
fn once(alloc: Global, members: &[Interval]) -> Result<IntervalSet, NoMemory>
    ensures { IfOk result (λ set. set ≡ sets.once members.now) }
{
    let mut set = IntervalSet::new(alloc);
    for member in members {
        set.insert(member.copy(alloc)?)?;
    }
    Ok(set)
}

/// The held ones of some candidates, each once: the minimal ones, or all of them where all are held
/// (`judged` of specs/Pools).
pub(crate) fn judge(alloc: Global, all: bool, members: &[Interval]) -> Result<IntervalSet, NoMemory>
    ensures { IfOk result (λ set. set ≡ pool.judged all members.now) }
{
    if all {
        once(alloc, members)
    } else {
        once(alloc, minimal(alloc, members)?.as_slice())
    }
}
