//! Cycles through a number.

ghost use Rattle.std.specs.Prelude.{◌≡◌, ◌↔◌, if◌then◌else◌, ◌<◌, ◌∷◌, ◌++◌, [], length, slice_set, slice_index_or, All, IsTrue, IfOk, OnOk, true, false};
ghost use Rattle.nf_order.specs.Dependence.{Walk};
ghost use Rattle.nf_order.specs.inner.Graph.{IsAbove};
ghost use Rattle.nf_order.specs.inner.Reach.{AreOff, AreSeen};

use crate::graph::Graph;
use nf_core::NoMemory;
use std::alloc::Global;

/// Whether a number is on a cycle. The flags say of some numbers that they are on none; these aren't
/// looked at.
pub(crate) fn is_on_cycle(
    alloc: Global,
    graph: &Graph,
    off: &[bool],
    number: usize,
) -> Result<bool, NoMemory>
    requires within { number < length graph.now }
    requires each { length off.now ≡ length graph.now }
    requires off { AreOff graph.now off.now }
    ensures { IfOk result (λ found. IsTrue found ↔ Walk (IsAbove graph.now) number number) }
{
    if off[number] {
        return Ok(false);
    }
    let mut seen = Vec::from_slice(alloc, off)?;
    let mut stack = Vec::new(alloc);
    stack.push(number)?;
    while let Some(next) = stack.pop() {
        see_all(graph.below(next), &mut seen, &mut stack)?;
    }
    Ok(seen[number])
}

/// Flags some numbers as seen, and puts those on the stack that weren't.
fn see_all(numbers: &[usize], seen: &mut Vec<bool>, stack: &mut Vec<usize>) -> Result<(), NoMemory>
    requires { All (λ n. n < length seen.old.items) numbers.now }
    ensures { OnOk result (AreSeen numbers.now numbers.now
        seen.old.items seen.new.items stack.old.items stack.new.items) }
{
    for number in numbers {
        see(*number, seen, stack)?;
    }
    Ok(())
}

/// Flags a number as seen, and puts it on the stack if it wasn't.
fn see(number: usize, seen: &mut Vec<bool>, stack: &mut Vec<usize>) -> Result<(), NoMemory>
    requires { number < length seen.old.items }
    ensures seen { OnOk result (seen.new.items ≡ slice_set seen.old.items number true) }
    ensures stack { OnOk result (stack.new.items ≡ (if slice_index_or seen.old.items number false
        then stack.old.items else stack.old.items ++ number ∷ [])) }
{
    if !seen[number] {
        stack.push(number)?;
        seen[number] = true;
    }
    Ok(())
}
