//! The levels of numbers, along what stands below each.

ghost use Rattle.std.specs.Prelude.{◌≡◌, ◌<◌, ◌≢◌, ◌∷◌, ◌++◌, [], length, slice_set, IfOk, OnOk};
ghost use Rattle.nf_order.specs.inner.Marks.{mark_of, IsSearch, IsSettled, Keeps, left};

use crate::graph::Graph;
use crate::marks::{Mark, level_above, new_marks, next_unleveled};
use nf_core::NoMemory;
use std::alloc::Global;

/// A number on the path that is followed, and how many of those below it have their levels for sure.
#[derive(Debug, Clone, Copy)]
pub(crate) struct Frame {
    number: usize,
    next: usize,
}

/// The levels of a graph's numbers, of all but those with a cycle below.
pub(crate) fn settled(alloc: Global, graph: &Graph) -> Result<Vec<Mark>, NoMemory>
    ensures { IfOk result (λ marks. IsSettled graph.now marks.items) }
{
    let mut marks = new_marks(alloc, graph.len())?;
    for number in 0..graph.len() {
        visit(alloc, graph, &mut marks, number)?;
    }
    Ok(marks)
}

/// Gives a number its level, and every number on which it depends; where there is a cycle below, it is
/// stuck.
fn visit(alloc: Global, graph: &Graph, marks: &mut Vec<Mark>, number: usize) -> Result<(), NoMemory>
    requires within { number < length graph.now }
    requires search { IsSearch graph.now marks.old.items [] }
    ensures search { OnOk result (IsSearch graph.now marks.new.items []) }
    ensures keeps { OnOk result (Keeps marks.old.items marks.new.items) }
    ensures known { OnOk result (mark_of marks.new.items number ≢ Mark.New) }
{
    if !marks[number].is_new() {
        return Ok(());
    }
    let mut stack = Vec::new(alloc);
    open(marks, &mut stack, number)?;
    while let Some(frame) = stack.pop() {
        advance(graph, marks, &mut stack, frame)?;
    }
    Ok(())
}

/// Opens a number of which nothing is known, and puts it last on the path.
fn open(marks: &mut Vec<Mark>, stack: &mut Vec<Frame>, number: usize) -> Result<(), NoMemory>
    requires { number < length marks.old.items }
    ensures marks { OnOk result (marks.new.items ≡ slice_set marks.old.items number Mark.Open) }
    ensures stack { OnOk result
        (stack.new.items ≡ stack.old.items ++ record { number = number; next = 0 } ∷ []) }
{
    stack.push(Frame { number, next: 0 })?;
    marks[number] = Mark::Open;
    Ok(())
}

/// One step of the last number on the path: to the next one below it that has no level, or off the path
/// with its own level where there is none. It leaves the path as stuck where that next one is open
/// already, and so on a cycle, or is stuck itself.
fn advance(
    graph: &Graph,
    marks: &mut Vec<Mark>,
    stack: &mut Vec<Frame>,
    frame: Frame,
) -> Result<(), NoMemory>
    requires { IsSearch graph.now marks.old.items (stack.old.items ++ frame ∷ []) }
    ensures search { OnOk result (IsSearch graph.now marks.new.items stack.new.items) }
    ensures keeps { OnOk result (Keeps marks.old.items marks.new.items) }
    ensures left { OnOk result (left marks.new.items stack.new.items
        < left marks.old.items (stack.old.items ++ frame ∷ [])) }
{
    let below = graph.below(frame.number);
    let next = next_unleveled(below, marks.as_slice(), frame.next);
    if next == below.len() {
        marks[frame.number] = Mark::Leveled(level_above(below, marks.as_slice()));
        return Ok(());
    }
    let child = below[next];
    if !marks[child].is_new() {
        marks[frame.number] = Mark::Stuck;
        return Ok(());
    }
    let number = frame.number;
    stack.push(Frame { number, next })?;
    open(marks, stack, child)?;
    Ok(())
}
