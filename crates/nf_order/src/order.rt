//! The levels of names, or the first cycle.

ghost use Rattle.std.specs.Prelude.{◌≡◌, ◌⊎◌, ◌↔◌, ◌<◌, ◌^◌, ℕ, List, Err, length, map, All, IsTrue, IfOk, OnOk};
ghost use Rattle.nf_core.specs.Written.{AreLevels, names_of};
ghost use Rattle.nf_order.specs.Dependence.{IsAcyclic, IsFirstCycle, leveled_names};
ghost use Rattle.nf_order.specs.inner.Graph.{graph_of};
ghost use Rattle.nf_order.specs.inner.Marks.{AreMarks, HasCycle, HasLevel, is_leveled, level_in};
ghost use Rattle.nf_order.specs.inner.Reach.{AreOff, IsFlagged};

use crate::cycles::is_on_cycle;
use crate::fault::OrderFault;
use crate::graph::Graph;
use crate::leveling::settled;
use crate::marks::Mark;
use nf_core::{Levels, Names, NoMemory, RuleList, Text};
use std::alloc::Global;

/// The level of each name of some rules (`AreLevels` of nf_core's specs/Written.antt), names in the
/// order of their numbers in a plan. `Cycle` with the first head, in the order of the rules, that
/// depends on itself (`IsFirstCycle` of specs/Dependence.antt), exactly where there is one.
pub fn levels(alloc: Global, rules: &RuleList) -> Result<Levels, OrderFault>
    requires few { length rules.now < 2 ^ 32 }
    ensures ok { IfOk result (λ levels. AreLevels rules.now levels) }
    ensures names { IfOk result (λ levels. leveled_names levels ≡ names_of rules.now) }
    ensures acyclic { OnOk result (IsAcyclic rules.now) }
    ensures cycle { (name : List ℕ)
        → result ≡ Err (OrderFault.Cycle name) → IsFirstCycle rules.now name }
    ensures every_cycle { (name : List ℕ) → IsFirstCycle rules.now name
        → (result ≡ Err (OrderFault.Cycle name)) ⊎ (result ≡ Err OrderFault.NoMemory) }
{
    let names = Names::of(alloc, rules)?;
    let graph = Graph::of(alloc, &names, rules)?;
    let marks = settled(alloc, &graph)?;
    if are_leveled(marks.as_slice()) {
        let levels = levels_in(alloc, marks.as_slice())?;
        return Ok(Levels::of_names(names, levels));
    }
    let off = off_cycles(alloc, &graph, marks.as_slice())?;
    let head = first_cycle(alloc, rules, &names, &graph, off.as_slice())?;
    Err(OrderFault::Cycle(head))
}

/// Whether every number has a level.
fn are_leveled(marks: &[Mark]) -> bool
    ensures { IsTrue result ↔ All (λ mark. IsTrue (is_leveled mark)) marks.now }
{
    marks.iter().all(|mark| mark.is_leveled())
}

/// The levels of numbers, in their order.
fn levels_in(alloc: Global, marks: &[Mark]) -> Result<Vec<u32>, NoMemory>
    requires { All (λ mark. level_in mark < 2 ^ 32) marks.now }
    ensures { IfOk result (λ levels. levels.items ≡ map level_in marks.now) }
{
    let mut levels = Vec::new(alloc);
    for mark in marks {
        levels.push(mark.level() as u32)?;
    }
    Ok(levels)
}

/// Flags numbers that are on no cycle: those that have levels, and those that would have some if every
/// step were turned around.
fn off_cycles(alloc: Global, graph: &Graph, marks: &[Mark]) -> Result<Vec<bool>, NoMemory>
    requires { AreMarks graph.now marks.now }
    ensures each { IfOk result (λ flags. length flags.items ≡ length graph.now) }
    ensures off { IfOk result (λ flags. AreOff graph.now flags.items) }
{
    let turned = graph.reversed(alloc)?;
    let above = settled(alloc, &turned)?;
    let flags = leveled_in_either(alloc, marks, above.as_slice())?;
    Ok(flags)
}

/// Flags the numbers that have a level in one of two searches.
fn leveled_in_either(alloc: Global, marks: &[Mark], others: &[Mark]) -> Result<Vec<bool>, NoMemory>
    requires { length others.now ≡ length marks.now }
    ensures each { IfOk result (λ flags. length flags.items ≡ length marks.now) }
    ensures either { IfOk result (λ flags. (n : ℕ) → IsFlagged flags.items n
        → HasLevel marks.now n ⊎ HasLevel others.now n) }
{
    let mut flags = Vec::new(alloc);
    for number in 0..marks.len() {
        flags.push(is_either_leveled(marks[number], others[number]))?;
    }
    Ok(flags)
}

/// Whether one of two marks is a level.
fn is_either_leveled(mark: Mark, other: Mark) -> bool
    ensures { IsTrue result → IsTrue (is_leveled mark) ⊎ IsTrue (is_leveled other) }
{
    mark.is_leveled() || other.is_leveled()
}

/// The first head, in the order of the rules, that depends on itself. There needs to be a cycle.
fn first_cycle(
    alloc: Global,
    rules: &RuleList,
    names: &Names,
    graph: &Graph,
    off: &[bool],
) -> Result<Text, NoMemory>
    requires named { names.now ≡ names_of rules.now }
    requires graph { graph.now ≡ graph_of rules.now }
    requires each { length off.now ≡ length graph.now }
    requires off { AreOff graph.now off.now }
    requires cycle { HasCycle graph.now }
    ensures { IfOk result (λ head. IsFirstCycle rules.now head) }
{
    for rule in rules.as_slice() {
        let name = rule.head.as_str();
        let number = names.number(name);
        if is_on_cycle(alloc, graph, off, number)? {
            let head = Text::new(alloc, name)?;
            return Ok(head);
        }
    }
    unreachable!()
}
