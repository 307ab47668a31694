//! By the numbers of names what their rules read.

ghost use Rattle.std.specs.Prelude.{◌≡◌, ◌<◌, ◌++◌, [], length, map, All, Contains, IfOk, OnOk};
ghost use Rattle.std.proofs.Common.{replicate};
ghost use Rattle.nf_core.specs.Written.{names_of, names_read, place_of};
ghost use Rattle.nf_order.specs.inner.Graph.{IsGraph, IsReversed, ArePut, graph_of, below_of, numbers_below};

use nf_core::{ListOf, Names, NoMemory, Rule, RuleList};
use std::alloc::Global;
use std::marker::Model;

/// For each number the numbers that stand below it. Contracts see the lists, and `IsGraph` of
/// specs/inner/Graph.antt is true of every graph.
#[derive(Drop)]
pub(crate) struct Graph {
    below: Vec<ListOf<usize>>,
}

impl Model for Graph {
    ghost use Rattle.std.specs.Prelude.{List, ℕ};
    ghost use Rattle.nf_order.specs.inner.Graph as spec;

    ghost Value = { List (List ℕ) };

    ghost view = { λ g. g.below.items };

    ghost invariant = { λ g. spec.IsGraph g.below.items };
}

impl Graph {
    /// The graph of some rules: below the number of a name stand those of the names in the bodies of its
    /// rules.
    pub(crate) fn of(alloc: Global, names: &Names, rules: &RuleList) -> Result<Graph, NoMemory>
        requires { names.now ≡ names_of rules.now }
        ensures { IfOk result (λ graph. graph ≡ graph_of rules.now) }
    {
        let below = numbers_by_name(alloc, names, rules)?;
        Ok(Graph { below })
    }

    /// How many numbers there are, from 0 on.
    pub(crate) fn len(&self) -> usize
        ensures count { result ≡ length self.now }
        ensures valid { IsGraph self.now }
    {
        self.below.len()
    }

    /// What stands below a number.
    pub(crate) fn below(&self, number: usize) -> &[usize]
        requires { number < length self.now }
        ensures below { result.now ≡ below_of self.now number }
        ensures valid { IsGraph self.now }
    {
        self.below[number].as_slice()
    }

    /// The graph with each of its steps turned around.
    pub(crate) fn reversed(&self, alloc: Global) -> Result<Graph, NoMemory>
        ensures { IfOk result (λ other. IsReversed self.now other) }
    {
        let below = turned(alloc, self)?;
        Ok(Graph { below })
    }
}

/// For each number those that it stands below.
fn turned(alloc: Global, graph: &Graph) -> Result<Vec<ListOf<usize>>, NoMemory>
    ensures reversed { IfOk result (λ above. IsReversed graph.now above.items) }
    ensures within { IfOk result (λ above. All (All (λ m. m < length graph.now)) above.items) }
{
    let mut above = no_numbers(alloc, graph.len())?;
    for number in 0..graph.len() {
        put_below(&mut above, graph.below(number), number)?;
    }
    Ok(above)
}

/// Puts a number below some others.
fn put_below(
    lists: &mut Vec<ListOf<usize>>,
    others: &[usize],
    number: usize,
) -> Result<(), NoMemory>
    requires { All (λ n. n < length lists.old.items) others.now }
    ensures { OnOk result (ArePut others.now number lists.old.items lists.new.items) }
{
    for other in others {
        lists[*other].push(number)?;
    }
    Ok(())
}

/// For each name the numbers of the names in the bodies of its rules.
fn numbers_by_name(
    alloc: Global,
    names: &Names,
    rules: &RuleList,
) -> Result<Vec<ListOf<usize>>, NoMemory>
    requires { names.now ≡ names_of rules.now }
    ensures { IfOk result
        (λ below. below.items ≡ map (numbers_below names.now rules.now) names.now) }
{
    let mut below = no_numbers(alloc, names.len())?;
    for rule in rules.as_slice() {
        let head = names.number(rule.head.as_str());
        add_numbers(&mut below[head], names, rule)?;
    }
    Ok(below)
}

/// A list without numbers for each of some names.
fn no_numbers(alloc: Global, names: usize) -> Result<Vec<ListOf<usize>>, NoMemory>
    ensures { IfOk result (λ below. below.items ≡ replicate names []) }
{
    let mut below = Vec::new(alloc);
    for _ in 0..names {
        below.push(ListOf::new(alloc))?;
    }
    Ok(below)
}

/// Puts the numbers of the names in a rule's body at the end.
fn add_numbers(numbers: &mut ListOf<usize>, names: &Names, rule: &Rule) -> Result<(), NoMemory>
    requires { All (Contains names.now) (names_read rule.now.body) }
    ensures { OnOk result
        (numbers.new ≡ numbers.old ++ map (place_of names.now) (names_read rule.now.body)) }
{
    let mut place = 0;
    while let Some(atom) = rule.reads(place) {
        numbers.push(names.number(atom.name.as_str()))?;
        place += 1;
    }
    Ok(())
}
