//! Which rules are to be evaluated yet, in the order of their heads.

ghost use Rattle.std.specs.Prelude.{◌≡◌, [], slice_get, Some, OnOk, IfSome, IfNone};
ghost use Rattle.std.specs.BTreeSet.{insert_key};

use nf_core::NoMemory;
use std::alloc::Global;
use std::collections::BTreeSet;
use std::marker::Model;

/// A rule by its number, with its head's number and level.
#[derive(Debug, Clone, Copy, PartialEq, Eq, PartialOrd, Ord)]
pub struct Due {
    pub level: u32,
    pub head: u32,
    pub rule: u32,
}

/// The rules that are to be evaluated, each once, by the level of the head, then by its number,
/// then by the rule's.
#[derive(Drop)]
pub struct Queue {
    due: BTreeSet<Due>,
}

impl Model for Queue {
    ghost use Rattle.std.specs.Prelude.{List};
    ghost use Rattle.nf_engine.specs.declared.queues.Due as spec;

    ghost Value = { List spec.Due };

    ghost view = { λ q. q.due.keys };
}

impl Queue {
    ghost use Rattle.nf_engine.specs.inner.Queues.{due_cmp, IsLeast, IsNextOf, IsNoNext, IsPopped};
    ghost use Rattle.nf_engine.specs.declared.queues.Due as spec;

    /// The queue without rules. Takes no memory.
    pub fn new(alloc: Global) -> Queue
        ensures { result ≡ [] }
    {
        Queue {
            due: BTreeSet::new(alloc),
        }
    }

    /// Puts a rule at its place, unless it is there.
    pub fn add(&mut self, due: Due) -> Result<(), NoMemory>
        ensures { OnOk result (self.new ≡ insert_key due_cmp self.old due) }
    {
        self.due.insert(due)?;
        Ok(())
    }

    /// The first rule, where there is one. Takes no memory.
    pub fn first(&self) -> Option<Due>
        ensures some { IfSome result (IsLeast self.now) }
        ensures none { IfNone result (self.now ≡ []) }
    {
        self.due.first().copied()
    }

    /// Takes the first rule away, where there is one. Takes no memory.
    pub fn pop(&mut self)
        ensures { (d : spec.Due) → slice_get self.old 0 ≡ Some d → IsPopped self.old self.new d }
    {
        self.due.pop_first();
    }

    /// The number of the first rule, where its head is this name. Takes no memory.
    pub fn next_of(&self, head: u32) -> Option<u32>
        ensures some { IfSome result (IsNextOf self.now head) }
        ensures none { IfNone result (IsNoNext self.now head) }
    {
        let due = self.first()?;
        if due.head == head {
            Some(due.rule)
        } else {
            None
        }
    }
}
