//! The rules of a plan: names and keys by number, expressions as terms.

use crate::copies::TryCopy;
use crate::errors::NoMemory;
use crate::lists::ListOf;
use crate::operators::{BinOp, Op, Xop};
use crate::texts::Text;
use sqlite_items::Boxed;
use std::alloc::Global;

/// An expression whose reads go by number: member 0 or 1, and the place of a key among the keys of
/// the member's name.
#[derive(Debug, Drop)]
pub enum Term {
    Bool(bool),
    Int(i64),
    Text(Text),
    Start(u8),
    Stop(u8),
    Key(u8, u32),
    Neg(Boxed<Term>),
    Not(Boxed<Term>),
    Bin(BinOp, Boxed<Term>, Boxed<Term>),
}

/// How a rule's first name is linked to a second one, and that name's number.
#[derive(Debug, Clone, Copy, PartialEq, Eq)]
pub enum Link {
    One,
    Pair(Op, u32),
    Unless(Xop, u32),
}

/// An entry of a map: the place of its key among the head's keys, and its value.
#[derive(Debug, Drop)]
pub struct PlanEntry {
    pub place: u32,
    pub value: Term,
}

/// A list of entries of a map.
pub type PlanEntryList = ListOf<PlanEntry>;

/// A rule of a plan: the number of its head, how many keys the head has, the number of its first
/// name, its link and its clauses.
#[derive(Debug, Drop)]
pub struct PlanRule {
    pub head: u32,
    pub keys: u32,
    pub first: u32,
    pub link: Link,
    pub filter: Option<Term>,
    pub entries: PlanEntryList,
    pub start: Option<Term>,
    pub stop: Option<Term>,
}

impl TryCopy for Term {
    fn copy(&self, alloc: Global) -> Result<Term, NoMemory> {
        match self {
            Term::Bool(b) => Ok(Term::Bool(*b)),
            Term::Int(n) => Ok(Term::Int(*n)),
            Term::Text(text) => Ok(Term::Text(text.copy(alloc)?)),
            Term::Start(member) => Ok(Term::Start(*member)),
            Term::Stop(member) => Ok(Term::Stop(*member)),
            Term::Key(member, place) => Ok(Term::Key(*member, *place)),
            Term::Neg(t) => Ok(Term::Neg(Boxed::new(alloc, t.get().copy(alloc)?)?)),
            Term::Not(t) => Ok(Term::Not(Boxed::new(alloc, t.get().copy(alloc)?)?)),
            Term::Bin(op, left, right) => {
                let left = Boxed::new(alloc, left.get().copy(alloc)?)?;
                let right = Boxed::new(alloc, right.get().copy(alloc)?)?;
                Ok(Term::Bin(*op, left, right))
            }
        }
    }
}

impl TryCopy for PlanEntry {
    fn copy(&self, alloc: Global) -> Result<PlanEntry, NoMemory> {
        Ok(PlanEntry {
            place: self.place,
            value: self.value.copy(alloc)?,
        })
    }
}

impl TryCopy for PlanRule {
    fn copy(&self, alloc: Global) -> Result<PlanRule, NoMemory> {
        Ok(PlanRule {
            head: self.head,
            keys: self.keys,
            first: self.first,
            link: self.link,
            filter: self.filter.copy(alloc)?,
            entries: self.entries.copy(alloc)?,
            start: self.start.copy(alloc)?,
            stop: self.stop.copy(alloc)?,
        })
    }
}
