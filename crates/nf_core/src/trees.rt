//! The trees of a specification.

ghost use Rattle.std.specs.Prelude.{◌≡◌, slice_get};
ghost use Rattle.std.specs.Option.{option_copied};
ghost use Rattle.nf_core.specs.Trees.{atoms_of};

use crate::copies::TryCopy;
use crate::errors::NoMemory;
use crate::lists::ListOf;
use crate::operators::{BinOp, Op, Xop};
use crate::texts::Text;
use sqlite_items::Boxed;
use std::alloc::Global;
use std::marker::Model;

/// An expression as it is written. `Start`, `Stop` and `Key` read the begin, the end and a key of
/// the member with a label.
#[derive(Debug, Drop)]
pub enum Expr {
    Bool(bool),
    Int(i64),
    Text(Text),
    Start(Text),
    Stop(Text),
    Key(Text, Text),
    Neg(Boxed<Expr>),
    Not(Boxed<Expr>),
    Bin(BinOp, Boxed<Expr>, Boxed<Expr>),
}

/// A name in a body, with the label under which expressions read its member.
#[derive(Debug, Drop)]
pub struct Atom {
    pub label: Text,
    pub name: Text,
}

/// The body of a rule: one atom, an inclusive pair or an exclusive pair.
#[derive(Debug, Drop)]
pub enum Body {
    One(Atom),
    Pair(Atom, Op, Atom),
    Unless(Atom, Xop, Atom),
}

/// An entry of a map: a key of the head and its value.
#[derive(Debug, Drop)]
pub struct Entry {
    pub key: Text,
    pub value: Expr,
}

/// A rule as it is written. The canonical text of each of its expressions is within the limits
/// (`IsRule` of specs/Trees): at most 256 operators, and at most 64 parentheses open at once.
#[derive(Debug, Drop)]
pub struct Rule {
    pub head: Text,
    pub body: Body,
    pub filter: Option<Expr>,
    pub entries: EntryList,
    pub start: Option<Expr>,
    pub stop: Option<Expr>,
}

impl Model for Rule {
    ghost use Rattle.nf_core.specs.Trees as spec;
    ghost use Rattle.nf_core.specs.contracts.trees.Expr as expr;
    ghost use Rattle.std.specs.Coded.{codes};

    ghost Value = { spec.Rule };

    ghost coded = { Prim.hlevel (codes, expr.the_row.coded) };

    ghost view = { λ r. spec.rule_from r.head r.body r.filter r.entries r.start r.stop };

    ghost invariant = { λ r.
        spec.IsRule (spec.rule_from r.head r.body r.filter r.entries r.start r.stop) };

    ghost inverse = { λ r. record {
      head = r.head;
      body = r.body;
      filter = r.filter;
      entries = r.entries;
      start = r.start;
      stop = r.stop;
    } };
}

impl Rule {
    /// The atom of the body at a place, counted from 0, in reading order. None exactly past the last.
    /// Takes no memory.
    pub fn reads(&self, place: usize) -> Option<&Atom>
        ensures { option_copied result ≡ slice_get (atoms_of self.now.body) place }
    {
        match (&self.body, place) {
            (Body::One(first) | Body::Pair(first, _, _) | Body::Unless(first, _, _), 0) => {
                Some(first)
            }
            (Body::Pair(_, _, second) | Body::Unless(_, _, second), 1) => Some(second),
            _ => None,
        }
    }
}

/// A module: a name or none, the names of the modules that it imports, and its rules.
#[derive(Debug, Drop)]
pub struct Module {
    pub name: Option<Text>,
    pub imports: TextList,
    pub rules: RuleList,
}

/// A list of texts.
pub type TextList = ListOf<Text>;

/// A list of entries of a map.
pub type EntryList = ListOf<Entry>;

/// A list of rules.
pub type RuleList = ListOf<Rule>;

/// A list of modules.
pub type ModuleList = ListOf<Module>;

impl TryCopy for Expr {
    fn copy(&self, alloc: Global) -> Result<Expr, NoMemory> {
        match self {
            Expr::Bool(b) => Ok(Expr::Bool(*b)),
            Expr::Int(n) => Ok(Expr::Int(*n)),
            Expr::Text(text) => Ok(Expr::Text(text.copy(alloc)?)),
            Expr::Start(label) => Ok(Expr::Start(label.copy(alloc)?)),
            Expr::Stop(label) => Ok(Expr::Stop(label.copy(alloc)?)),
            Expr::Key(label, key) => Ok(Expr::Key(label.copy(alloc)?, key.copy(alloc)?)),
            Expr::Neg(e) => Ok(Expr::Neg(Boxed::new(alloc, e.get().copy(alloc)?)?)),
            Expr::Not(e) => Ok(Expr::Not(Boxed::new(alloc, e.get().copy(alloc)?)?)),
            Expr::Bin(op, left, right) => {
                let left = Boxed::new(alloc, left.get().copy(alloc)?)?;
                let right = Boxed::new(alloc, right.get().copy(alloc)?)?;
                Ok(Expr::Bin(*op, left, right))
            }
        }
    }
}

impl TryCopy for Atom {
    fn copy(&self, alloc: Global) -> Result<Atom, NoMemory> {
        Ok(Atom {
            label: self.label.copy(alloc)?,
            name: self.name.copy(alloc)?,
        })
    }
}

impl TryCopy for Body {
    fn copy(&self, alloc: Global) -> Result<Body, NoMemory> {
        match self {
            Body::One(atom) => Ok(Body::One(atom.copy(alloc)?)),
            Body::Pair(first, op, second) => {
                Ok(Body::Pair(first.copy(alloc)?, *op, second.copy(alloc)?))
            }
            Body::Unless(first, xop, second) => {
                Ok(Body::Unless(first.copy(alloc)?, *xop, second.copy(alloc)?))
            }
        }
    }
}

impl TryCopy for Entry {
    fn copy(&self, alloc: Global) -> Result<Entry, NoMemory> {
        Ok(Entry {
            key: self.key.copy(alloc)?,
            value: self.value.copy(alloc)?,
        })
    }
}

impl TryCopy for Rule {
    fn copy(&self, alloc: Global) -> Result<Rule, NoMemory> {
        Ok(Rule {
            head: self.head.copy(alloc)?,
            body: self.body.copy(alloc)?,
            filter: self.filter.copy(alloc)?,
            entries: self.entries.copy(alloc)?,
            start: self.start.copy(alloc)?,
            stop: self.stop.copy(alloc)?,
        })
    }
}
