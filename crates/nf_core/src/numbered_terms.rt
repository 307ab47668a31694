//! Expressions as terms: reads go by the number of a member and the place of a key.

ghost use Rattle.std.specs.Prelude.{◌≡◌, [], unwrap_or, All, IfOk};
ghost use Rattle.std.specs.Option.{option_copied};
ghost use Rattle.nf_core.specs.inner.Numbered.{members_seen, HasFewKeys};
ghost use Rattle.nf_core.specs.Written.{place_of, number_under, keys_under, term_of};

use crate::copies::TryCopy;
use crate::errors::NoMemory;
use crate::terms::Term;
use crate::text_sets::TextSet;
use crate::texts::Text;
use crate::trees::Expr;
use sqlite_items::Boxed;
use std::alloc::Global;

/// A member as the expressions of a rule read it: its label, and the keys of its name by place.
#[derive(Clone, Copy)]
pub struct Member<'a> {
    pub label: &'a Text,
    pub keys: &'a TextSet,
}

/// The members of a rule: number 0 is the first one, and number 1 the second, where there is one.
/// Contracts see the list of them (`members_seen` of specs/inner/Numbered).
#[derive(Clone, Copy)]
pub struct Members<'a> {
    pub first: Member<'a>,
    pub second: Option<Member<'a>>,
}

impl<'a> Members<'a> {
    // The number of the member with a label. Where none has it, how many members there are.
    fn number(&self, label: &Text) -> u8
        ensures { result ≡ number_under (members_seen self.now) label.now }
    {
        if label == self.first.label {
            return 0;
        }
        match self.second {
            Some(second) if label != second.label => 2,
            _ => 1,
        }
    }

    // The place of a key among those of the member with a label. Where they don't have it, how many
    // they are.
    fn place(&self, label: &Text, key: &Text) -> u32
        requires few { All HasFewKeys (members_seen self.now) }
        ensures { result ≡ place_of (keys_under (members_seen self.now) label.now) key.now }
    {
        match self.keys(label) {
            Some(keys) => keys.place_of(key.as_str()) as u32,
            None => 0,
        }
    }

    // The keys of the first member with a label.
    fn keys(&self, label: &Text) -> Option<&'a TextSet>
        ensures { unwrap_or (option_copied result) []
            ≡ keys_under (members_seen self.now) label.now }
    {
        if label == self.first.label {
            return Some(self.first.keys);
        }
        match self.second {
            Some(second) if label == second.label => Some(second.keys),
            _ => None,
        }
    }
}

/// An expression as a term over members (`term_of` of specs/Written). Each of its nodes is visited
/// once. It calls itself for each operand, so it stands as many calls deep as the expression has nodes
/// on a way down, which is at most one more than it has operators: at most 257 calls in a rule.
#[tactic(auto, unfolding(crate::specs::Written::term_of, crate::specs::Written::term_at_node))]
pub fn numbered_term(alloc: Global, members: &Members<'_>, expr: &Expr) -> Result<Term, NoMemory>
    requires few { All HasFewKeys (members_seen members.now) }
    ensures { IfOk result (λ term. term ≡ term_of (members_seen members.now) expr.now) }
{
    match expr {
        Expr::Bool(b) => Ok(Term::Bool(*b)),
        Expr::Int(n) => Ok(Term::Int(*n)),
        Expr::Text(text) => Ok(Term::Text(text.copy(alloc)?)),
        Expr::Start(label) => Ok(Term::Start(members.number(label))),
        Expr::Stop(label) => Ok(Term::Stop(members.number(label))),
        Expr::Key(label, key) => {
            let number = members.number(label);
            Ok(Term::Key(number, members.place(label, key)))
        }
        Expr::Neg(operand) => {
            let operand = numbered_term(alloc, members, operand.get())?;
            Ok(Term::Neg(Boxed::new(alloc, operand)?))
        }
        Expr::Not(operand) => {
            let operand = numbered_term(alloc, members, operand.get())?;
            Ok(Term::Not(Boxed::new(alloc, operand)?))
        }
        Expr::Bin(op, left, right) => {
            let left = Boxed::new(alloc, numbered_term(alloc, members, left.get())?)?;
            let right = Boxed::new(alloc, numbered_term(alloc, members, right.get())?)?;
            Ok(Term::Bin(*op, left, right))
        }
    }
}
