//! The names of rules by number.

ghost use Rattle.std.specs.Prelude.{◌≡◌, ◌<◌, [], ◌∷◌, length, position, slice_get, bytes_eq};
ghost use Rattle.std.specs.Prelude.{flat_map, Some, Contains, IfOk, OnOk};
ghost use Rattle.nf_core.specs.inner.Widths.{has_width, with_names};
ghost use Rattle.nf_core.specs.Written.{names_in, names_of, place_of};

use crate::copies::TryCopy;
use crate::errors::NoMemory;
use crate::text_sets::TextSet;
use crate::texts::Text;
use crate::trees::{Body, Rule, RuleList};
use crate::wide_names::is_wide_name;
use std::alloc::Global;
use std::marker::Model;

/// The names of some rules, each once, numbered from 0 by first appearance, each head before its
/// body, and wide names after all others (`names_of` of specs/Written). Contracts see the list of
/// their bytes.
#[derive(Debug, Drop)]
pub struct Names {
    texts: TextSet,
}

impl Model for Names {
    ghost use Rattle.std.specs.Prelude.{List, ℕ};

    ghost Value = { List (List ℕ) };

    ghost view = { λ n. n.texts };
}

impl Names {
    /// The names of some rules (`names_of` of specs/Written). The rules are walked twice: for the
    /// names that aren't wide, and for those that are.
    pub fn of(alloc: Global, rules: &RuleList) -> Result<Names, NoMemory>
        ensures { IfOk result (λ names. names ≡ names_of rules.now) }
    {
        let mut texts = TextSet::new(alloc);
        add_names(&mut texts, rules, false)?;
        add_names(&mut texts, rules, true)?;
        Ok(Names { texts })
    }

    /// How many names there are.
    pub fn len(&self) -> usize
        ensures { result ≡ length self.now }
    {
        self.texts.len()
    }

    /// The name with a number.
    pub fn at(&self, number: usize) -> &str
        requires { number < length self.now }
        ensures { slice_get self.now number ≡ Some result.now }
    {
        self.texts.at(number)
    }

    /// The number of a name. None exactly where it isn't there.
    pub fn find(&self, name: &str) -> Option<usize>
        ensures { result ≡ position (bytes_eq name.now) self.now }
    {
        self.texts.find(name)
    }

    /// The number of a name that is there.
    pub fn number(&self, name: &str) -> usize
        requires { Contains self.now name.now }
        ensures number { result ≡ place_of self.now name.now }
        ensures within { result < length self.now }
    {
        self.find(name).unwrap()
    }

    /// The names as a set of texts. Takes no memory.
    pub(crate) fn into_texts(self) -> TextSet
        ensures { result ≡ self }
    {
        let Names { texts } = self;
        texts
    }
}

impl TryCopy for Names {
    fn copy(&self, alloc: Global) -> Result<Names, NoMemory> {
        Ok(Names {
            texts: self.texts.copy(alloc)?,
        })
    }
}

/// Puts the names of rules in that are wide, or those that aren't.
#[tactic(auto, using(crate::proofs::WideNameLemmas::names_more))]
fn add_names(texts: &mut TextSet, rules: &RuleList, wide: bool) -> Result<(), NoMemory>
    ensures { OnOk result (texts.new ≡ with_names wide texts.old (flat_map names_in rules.now)) }
{
    for rule in rules.as_slice() {
        add_names_of(texts, rule, wide)?;
    }
    Ok(())
}

/// Puts the names of a rule in that are wide, or those that aren't, its head first.
#[tactic(auto, using(crate::proofs::WideNameLemmas::names_then))]
fn add_names_of(texts: &mut TextSet, rule: &Rule, wide: bool) -> Result<(), NoMemory>
    ensures { OnOk result (texts.new ≡ with_names wide texts.old (names_in rule.now)) }
{
    add_name(texts, &rule.head, wide)?;
    match &rule.body {
        Body::One(first) => add_name(texts, &first.name, wide),
        Body::Pair(first, _, second) | Body::Unless(first, _, second) => {
            add_name(texts, &first.name, wide)?;
            add_name(texts, &second.name, wide)
        }
    }
}

/// Puts a name in, where it is as wide as asked.
fn add_name(texts: &mut TextSet, name: &Text, wide: bool) -> Result<(), NoMemory>
    ensures { OnOk result (texts.new ≡ with_names wide texts.old (name.now ∷ [])) }
{
    if has_width(name.as_str(), wide) {
        return texts.add(name.as_str());
    }
    Ok(())
}

/// Whether a name is as wide as asked.
fn has_width(name: &str, wide: bool) -> bool
    ensures { result ≡ has_width wide name.now }
{
    is_wide_name(name) == wide
}
