//! The plan.

ghost use Rattle.std.specs.Prelude.{◌≡◌, ◌<◌, length, position, slice_get, bytes_eq, Some, All, IfOk, IfSome};
ghost use Rattle.nf_core.specs.Plan.{IsPlan, keys_of, has_rules, is_head, is_wide, level_of, name_of};
ghost use Rattle.nf_core.specs.Written.{CanBePlanned, AreLevels, plan_of};

use crate::copies::TryCopy;
use crate::errors::NoMemory;
use crate::key_places::keys_by_number;
use crate::lists::ListOf;
use crate::names::Names;
use crate::numbered_rules::rules_by_number;
use crate::numbering::levels_by_number;
use crate::plan_levels::Levels;
use crate::terms::PlanRule;
use crate::text_sets::TextSet;
use crate::trees::RuleList;
use crate::wide_names::is_wide_name;
use std::alloc::Global;
use std::marker::Model;

/// What an evaluator works from: names by number, the keys of each name by place, rules by number,
/// and the level of each name. Contracts see the record `Plan` of specs/Plan, and `IsPlan` of it is
/// true of every plan.
#[derive(Debug, Drop)]
pub struct Plan {
    names: Names,
    keys: ListOf<TextSet>,
    rules: ListOf<PlanRule>,
    levels: Vec<u32>,
}

impl Model for Plan {
    ghost use Rattle.nf_core.specs.Plan as spec;
    ghost use Rattle.nf_core.specs.contracts.terms.Term as term;
    ghost use Rattle.std.specs.Coded.{codes};

    ghost Value = { spec.Plan };

    ghost coded = { Prim.hlevel (codes, term.the_row.coded) };

    ghost view = { λ p. spec.plan_from p.names p.keys p.rules p.levels.items };

    ghost invariant = { λ p. spec.IsPlan (spec.plan_from p.names p.keys p.rules p.levels.items) };
}

impl Plan {
    /// The plan of rules with their levels (`plan_of` of specs/Written): names are numbered by first
    /// appearance, each head before its body, and wide names after all others; the keys of a name
    /// ascend, and rules stay in their order. A name is wide where its text begins with `|`. The
    /// names of the rules that aren't wide and the keys of these names are to be identifiers; there
    /// are fewer than 2^32 names, keys of a name and rules, right kinds, whole numbers within 64 bits
    /// and plain texts (`CanBePlanned`); and every name has its level (`AreLevels`).
    pub fn build(alloc: Global, rules: &RuleList, levels: &Levels) -> Result<Plan, NoMemory>
        requires planned { CanBePlanned rules.now }
        requires leveled { AreLevels rules.now levels.now }
        ensures { IfOk result (λ plan. plan ≡ plan_of rules.now levels.now) }
    {
        let names = Names::of(alloc, rules)?;
        let keys = keys_by_number(alloc, &names, rules)?;
        let numbered = rules_by_number(alloc, &names, keys.as_slice(), rules)?;
        let levels = levels_by_number(alloc, &names, levels)?;
        Ok(Plan {
            names,
            keys,
            rules: numbered,
            levels,
        })
    }

    /// How many names there are. They are numbered from 0.
    pub fn names(&self) -> u32
        ensures count { result ≡ length self.now.names }
        ensures valid { IsPlan self.now }
    {
        self.names.len() as u32
    }

    /// The name with a number.
    pub fn name(&self, name: u32) -> &str
        requires { name < length self.now.names }
        ensures { slice_get self.now.names name ≡ Some result.now }
    {
        self.names.at(name as usize)
    }

    /// How many keys a name has. Their places are counted from 0.
    pub fn keys(&self, name: u32) -> u32
        requires { name < length self.now.names }
        ensures count { result ≡ length (keys_of self.now name) }
        ensures valid { IsPlan self.now }
    {
        self.keys.as_slice()[name as usize].len() as u32
    }

    /// The key of a name at a place. The keys of a name ascend by their bytes.
    pub fn key(&self, name: u32, place: u32) -> &str
        requires name { name < length self.now.names }
        requires place { place < length (keys_of self.now name) }
        ensures { slice_get (keys_of self.now name) place ≡ Some result.now }
    {
        self.keys.as_slice()[name as usize].at(place as usize)
    }

    /// Whether a name is wide: whether its text begins with `|` (`is_wide` of specs/Plan).
    pub fn is_wide(&self, name: u32) -> bool
        requires { name < length self.now.names }
        ensures { result ≡ is_wide self.now name }
    {
        is_wide_name(self.name(name))
    }

    /// Whether a name is a head: a rule has it as its head, and it isn't wide (`is_head` of
    /// specs/Plan).
    pub fn is_head(&self, name: u32) -> bool
        requires { name < length self.now.names }
        ensures { result ≡ is_head self.now name }
    {
        self.has_rules(name) && !self.is_wide(name)
    }

    /// Whether a rule has this name as its head: exactly then its level is above 0.
    fn has_rules(&self, name: u32) -> bool
        requires { name < length self.now.names }
        ensures { result ≡ has_rules self.now name }
    {
        self.levels[name as usize] > 0
    }

    /// The level of a name: 0 where it has no rules, else one more than the greatest level of a name
    /// in their bodies (`level_by_rules` of specs/Plan).
    pub fn level(&self, name: u32) -> u32
        requires { name < length self.now.names }
        ensures level { result ≡ level_of self.now name }
        ensures valid { IsPlan self.now }
    {
        self.levels[name as usize]
    }

    /// How many rules there are. They are numbered from 0, in the order of the specification.
    pub fn rules(&self) -> u32
        ensures count { result ≡ length self.now.rules }
        ensures valid { IsPlan self.now }
    {
        self.rules.len() as u32
    }

    /// The rule with a number.
    pub fn rule(&self, rule: u32) -> &PlanRule
        requires { rule < length self.now.rules }
        ensures { slice_get self.now.rules rule ≡ Some result.now }
    {
        &self.rules.as_slice()[rule as usize]
    }

    /// The number of a name. None exactly where no name is that text.
    #[tactic(auto, using(crate::proofs::Public::EachOnceLemmas::text_found))]
    pub fn find(&self, text: &str) -> Option<u32>
        ensures place { result ≡ position (bytes_eq text.now) self.now.names }
        ensures name { IfSome result (λ name. name_of self.now name ≡ text.now) }
    {
        let place = self.names.find(text)?;
        Some(place as u32)
    }
}

impl TryCopy for Plan {
    fn copy(&self, alloc: Global) -> Result<Plan, NoMemory> {
        Ok(Plan {
            names: self.names.copy(alloc)?,
            keys: self.keys.copy(alloc)?,
            rules: self.rules.copy(alloc)?,
            levels: Vec::from_slice(alloc, self.levels.as_slice())?,
        })
    }
}
