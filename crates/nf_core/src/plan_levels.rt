//! The levels of names.

ghost use Rattle.std.specs.Prelude.{◌≡◌, [], ◌∷◌, ◌++◌, length, None, OnOk, OnErr};
ghost use Rattle.std.specs.List.{zip};
ghost use Rattle.nf_core.specs.Written.{level_of_name};

use crate::errors::NoMemory;
use crate::names::Names;
use crate::text_sets::TextSet;
use std::alloc::Global;
use std::marker::Model;

/// Names with their levels, each name once. Contracts see the pairs in the order in which they were
/// added (`Levels` of specs/Written).
#[derive(Debug, Drop)]
pub struct Levels {
    names: TextSet,
    levels: Vec<u32>,
}

impl Model for Levels {
    ghost use Rattle.std.specs.Prelude.{◌≡◌, List, ℕ, length};
    ghost use Rattle.std.specs.List.{zip};

    ghost Value = { List (List ℕ × ℕ) };

    ghost view = { λ l. zip l.names l.levels.items };

    ghost invariant = { λ l. length l.names ≡ length l.levels.items };
}

impl Levels {
    /// No levels. Takes no memory.
    pub fn new(alloc: Global) -> Levels
        ensures { result ≡ [] }
    {
        Levels {
            names: TextSet::new(alloc),
            levels: Vec::new(alloc),
        }
    }

    /// Names, each with the level at its number. Takes no memory.
    pub fn of_names(names: Names, levels: Vec<u32>) -> Levels
        requires { length names ≡ length levels.items }
        ensures { result ≡ zip names levels.items }
    {
        Levels {
            names: names.into_texts(),
            levels,
        }
    }

    /// Adds a name that has no level yet, with its level. Where memory is wanted the levels stay as
    /// they were.
    pub fn add(&mut self, name: &str, level: u32) -> Result<(), NoMemory>
        requires { level_of_name self.old name.now ≡ None }
        ensures ok { OnOk result (self.new ≡ self.old ++ (name.now, level) ∷ []) }
        ensures err { OnErr result (self.new ≡ self.old) }
    {
        self.levels.push(level)?;
        match self.names.add(name) {
            Ok(()) => Ok(()),
            Err(error) => {
                self.levels.pop();
                Err(error)
            }
        }
    }

    /// The level of a name. None exactly where it has none.
    pub fn of(&self, name: &str) -> Option<u32>
        ensures { result ≡ level_of_name self.now name.now }
    {
        let place = self.names.find(name)?;
        Some(self.levels[place])
    }
}
