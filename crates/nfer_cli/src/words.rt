//! The words of the command line.

ghost use Rattle.std.specs.Prelude.{◌≡◌, [], ◌∷◌, ◌++◌, option_map, OnOk, OnErr};
ghost use Rattle.nfer_cli.specs.inner.Commands.{asked_by};
ghost use Rattle.nfer_cli.specs.Words.{AsksFor};

use crate::command::Command;
use nf_core::{NoMemory, Text};
use std::alloc::Global;
use std::marker::Model;

/// The words of the command line behind the program's name. Contracts see the list of their bytes.
#[derive(Debug, Drop)]
pub struct Words {
    words: Vec<Text>,
}

impl Model for Words {
    ghost use Rattle.std.specs.Prelude.{List, ℕ};

    ghost Value = { List (List ℕ) };

    ghost view = { λ w. w.words.items };
}

impl Words {
    /// No words. Takes no memory.
    pub fn new(alloc: Global) -> Words
        ensures { result ≡ [] }
    {
        Words {
            words: Vec::new(alloc),
        }
    }

    /// Puts a word at the end. Where memory is wanted the words stay as they were.
    pub fn push(&mut self, word: &str) -> Result<(), NoMemory>
        ensures ok { OnOk result (self.new ≡ self.old ++ word.now ∷ []) }
        ensures err { OnErr result (self.new ≡ self.old) }
    {
        let text = Text::new(*self.words.allocator(), word)?;
        self.words.push(text)?;
        Ok(())
    }

    /// The command that the words ask for (`Asks` of specs/Words.antt). None exactly where they ask for
    /// nothing. Takes no memory.
    pub(crate) fn command(&self) -> Option<Command<'_>>
        ensures { AsksFor self.now (option_map asked_by result) }
    {
        Command::parse(self.words.as_slice())
    }
}
