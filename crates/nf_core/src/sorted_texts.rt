//! Texts, each once, ascending.

ghost use Rattle.std.specs.Prelude.{◌≡◌, [], IfOk, OnOk, OnErr};
ghost use Rattle.std.specs.BTreeSet.{insert_key};
ghost use Rattle.nf_core.specs.Texts.{text_cmp};

use crate::copies::TryCopy;
use crate::errors::NoMemory;
use crate::text_sets::TextSet;
use crate::texts::Text;
use std::alloc::Global;
use std::collections::BTreeSet;
use std::marker::Model;

/// Texts, each once, ascending by their bytes. Contracts see the list of their bytes.
#[derive(Drop)]
pub struct SortedTexts {
    texts: BTreeSet<Text>,
}

impl Model for SortedTexts {
    ghost use Rattle.std.specs.Prelude.{List, ℕ};
    ghost use Rattle.std.specs.List.Sorted.{IsStrictlySortedBy};
    ghost use Rattle.nf_core.specs.Texts.{text_cmp};

    ghost Value = { List (List ℕ) };

    ghost view = { λ s. s.texts.keys };

    ghost invariant = { λ s. IsStrictlySortedBy text_cmp s.texts.keys };
}

impl SortedTexts {
    /// No texts. Takes no memory.
    pub fn new(alloc: Global) -> SortedTexts
        ensures { result ≡ [] }
    {
        SortedTexts {
            texts: BTreeSet::new(alloc),
        }
    }

    /// Puts a text in at its place, where it wasn't; only then is it copied. Where memory is wanted
    /// the texts stay as they were.
    pub fn add(&mut self, alloc: Global, text: &Text) -> Result<(), NoMemory>
        ensures ok { OnOk result (self.new ≡ insert_key text_cmp self.old text.now) }
        ensures err { OnErr result (self.new ≡ self.old) }
    {
        if self.texts.contains(text) {
            return Ok(());
        }
        self.texts.insert(text.copy(alloc)?)?;
        Ok(())
    }

    /// The texts by number. None is copied.
    pub fn into_set(self, alloc: Global) -> Result<TextSet, NoMemory>
        ensures { IfOk result (λ set. set ≡ self) }
    {
        let SortedTexts { texts } = self;
        let mut set = TextSet::new(alloc);
        for text in texts {
            set.put(text)?;
        }
        Ok(set)
    }
}
