//! Texts, each once, by number.

ghost use Rattle.std.specs.Prelude.{◌≡◌, ◌<◌, ◌≤◌, [], length, position, slice_get, bytes_eq, Some, OnOk, OnErr};
ghost use Rattle.indexmap.specs.IndexSet.{insert_key};
ghost use Rattle.nf_core.specs.Texts.{text_eq};
ghost use Rattle.nf_core.specs.Written.{place_of};

use crate::copies::TryCopy;
use crate::errors::NoMemory;
use crate::texts::Text;
use indexmap::IndexSet;
use std::alloc::Global;
use std::marker::Model;

/// Texts, each once, numbered from 0 in the order in which they were put in. Contracts see the list
/// of their bytes.
#[derive(Debug, Drop)]
pub struct TextSet {
    texts: IndexSet<String>,
}

impl Model for TextSet {
    ghost use Rattle.std.specs.Prelude.{List, ℕ, map};
    ghost use Rattle.std.specs.String.{string_bytes};

    ghost Value = { List (List ℕ) };

    ghost view = { λ s. map string_bytes s.texts.keys };
}

impl TextSet {
    /// The set without texts. Takes no memory.
    pub fn new(alloc: Global) -> TextSet
        ensures { result ≡ [] }
    {
        TextSet {
            texts: IndexSet::new(alloc),
        }
    }

    /// How many texts there are.
    pub fn len(&self) -> usize
        ensures { result ≡ length self.now }
    {
        self.texts.len()
    }

    /// The text with a number.
    pub fn at(&self, place: usize) -> &str
        requires { place < length self.now }
        ensures { slice_get self.now place ≡ Some result.now }
    {
        self.texts[place].as_str()
    }

    /// The number of a text. None exactly where it isn't in the set.
    pub fn find(&self, text: &str) -> Option<usize>
        ensures { result ≡ position (bytes_eq text.now) self.now }
    {
        self.texts.get_index_of(text)
    }

    /// The number of a text, and where it isn't in the set, how many texts there are.
    pub fn place_of(&self, text: &str) -> usize
        ensures place { result ≡ place_of self.now text.now }
        ensures within { result ≤ length self.now }
    {
        self.find(text).unwrap_or(self.len())
    }

    /// Puts a text in, last, where it wasn't. Where memory is wanted the set stays as it was.
    pub fn add(&mut self, text: &str) -> Result<(), NoMemory>
        ensures ok { OnOk result (self.new ≡ insert_key text_eq self.old text.now) }
        ensures err { OnErr result (self.new ≡ self.old) }
    {
        let text = String::from_str(*self.texts.allocator(), text)?;
        self.texts.insert(text)?;
        Ok(())
    }

    /// Puts a text in, last, where it wasn't, without a copy of it. Where memory is wanted the set
    /// stays as it was.
    pub fn put(&mut self, text: Text) -> Result<(), NoMemory>
        ensures ok { OnOk result (self.new ≡ insert_key text_eq self.old text) }
        ensures err { OnErr result (self.new ≡ self.old) }
    {
        self.texts.insert(text.into_string())?;
        Ok(())
    }
}

impl TryCopy for TextSet {
    fn copy(&self, _alloc: Global) -> Result<TextSet, NoMemory> {
        let texts = self.texts.clone()?;
        Ok(TextSet { texts })
    }
}
