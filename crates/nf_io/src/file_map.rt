//! Files in memory: a map from names to bytes.
ghost use Rattle.std.specs.Prelude.{◌≡◌, ◌≢◌, ℕ, List, [], ◌∷◌, Some, OnOk, OnErr, IfOk, bytes_eq, position, is_some};
ghost use Rattle.nf_io.specs.Files.{file_of, asked_of, bytes_of};
ghost use Rattle.nf_io.specs.inner.Places.{entry_at};

use nf_core::NoMemory;
use std::alloc::Global;
use std::marker::Model;

/// One file: its name and its bytes.
#[derive(Drop)]
struct Entry {
    name: String,
    bytes: Vec<u8>,
}

impl Model for Entry {
    ghost use Rattle.std.specs.Prelude.{ℕ, List, string_bytes};

    ghost Value = { List ℕ × List ℕ };

    ghost view = { λ e. (string_bytes e.name, e.bytes.items) };
}

impl Entry {
    fn new(alloc: Global, name: &str, bytes: &[u8]) -> Result<Entry, NoMemory>
        ensures { IfOk result (λ entry. entry ≡ (name.now, bytes.now)) }
    {
        Ok(Entry {
            name: String::from_str(alloc, name)?,
            bytes: Vec::from_slice(alloc, bytes)?,
        })
    }

    fn is_named(&self, name: &str) -> bool
        ensures { result ≡ bytes_eq self.now.0 name.now }
    {
        self.name.as_str() == name
    }

    fn bytes(&self) -> &[u8]
        ensures { result.now ≡ self.now.1 }
    {
        self.bytes.as_slice()
    }
}

/// A map from names to bytes. A contract sees the list of its names with their bytes, the last
/// added first; the first entry of a name counts (`file_of` in specs/Files.antt).
#[derive(Drop)]
pub struct FileMap {
    entries: Vec<Entry>,
}

impl Model for FileMap {
    ghost use Rattle.std.specs.Prelude.{ℕ, List};

    ghost Value = { List (List ℕ × List ℕ) };

    ghost view = { λ f. f.entries.items };
}

impl FileMap {
    /// The map without files. It takes its memory from `alloc` as files are added.
    pub fn new(alloc: Global) -> FileMap
        ensures { result ≡ [] }
    {
        FileMap {
            entries: Vec::new(alloc),
        }
    }

    /// Sets the bytes of a name, whether or not it has a file already.
    ///
    /// Answers NoMemory where no memory is left; then the map stays as it was.
    pub fn add(&mut self, name: &str, bytes: &[u8]) -> Result<(), NoMemory>
        ensures ok { OnOk result (self.new ≡ (name.now, bytes.now) ∷ self.old) }
        ensures sets { OnOk result (file_of self.new name.now ≡ Some bytes.now) }
        ensures others { OnOk result ((other : List ℕ) → other ≢ name.now →
            file_of self.new other ≡ file_of self.old other) }
        ensures err { OnErr result (self.new ≡ self.old) }
    {
        let alloc = *self.entries.allocator();
        let entry = Entry::new(alloc, name, bytes)?;
        self.entries.insert(0, entry)?;
        Ok(())
    }

    // The place of the file of this name.
    pub(crate) fn find(&self, name: &str) -> Option<usize>
        ensures known { is_some result ≡ is_some (file_of self.now name.now) }
        ensures asked { (entry_at self.now result).0 ≡ asked_of self.now name.now }
        ensures bytes { (entry_at self.now result).1 ≡ bytes_of self.now name.now }
    {
        self.first_named(name)
    }

    fn first_named(&self, name: &str) -> Option<usize>
        ensures { result ≡ position (λ entry. bytes_eq entry.0 name.now) self.now }
    {
        self.entries.iter().position(|entry| entry.is_named(name))
    }

    // The bytes of the file at this place.
    pub(crate) fn bytes_at(&self, place: Option<usize>) -> &[u8]
        ensures { result.now ≡ (entry_at self.now place).1 }
    {
        let Some(place) = place else {
            return &[];
        };
        match self.entries.get(place) {
            Some(entry) => entry.bytes(),
            None => &[],
        }
    }
}
