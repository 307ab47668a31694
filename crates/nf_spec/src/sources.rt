//! The sources of a specification.

ghost use Rattle.std.specs.Prelude.{◌≡◌, ◌<◌, ◌++◌, ◌∷◌, [], ◌↔◌, IsTrue, OnOk, OnErr, length};
ghost use Rattle.nf_spec.specs.Sources.{specification_limit, total};

use crate::limits::SPECIFICATION_LIMIT;
use nf_core::{Lines, ListOf, NoMemory};
use std::alloc::Global;
use std::marker::Model;

/// The sources of a specification, in order. Contracts see the list of their bytes.
#[derive(Debug, Drop)]
pub struct SourceList {
    alloc: Global,
    sources: ListOf<Lines>,
}

impl Model for SourceList {
    ghost use Rattle.std.specs.Prelude.{List, ℕ};

    ghost Value = { List (List ℕ) };

    ghost view = { λ s. s.sources };
}

impl SourceList {
    /// No sources. Takes no memory.
    pub fn new(alloc: Global) -> SourceList
        ensures { result ≡ [] }
    {
        SourceList {
            alloc,
            sources: ListOf::new(alloc),
        }
    }

    /// Puts a copy of some bytes at the end as a source. Where memory is wanted the sources stay as they
    /// were.
    pub fn add(&mut self, bytes: &[u8]) -> Result<(), NoMemory>
        ensures ok { OnOk result (self.new ≡ self.old ++ bytes.now ∷ []) }
        ensures err { OnErr result (self.new ≡ self.old) }
    {
        let mut source = Lines::new(self.alloc);
        source.push(bytes)?;
        self.push(source)
    }

    /// Puts some bytes at the end as a source, which moves them. Where memory is wanted the sources stay
    /// as they were.
    pub fn push(&mut self, source: Lines) -> Result<(), NoMemory>
        ensures ok { OnOk result (self.new ≡ self.old ++ source ∷ []) }
        ensures err { OnErr result (self.new ≡ self.old) }
    {
        self.sources.push(source)
    }

    /// How many sources there are.
    pub fn len(&self) -> usize
        ensures { result ≡ length self.now }
    {
        self.sources.len()
    }

    /// The sources, as borrowed.
    pub(crate) fn as_slice(&self) -> &[Lines]
        ensures { result.now ≡ self.now }
    {
        self.sources.as_slice()
    }

    /// Whether the sources have more than 1,048,576 bytes together.
    pub(crate) fn are_too_long(&self) -> bool
        ensures { IsTrue result ↔ (specification_limit < total self.now) }
    {
        are_too_long(self.sources.as_slice())
    }
}

/// Whether some sources have more than 1,048,576 bytes together.
#[tactic(auto, using(crate::proofs::RoomLemmas::next_room, crate::proofs::RoomLemmas::no_room, crate::proofs::RoomLemmas::all_room))]
fn are_too_long(sources: &[Lines]) -> bool
    ensures { IsTrue result ↔ (specification_limit < total sources.now) }
{
    let mut room = SPECIFICATION_LIMIT;
    'sources: for source in sources {
        let length = source.as_slice().len();
        if room < length {
            return true;
        }
        room -= length;
    }
    false
}
