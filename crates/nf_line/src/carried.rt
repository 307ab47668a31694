//! The bytes that are carried from one piece to the next.

ghost use Rattle.std.specs.Prelude.{◌≡◌, [], ◌++◌, length, OnOk, OnErr};
ghost use Rattle.std.specs.Borrow.{sem};
ghost use Rattle.std.specs.Io.BufRead.{Rests};
ghost use Rattle.nf_line.specs.Lines.{is_empty};
ghost use Rattle.nf_line.specs.contracts.carried.Carried.{the_row};

use std::alloc::{AllocError, Global};
use std::marker::Model;

/// The bytes of a line that hasn't ended, in one buffer. Contracts see the list of them. Once they were
/// handed out there are none, and the buffer still has them, until others come.
#[derive(Debug, Drop)]
pub(crate) struct Carried {
    bytes: Vec<u8>,
    handed_out: bool,
}

impl Model for Carried {
    ghost use Rattle.std.specs.Prelude.{List, ℕ, [], if◌then◌else◌};

    ghost Value = { List ℕ };

    ghost view = { λ c. if c.handed_out then [] else c.bytes.items };
}

impl Carried {
    /// No bytes. Takes no memory.
    pub(crate) fn new(alloc: Global) -> Carried
        ensures { result ≡ [] }
    {
        Carried {
            bytes: Vec::new(alloc),
            handed_out: false,
        }
    }

    /// How many bytes there are.
    pub(crate) fn len(&self) -> usize
        ensures { result ≡ length self.now }
    {
        if self.handed_out {
            return 0;
        }
        self.bytes.len()
    }

    /// More bytes at the end. An `Err` changes nothing.
    pub(crate) fn push(&mut self, bytes: &[u8]) -> Result<(), AllocError>
        ensures ok { OnOk result (self.new ≡ self.old ++ bytes.now) }
        ensures err { OnErr result (self.new ≡ self.old) }
    {
        if !self.handed_out {
            return self.bytes.extend_from_slice(bytes);
        }
        self.bytes.clear();
        self.handed_out = false;
        self.bytes.extend_from_slice(bytes)
    }

    /// Drops all bytes.
    pub(crate) fn clear(&mut self)
        ensures { self.new ≡ [] }
    {
        self.bytes.clear();
    }

    /// Hands out all bytes. None are left.
    pub(crate) fn hand_out(&mut self) -> &[u8]
        ensures bytes { result.now ≡ self.old }
        ensures* after { sem 𝓛 (Rests the_row self.entry (λ after. after ≡ [])) }
    {
        if self.handed_out {
            return b"";
        }
        self.handed_out = true;
        self.bytes.as_slice()
    }
}
