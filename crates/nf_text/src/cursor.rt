//! A walk over a source, byte by byte.

ghost use Rattle.std.specs.Prelude.{◌≡◌, ◌+◌, ◌<◌, length, slice_get};

use std::marker::Model;

/// A place in a source of bytes. Contracts see both: `source`, and `place`, which is counted from 0
/// and is the length of the source at its end.
#[derive(Debug, Drop)]
pub struct Cursor<'a> {
    source: &'a [u8],
    place: usize,
}

impl<'a> Model for Cursor<'a> {
    ghost use Rattle.std.specs.Prelude.{◌≤◌, length};
    ghost use Rattle.nf_text.specs.Place.{Place};

    ghost Value = { Place };

    ghost view = { λ c. record { source = c.source.now; place = c.place } };

    ghost invariant = { λ c. c.place ≤ length c.source.now };
}

impl<'a> Cursor<'a> {
    /// A cursor at the first byte of `source`.
    pub fn new(source: &'a [u8]) -> Cursor<'a>
        ensures source { result.source ≡ source.now }
        ensures start { result.place ≡ 0 }
    {
        Cursor { source, place: 0 }
    }

    /// The byte at the place, or None exactly at the end.
    pub fn peek(&self) -> Option<u8>
        ensures { result ≡ slice_get self.now.source self.now.place }
    {
        self.source.get(self.place).copied()
    }

    /// Goes one byte on. The cursor may not be at the end.
    pub fn step(&mut self)
        requires { self.old.place < length self.old.source }
        ensures source { self.new.source ≡ self.old.source }
        ensures place { self.new.place ≡ self.old.place + 1 }
    {
        self.place += 1;
    }

    /// The place, counted from 0: how many bytes were stepped over.
    pub fn place(&self) -> usize
        ensures { result ≡ self.now.place }
    {
        self.place
    }
}
