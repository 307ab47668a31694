//! What one run of a case is over, and how it must end.

use crate::trials::{Failing, File, Party, Sizes};
use std::fmt;

/// What one run is over: its words, its files, how many bytes a call moves, and the calls that fail.
#[derive(Debug, Clone, Copy)]
pub(crate) struct Setting<'a> {
    pub words: &'a [String],
    pub files: &'a [File],
    pub sizes: Sizes,
    pub fails: &'a [Failing],
}

/// How a run must end.
#[derive(Debug, Clone, Copy)]
pub(crate) struct Wanted<'a> {
    pub status: u64,
    pub output: &'a [u8],
    pub message: &'a [u8],
}

/// What is said of a run that differs, in the words of a table.
impl fmt::Display for Setting<'_> {
    fn fmt<W: fmt::Write>(&self, f: &mut fmt::Formatter<W>) -> fmt::Result {
        let (read, write) = (self.sizes.read, self.sizes.write);
        write!(f, "words")?;
        for word in self.words {
            write!(f, " {word}")?;
        }
        write!(f, ", read {read}, write {write}")?;
        for failing in self.fails {
            write!(f, ", {failing}")?;
        }
        Ok(())
    }
}

impl fmt::Display for Failing {
    fn fmt<W: fmt::Write>(&self, f: &mut fmt::Formatter<W>) -> fmt::Result {
        let call = self.call;
        match self.party {
            Party::Shelf => write!(f, "fail read {call}"),
            Party::Output => write!(f, "fail write {call}"),
            Party::Message => write!(f, "fail message {call}"),
        }
    }
}
