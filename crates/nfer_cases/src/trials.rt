//! What a case says of its runs.

use std::alloc::{AllocError, Global};

/// One file: its name and its bytes.
#[derive(Debug, Drop)]
pub(crate) struct File {
    pub name: String,
    pub bytes: Vec<u8>,
}

/// Whose calls are counted.
#[derive(Debug, Clone, Copy, PartialEq, Eq)]
pub(crate) enum Party {
    Shelf,
    Output,
    Message,
}

/// The call of a party that fails, counted from 1.
#[derive(Debug, Clone, Copy, PartialEq, Eq)]
pub(crate) struct Failing {
    pub party: Party,
    pub call: u64,
}

/// A part of the output: what the trace line of this number announces, or, with 0, what no line does.
#[derive(Debug, Drop)]
pub(crate) struct Piece {
    pub line: u64,
    pub text: Vec<u8>,
}

/// How many bytes a call of the shelf, of the output and of the message moves at most.
#[derive(Debug, Clone, Copy)]
pub(crate) struct Sizes {
    pub read: usize,
    pub write: usize,
    pub message: usize,
}

impl Sizes {
    /// These sizes, but that of one party.
    pub(crate) fn with(self, party: Party, size: usize) -> Sizes {
        match party {
            Party::Shelf => Sizes { read: size, ..self },
            Party::Output => Sizes {
                write: size,
                ..self
            },
            Party::Message => Sizes {
                message: size,
                ..self
            },
        }
    }
}

/// What a case is run with, one after the other.
#[derive(Debug, Drop)]
pub(crate) enum Each {
    /// The words of each line of a text.
    Words(String),
    /// Each number of bytes a call of a party, from one to another.
    Sizes(Party, usize, usize),
    /// Each call that can fail.
    Fault,
}

/// One case: what is run, and how it must end.
#[derive(Debug, Drop)]
pub(crate) struct Trial {
    pub words: Vec<String>,
    pub files: Vec<File>,
    pub read: Option<usize>,
    pub write: Option<usize>,
    pub fails: Vec<Failing>,
    pub status: u64,
    pub pieces: Vec<Piece>,
    pub message: Vec<u8>,
    pub each: Vec<Each>,
}

// How many bytes a call moves at most where a case doesn't say it.
const MOST: usize = 65_536;

impl Trial {
    /// The sizes of calls that a case is run with: those that it says, with 65,536 for the other; and
    /// where it says none and no call that fails, 1 and 65,536.
    pub(crate) fn sizes(&self, alloc: Global) -> Result<Vec<Sizes>, AllocError> {
        if self.read.is_none() && self.write.is_none() && self.fails.is_empty() {
            let (small, large) = (same_size(1), same_size(MOST));
            return Ok(vec![in alloc; small, large]?);
        }
        let write = self.write.unwrap_or(MOST);
        let sizes = Sizes {
            read: self.read.unwrap_or(MOST),
            write,
            message: write,
        };
        Ok(vec![in alloc; sizes]?)
    }

    /// The whole output that must come: one piece after the other.
    pub(crate) fn output(&self, alloc: Global) -> Result<Vec<u8>, AllocError> {
        let mut text = Vec::new(alloc);
        for piece in &self.pieces {
            text.extend_from_slice(piece.text.as_slice())?;
        }
        Ok(text)
    }
}

// Calls of one size.
fn same_size(size: usize) -> Sizes {
    Sizes {
        read: size,
        write: size,
        message: size,
    }
}
