//! What is given to be read.

use nf_cases::{Directive, Wrong, lines_of, whole_number};
use std::alloc::{AllocError, Global};

/// The lines of the last `text`, what the rows of a case stand within, the line of a printed program
/// that is shown, and the bytes that are read.
#[derive(Drop)]
pub struct Given<'a> {
    lines: Vec<&'a str>,
    pub within: Vec<&'a str>,
    pub shown: Option<u64>,
    pub source: Vec<u8>,
}

impl<'a> Given<'a> {
    /// Nothing is given.
    pub fn new(alloc: Global) -> Given<'a> {
        Given {
            lines: Vec::new(alloc),
            within: Vec::new(alloc),
            shown: None,
            source: Vec::new(alloc),
        }
    }

    /// A case begins: only the last `text` stays.
    pub fn begin(&mut self) {
        self.within.clear();
        self.shown = None;
        self.source.clear();
    }

    /// The text of a directive is read, and the directives below change its lines.
    ///
    /// Answers NotText where it isn't UTF-8.
    pub fn give_text(&mut self, directive: &'a Directive) -> Result<(), Wrong> {
        self.lines = lines_of(directive)?;
        self.give_source(directive)
    }

    /// The bytes of a directive are read.
    pub fn give_source(&mut self, directive: &Directive) -> Result<(), Wrong> {
        self.source.clear();
        self.source.extend_from_slice(directive.text.as_slice())?;
        Ok(())
    }

    /// The line of a directive's number is shown of what a program is printed as.
    pub fn give_shown(&mut self, directive: &Directive) -> Result<(), Wrong> {
        self.shown = Some(number_of(directive)?);
        Ok(())
    }

    /// The last `text` is read, with these bytes in place of the line of a directive's number.
    ///
    /// Answers Form where the directive names no line of it.
    pub fn give_line(&mut self, directive: &Directive, bytes: &[u8]) -> Result<(), Wrong> {
        let place = number_of(directive)?.checked_sub(1).ok_or(Wrong::Form)?;
        if place >= self.lines.len() as u64 {
            return Err(Wrong::Form);
        }
        self.source.clear();
        for (at, line) in self.lines.iter().enumerate() {
            if at as u64 == place {
                self.source.extend_from_slice(bytes)?;
            } else {
                push_line(&mut self.source, line)?;
            }
        }
        Ok(())
    }

    /// So many lines of the last `text` are read as a directive says, and then these bytes.
    ///
    /// Answers Form where the directive says no number.
    pub fn give_first(&mut self, directive: &Directive, bytes: &[u8]) -> Result<(), Wrong> {
        let count = number_of(directive)?;
        self.source.clear();
        for (at, line) in self.lines.iter().enumerate() {
            if (at as u64) < count {
                push_line(&mut self.source, line)?;
            }
        }
        self.source.extend_from_slice(bytes)?;
        Ok(())
    }
}

// The number behind the word of a directive.
fn number_of(directive: &Directive) -> Result<u64, Wrong> {
    whole_number(directive.rest.as_str()).ok_or(Wrong::Form)
}

// Puts a line and its LF behind some bytes.
fn push_line(bytes: &mut Vec<u8>, line: &str) -> Result<(), AllocError> {
    bytes.extend_from_slice(line.as_bytes())?;
    bytes.extend_from_slice(b"\n")
}
