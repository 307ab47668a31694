//! Reading a table line by line.

use crate::cases::{Case, Directive};
use crate::parts::{add_part, is_part};
use crate::wrong::{BadTable, Wrong};
use std::alloc::Global;

/// The cases of a table, in their order.
///
/// Answers the first line that is in no form, or want of memory.
pub fn read_table(alloc: Global, bytes: &[u8]) -> Result<Vec<Case>, BadTable> {
    let mut reader = Reader {
        alloc,
        line: 0,
        cases: Vec::new(alloc),
    };
    for line in bytes.split(|byte| *byte == b'\n') {
        reader.take(line)?;
    }
    Ok(reader.cases)
}

// The cases up to a line.
#[derive(Drop)]
struct Reader {
    alloc: Global,
    line: u64,
    cases: Vec<Case>,
}

impl Reader {
    fn take(&mut self, line: &[u8]) -> Result<(), BadTable> {
        self.line = self.line.saturating_add(1);
        self.enter(line).map_err(|wrong| BadTable {
            line: self.line,
            wrong,
        })
    }

    fn enter(&mut self, line: &[u8]) -> Result<(), Wrong> {
        let text = str::from_utf8(line).map_err(|_| Wrong::NotText)?;
        let text = text.trim_start_matches(' ');
        if text.is_empty() || text.starts_with('#') {
            return Ok(());
        }
        let (word, rest) = text.split_once(' ').unwrap_or((text, ""));
        if word == "case" {
            return self.begin(rest);
        }
        let case = self.cases.last_mut().ok_or(Wrong::NoCase)?;
        if is_part(word)? {
            let directive = case.directives.last_mut().ok_or(Wrong::NoDirective)?;
            return add_part(&mut directive.text, word, rest);
        }
        case.directives
            .push(directive_of(self.alloc, self.line, word, rest)?)?;
        Ok(())
    }

    fn begin(&mut self, name: &str) -> Result<(), Wrong> {
        if name.is_empty() {
            return Err(Wrong::NoName);
        }
        let case = Case {
            name: String::from_str(self.alloc, name)?,
            line: self.line,
            directives: Vec::new(self.alloc),
        };
        self.cases.push(case)?;
        Ok(())
    }
}

fn directive_of(alloc: Global, line: u64, word: &str, rest: &str) -> Result<Directive, Wrong> {
    Ok(Directive {
        line,
        word: String::from_str(alloc, word)?,
        rest: String::from_str(alloc, rest)?,
        text: Vec::new(alloc),
    })
}
