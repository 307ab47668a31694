//! What a program over a table tells.

use crate::cases::Case;
use std::alloc::{AllocError, Global};
use std::fmt;

/// How many runs there were and how many of them differed, with a line for each of these.
#[derive(Drop)]
pub struct Report {
    lines: String,
    runs: u64,
    differing: u64,
}

impl Report {
    /// The report of no run.
    pub fn new(alloc: Global) -> Report {
        Report {
            lines: String::new(alloc),
            runs: 0,
            differing: 0,
        }
    }

    /// Counts a run of a case, which differs where a difference is given: then a line tells the case's
    /// line and name, and the difference. Answers want of memory for that line; the run is counted.
    pub fn count(&mut self, case: &Case, difference: Option<&str>) -> Result<(), AllocError> {
        self.runs = self.runs.saturating_add(1);
        let Some(difference) = difference else {
            return Ok(());
        };
        self.differing = self.differing.saturating_add(1);
        let line = case.line;
        let name = case.name.as_str();
        writeln!(self.lines, "line {line}: {name}: {difference}")
    }

    /// How many runs differed.
    pub fn differing(&self) -> u64 {
        self.differing
    }
}

/// The lines, and then `N cases, M differ`.
impl fmt::Display for Report {
    fn fmt<W: fmt::Write>(&self, f: &mut fmt::Formatter<W>) -> fmt::Result {
        let lines = self.lines.as_str();
        let runs = self.runs;
        let differing = self.differing;
        write!(f, "{lines}{runs} cases, {differing} differ")
    }
}
