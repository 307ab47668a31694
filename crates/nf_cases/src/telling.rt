//! Telling a report.

use crate::report::Report;
use crate::wrong::BadTable;
use std::io;

/// Prints the report of a table, or its bad line, and answers the status: 0 where the table is good and
/// no run differs, 1 where one differs, and 2 where the table is bad.
pub fn tell(rt: &impl Print, told: Result<Report, BadTable>) -> io::Result<u8> {
    match told {
        Ok(report) => {
            println!(rt; "{report}")?;
            Ok(u8::from(report.differing() > 0))
        }
        Err(bad) => {
            println!(rt; "{bad}")?;
            Ok(2)
        }
    }
}
