//! Rows: lines that have a part of a C text, and behind ` => ` what must come of reading it.

use nf_cases::{Directive, Row, Wrong, lines_of};
use std::alloc::Global;

/// The rows of a directive, each within all that stands around it, in place of `@`, and as it is where
/// nothing does. `⏎` in a row is an LF.
///
/// Answers Form where a line is no row.
pub fn rows_within(
    alloc: Global,
    directive: &Directive,
    around: &[&str],
) -> Result<Vec<Row>, Wrong> {
    let mut rows = Vec::new(alloc);
    for line in lines_of(directive)? {
        let (asked, wanted) = line.split_once(" => ").ok_or(Wrong::Form)?;
        if around.is_empty() {
            rows.push(row_of(alloc, asked, wanted)?)?;
        }
        for text in around {
            let asked = text.replace(alloc, "@", asked)?;
            rows.push(row_of(alloc, asked.as_str(), wanted)?)?;
        }
    }
    Ok(rows)
}

fn row_of(alloc: Global, asked: &str, wanted: &str) -> Result<Row, Wrong> {
    Ok(Row {
        asked: asked.replace(alloc, "⏎", "\n")?,
        wanted: String::from_str(alloc, wanted)?,
    })
}
