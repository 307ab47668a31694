//! What a case gives.

use nf_cases::Wrong;
use std::alloc::Global;

/// The sources of a case, the module that is asked for, and what the rows of `each` stand within.
#[derive(Drop)]
pub struct Given<'a> {
    pub sources: Vec<&'a [u8]>,
    pub root: Option<&'a str>,
    pub within: Vec<&'a str>,
}

impl<'a> Given<'a> {
    /// Nothing is given.
    pub fn new(alloc: Global) -> Given<'a> {
        Given {
            sources: Vec::new(alloc),
            root: None,
            within: Vec::new(alloc),
        }
    }

    /// The sources of a text, between ` ## `, under the same root.
    pub fn of_text(
        alloc: Global,
        text: &'a str,
        root: Option<&'a str>,
    ) -> Result<Given<'a>, Wrong> {
        let mut given = Given::new(alloc);
        given.root = root;
        for source in text.split(" ## ") {
            given.sources.push(source.as_bytes())?;
        }
        Ok(given)
    }

    /// The first source, which is empty where there is none.
    pub fn source(&self) -> &'a [u8] {
        self.sources.first().copied().unwrap_or(b"")
    }
}
