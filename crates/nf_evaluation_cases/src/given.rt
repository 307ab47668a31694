//! What a case gives.

use crate::stopped::{FORM, Stopped};
use crate::wide::wide_plan;
use nf_cases::{Directive, lines_of};
use nf_core::Plan;
use nf_io::{CallList, FileMap};
use nf_spec::{SourceList, compile};
use std::alloc::Global;

/// What the calls of a case are made over.
#[derive(Drop)]
pub struct Given<'a> {
    pub within: Vec<&'a str>,
    pub bytes: &'a [u8],
    pub first: &'a str,
    pub second: &'a str,
    pub full: bool,
    pub wide: bool,
    pub most: usize,
    pub room: usize,
    rules: &'a [u8],
    fails: &'a str,
    files: Vec<&'a Directive>,
}

impl<'a> Given<'a> {
    /// Nothing is given: no files, no rules, and 64 bytes a call and of room.
    pub fn new(alloc: Global) -> Given<'a> {
        Given {
            within: Vec::new(alloc),
            bytes: b"",
            first: "0",
            second: "",
            full: false,
            wide: false,
            most: 64,
            room: 64,
            rules: b"",
            fails: "",
            files: Vec::new(alloc),
        }
    }

    /// Takes a directive that gives something, and answers whether it is one.
    pub fn take(&mut self, directive: &'a Directive) -> Result<bool, Stopped> {
        let rest = directive.rest.as_str();
        match directive.word.as_str() {
            "within" => self.within = lines_of(directive)?,
            "bytes" => self.bytes = directive.text.as_slice(),
            "first" => self.first = rest,
            "second" => self.second = rest,
            "full" => self.full = true,
            "wide" => self.wide = true,
            "most" => self.most = number_of(rest)?,
            "room" => self.room = number_of(rest)?,
            "rules" => self.rules = directive.text.as_slice(),
            "fails" => self.fails = rest,
            "file" => self.files.push(directive)?,
            _ => return Ok(false),
        }
        Ok(true)
    }

    /// The plan of the rules, or the one with a wide name.
    pub fn plan(&self, alloc: Global) -> Result<Plan, Stopped> {
        if self.wide {
            return wide_plan(alloc);
        }
        let mut sources = SourceList::new(alloc);
        sources.add(self.rules)?;
        if sources.len() > u32::MAX as usize {
            return Err(FORM);
        }
        match compile(alloc, &sources, None) {
            Ok(compiled) => Ok(compiled.plan),
            Err(_) => Err(FORM),
        }
    }

    /// The files, in the order in which they were given.
    pub fn file_map(&self, alloc: Global) -> Result<FileMap, Stopped> {
        let mut files = FileMap::new(alloc);
        for file in self.files.iter() {
            files.add(file.rest.as_str(), file.text.as_slice())?;
        }
        Ok(files)
    }

    /// The calls that fail.
    pub fn calls(&self, alloc: Global) -> Result<CallList, Stopped> {
        let mut calls = CallList::new(alloc);
        for word in self.fails.split_whitespace() {
            calls.add(word.parse::<u64>().map_err(|_| FORM)?)?;
        }
        Ok(calls)
    }
}

/// The number that a word spells.
pub fn number_of(word: &str) -> Result<usize, Stopped> {
    word.parse::<usize>().map_err(|_| FORM)
}
