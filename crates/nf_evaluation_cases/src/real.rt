//! Calls of the real outside, over files in the folder that the program runs in.

use crate::outside::{done_shown, shelf_answer, sink_answer};
use crate::stopped::{FORM, Stopped};
use nf_io::{Failed, RealShelf, RealSink};
use std::alloc::Global;
use std::fs;

/// Calls of a real shelf, `pick NAME` and `read N`; and `create NAME TEXT ~ TEXT`, which writes texts to
/// a new file, `closed NAME TEXT`, which writes to one that was opened to be read, and `remove NAME`.
pub fn real_answers(rt: &HostRuntime, rows: &[&str]) -> Result<Vec<String>, Stopped> {
    let mut shelf = RealShelf::new(rt);
    let mut found = Vec::new(rt.alloc());
    for row in rows {
        let answer = match row.split_once(' ') {
            Some(("create", rest)) => create_answer(rt, rest)?,
            Some(("closed", rest)) => closed_answer(rt, rest)?,
            Some(("remove", name)) => {
                done_shown(rt.alloc(), fs::remove_file(rt, name).map_err(|_| Failed))?
            }
            _ => shelf_answer(rt.alloc(), &mut shelf, row)?,
        };
        found.push(answer)?;
    }
    Ok(found)
}

// Writes each text to a new file.
fn create_answer(rt: &HostRuntime, rest: &str) -> Result<String, Stopped> {
    let (name, texts) = rest.split_once(' ').ok_or(FORM)?;
    let Ok(file) = fs::create(rt, name) else {
        return told(rt.alloc(), "not created");
    };
    let mut sink = RealSink::new(file);
    for text in texts.split(" ~ ") {
        let row = format!(in rt.alloc(); "all {text}")?;
        let answer = sink_answer(rt.alloc(), &mut sink, row.as_str())?;
        if answer.as_str() != "ok" {
            return Ok(answer);
        }
    }
    told(rt.alloc(), "ok")
}

// Writes a text to a file that was opened to be read.
fn closed_answer(rt: &HostRuntime, rest: &str) -> Result<String, Stopped> {
    let (name, text) = rest.split_once(' ').ok_or(FORM)?;
    let Ok(file) = fs::open(rt, name) else {
        return told(rt.alloc(), "not opened");
    };
    let mut sink = RealSink::new(file);
    let row = format!(in rt.alloc(); "write {text}")?;
    sink_answer(rt.alloc(), &mut sink, row.as_str())
}

fn told(alloc: Global, word: &str) -> Result<String, Stopped> {
    Ok(String::from_str(alloc, word)?)
}
