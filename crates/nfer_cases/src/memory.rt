//! One run over files and sinks in memory.

ghost use Rattle.std.specs.Prelude.{◌≡◌};

use crate::settings::{Setting, Wanted};
use crate::trials::{Failing, File, Party};
use nf_cases::difference;
use nf_core::{NoMemory, Steps};
use nf_io::{CallList, FileMap, MemShelf, MemSink};
use nfer_cli::{Words, run};
use std::alloc::{AllocError, Global};
use std::marker::Brand;
use std::sync::ledger::{Blank, Ledger};

// How many bytes more than it must take a sink keeps.
const SPARE: usize = 256;

/// Where a run ends otherwise than it must: the status, the output and the message that differ.
/// None where none does.
pub(crate) fn run_difference(
    alloc: Global,
    setting: Setting<'_>,
    wanted: Wanted<'_>,
) -> Result<Option<String>, NoMemory> {
    let mut out_bytes = room_for(alloc, wanted.output)?;
    let mut err_bytes = room_for(alloc, wanted.message)?;
    let out_fails = calls_of(alloc, setting.fails, Party::Output)?;
    let err_fails = calls_of(alloc, setting.fails, Party::Message)?;
    let mut out = MemSink::new(out_bytes.as_mut_slice(), setting.sizes.write, out_fails);
    let mut err = MemSink::new(err_bytes.as_mut_slice(), setting.sizes.message, err_fails);
    let status = run_into::<Brand>(alloc, setting, &mut out, &mut err, Blank::new(1))?;
    differences(alloc, wanted, status, &out, &err)
}

// Runs into two sinks, and answers the exit status.
fn run_into<L: Ledger>(
    alloc: Global,
    setting: Setting<'_>,
    out: &mut MemSink<'_>,
    err: &mut MemSink<'_>,
    blank: Blank,
) -> Result<u8, NoMemory>
    requires name { blank.name ≡ L.name }
    requires parts { blank.parts ≡ L.parts }
    requires one { L.parts ≡ 1 }
{
    let words = words_of(alloc, setting.words)?;
    let shelf_fails = calls_of(alloc, setting.fails, Party::Shelf)?;
    let files = files_of(alloc, setting.files)?;
    let mut shelf = MemShelf::new(files, setting.sizes.read, shelf_fails);
    let mut steps = Steps::<L>::new(blank);
    let status = run(alloc, &words, &mut shelf, out, err, &mut steps);
    Ok(status.code())
}

// What differs of a status and of what two sinks took, one after the other.
fn differences(
    alloc: Global,
    wanted: Wanted<'_>,
    status: u8,
    out: &MemSink<'_>,
    err: &MemSink<'_>,
) -> Result<Option<String>, NoMemory> {
    let mut text = String::new(alloc);
    let expected = wanted.status;
    if u64::from(status) != expected {
        write!(text, "expected status {expected}, found {status}")?;
    }
    add_difference(alloc, &mut text, "output", wanted.output, out)?;
    add_difference(alloc, &mut text, "message", wanted.message, err)?;
    Ok(if text.is_empty() { None } else { Some(text) })
}

fn add_difference(
    alloc: Global,
    text: &mut String,
    what: &str,
    expected: &[u8],
    sink: &MemSink<'_>,
) -> Result<(), AllocError> {
    let found = match sink.bytes() {
        Some(bytes) => difference(alloc, what, expected, bytes)?,
        None => Some(format!(in alloc; "{what} is longer than expected")?),
    };
    let Some(found) = found else {
        return Ok(());
    };
    if !text.is_empty() {
        text.push_str("; ")?;
    }
    text.push_str(found.as_str())
}

fn room_for(alloc: Global, text: &[u8]) -> Result<Vec<u8>, AllocError> {
    vec![in alloc; b' '; text.len().saturating_add(SPARE)]
}

fn words_of(alloc: Global, texts: &[String]) -> Result<Words, NoMemory> {
    let mut words = Words::new(alloc);
    for text in texts {
        words.push(text.as_str())?;
    }
    Ok(words)
}

fn files_of(alloc: Global, files: &[File]) -> Result<FileMap, NoMemory> {
    let mut map = FileMap::new(alloc);
    for file in files {
        map.add(file.name.as_str(), file.bytes.as_slice())?;
    }
    Ok(map)
}

fn calls_of(alloc: Global, fails: &[Failing], party: Party) -> Result<CallList, NoMemory> {
    let mut calls = CallList::new(alloc);
    for failing in fails {
        if failing.party == party {
            calls.add(failing.call)?;
        }
    }
    Ok(calls)
}
