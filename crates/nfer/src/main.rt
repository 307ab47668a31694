//! The program `nfer`: it hands the words, the files and the streams of the system to the top call,
//! and ends with its status.
#![tactic(auto)]

ghost use Rattle.std.specs.Prelude.{◌≡◌};

use nf_core::{NoMemory, Steps};
use nf_io::{RealShelf, RealSink};
use nfer_cli::{Status, Words, run};
use std::marker::Brand;
use std::process::ExitCode;
use std::sync::ledger::{Blank, Ledger};
use std::{env, io};

/// Why there are no words to run.
#[derive(Debug, Clone, Copy, PartialEq, Eq)]
enum NoWords {
    /// A word isn't UTF-8.
    NotText,
    /// No memory was left.
    NoMemory,
}

impl From<NoMemory> for NoWords {
    fn from(_error: NoMemory) -> NoWords {
        NoWords::NoMemory
    }
}

impl From<io::Error> for NoWords {
    fn from(error: io::Error) -> NoWords {
        if error.kind() == io::ErrorKind::OutOfMemory {
            NoWords::NoMemory
        } else {
            NoWords::NotText
        }
    }
}

fn main(rt: HostRuntime) -> ExitCode {
    match words_of(&rt) {
        Ok(words) => ExitCode::from(run_over_real::<Brand>(&rt, &words, Blank::new(1)).code()),
        Err(NoWords::NotText) => refused(&rt, "nfer: usage", 1),
        Err(NoWords::NoMemory) => refused(&rt, "nfer: no memory", 6),
    }
}

// The words behind the program's name.
fn words_of(rt: &HostRuntime) -> Result<Words, NoWords> {
    let mut words = Words::new(rt.alloc());
    for word in env::args(rt)?.skip(1) {
        words.push(word.as_str())?;
    }
    Ok(words)
}

// Runs the words over the system's files and streams.
fn run_over_real<L: Ledger>(rt: &HostRuntime, words: &Words, blank: Blank) -> Status
    requires name { blank.name ≡ L.name }
    requires parts { blank.parts ≡ L.parts }
    requires one { L.parts ≡ 1 }
{
    let mut steps = Steps::<L>::new(blank);
    let mut shelf = RealShelf::new(rt);
    let mut out = RealSink::new(rt.stdout());
    let mut err = RealSink::new(rt.stderr());
    run(
        rt.alloc(),
        words,
        &mut shelf,
        &mut out,
        &mut err,
        &mut steps,
    )
}

// Ends before any word was run. A message that can't be written changes nothing.
fn refused(rt: &HostRuntime, message: &str, status: u8) -> ExitCode {
    let _ = rt.eprintln(message);
    ExitCode::from(status)
}
