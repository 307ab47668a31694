//! What comes of reading a text, as it is shown.

use nf_cast::{CProgram, CRule, print_c};
use nf_core::NoMemory;
use nf_cparse::{CFault, read_c};
use std::alloc::Global;

/// The answer to a text: its first fault, or what comes of its program when it is printed and read. Where
/// a line is to be shown, of a program it is this line of its printed text.
pub fn answer(alloc: Global, source: &[u8], line: Option<u64>) -> Result<String, NoMemory> {
    match read_c(alloc, source) {
        Ok(program) => program_shown(alloc, &program, line),
        Err(fault) => fault_shown(alloc, fault),
    }
}

// `program`, or a line of its text, where that is read to a program of the same text.
fn program_shown(alloc: Global, program: &CProgram, line: Option<u64>) -> Result<String, NoMemory> {
    let text = print_c(alloc, program)?;
    match read_c(alloc, text.as_slice()) {
        Ok(again) => {
            let same = print_c(alloc, &again)?.as_slice() == text.as_slice();
            let word = if same {
                word_of(text.as_slice(), line)
            } else {
                "printed otherwise when read"
            };
            Ok(String::from_str(alloc, word)?)
        }
        Err(fault) => {
            let refused = fault_shown(alloc, fault)?;
            Ok(format!(in alloc; "not read again: {refused}")?)
        }
    }
}

// `program`, or the line of a program's text that is to be shown.
fn word_of(text: &[u8], line: Option<u64>) -> &str {
    match line {
        Some(number) => line_at(text, number),
        None => "program",
    }
}

// A line of a text, counted from 1, without the spaces before it.
fn line_at(text: &[u8], number: u64) -> &str {
    let text = str::from_utf8(text).unwrap_or("");
    for (at, line) in text.lines().enumerate() {
        if at as u64 + 1 == number {
            return line.trim_start_matches(' ');
        }
    }
    "no such line"
}

fn fault_shown(alloc: Global, fault: CFault) -> Result<String, NoMemory> {
    let text = match fault {
        CFault::Manifest => String::from_str(alloc, "manifest")?,
        CFault::Lex(line) => format!(in alloc; "{line}: lex")?,
        CFault::Grammar(line) => format!(in alloc; "{line}: grammar")?,
        CFault::TooDeep(line) => format!(in alloc; "{line}: too deep")?,
        CFault::Rule(line, rule) => format!(in alloc; "{line}: {}", rule_shown(rule))?,
        CFault::NoMemory => String::from_str(alloc, "no memory")?,
    };
    Ok(text)
}

fn rule_shown(rule: CRule) -> &'static str {
    match rule {
        CRule::Twice => "twice",
        CRule::Unknown => "unknown",
        CRule::Form => "form",
        CRule::Class => "class",
        CRule::Count => "count",
        CRule::Void => "void",
        CRule::Assign => "assign",
        CRule::Bound => "bound",
        CRule::Loop => "loop",
        CRule::Return => "return",
        CRule::Size => "size",
        CRule::Calls => "calls",
        CRule::Interface => "interface",
    }
}
