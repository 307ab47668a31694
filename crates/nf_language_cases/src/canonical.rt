//! Canonical lines, printed and read again.

ghost use Rattle.std.specs.Prelude.{All};
ghost use Rattle.nf_core.specs.Trees.{IsWritten};
ghost use Rattle.nf_parse.specs.Answers.{rules_in};

use nf_core::{Lines, Module, ModuleList, NoMemory, Rule};
use nf_parse::{ParseFault, parse};
use nf_print::print;
use std::alloc::Global;

/// The canonical lines of all rules of a source, with a text between them, or its fault. Where they
/// are printed otherwise once they are read, it is that.
pub fn canonical_shown(alloc: Global, source: &[u8], between: &str) -> Result<String, NoMemory> {
    let once = match lines_of(alloc, source)? {
        Ok(lines) => lines,
        Err(fault) => return Ok(format!(in alloc; "{fault}")?),
    };
    match lines_of(alloc, once.as_slice())? {
        Ok(again) if again.as_slice() == once.as_slice() => {
            joined(alloc, once.as_slice(), between)
        }
        Ok(_) => Ok(String::from_str(alloc, "printed otherwise when read")?),
        Err(fault) => Ok(format!(in alloc; "not read again: {fault}")?),
    }
}

// The canonical lines of all rules of a source.
fn lines_of(alloc: Global, source: &[u8]) -> Result<Result<Lines, ParseFault>, NoMemory> {
    match parse(alloc, source) {
        Ok(modules) => Ok(Ok(lines_of_modules(alloc, &modules)?)),
        Err(fault) => Ok(Err(fault)),
    }
}

fn lines_of_modules(alloc: Global, modules: &ModuleList) -> Result<Lines, NoMemory>
    requires { All IsWritten (rules_in modules.now) }
{
    let mut lines = Lines::new(alloc);
    push_modules(alloc, modules.as_slice(), &mut lines)?;
    Ok(lines)
}

// Adds the lines of the rules of modules.
fn push_modules(alloc: Global, modules: &[Module], lines: &mut Lines) -> Result<(), NoMemory>
    requires { All IsWritten (rules_in modules.now) }
{
    for item in modules {
        push_rules(alloc, item.rules.as_slice(), lines)?;
    }
    Ok(())
}

// Adds the lines of rules.
fn push_rules(alloc: Global, rules: &[Rule], lines: &mut Lines) -> Result<(), NoMemory>
    requires { All IsWritten rules.now }
{
    for rule in rules {
        let line = print(alloc, rule)?;
        lines.push(line.as_slice())?;
    }
    Ok(())
}

/// The canonical lines of rules, with a text between them.
pub fn canonical_lines(alloc: Global, rules: &[Rule], between: &str) -> Result<String, NoMemory>
    requires { All IsWritten rules.now }
{
    let mut lines = Lines::new(alloc);
    push_rules(alloc, rules, &mut lines)?;
    joined(alloc, lines.as_slice(), between)
}

// Lines without the last LF, and with a text in place of each other one.
fn joined(alloc: Global, lines: &[u8], between: &str) -> Result<String, NoMemory> {
    let text = str::from_utf8(lines).unwrap_or("not text");
    let text = text.strip_suffix("\n").unwrap_or(text);
    Ok(text.replace(alloc, "\n", between)?)
}
