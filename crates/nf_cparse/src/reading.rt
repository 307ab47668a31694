//! The reader of C texts.

ghost use Rattle.std.specs.Prelude.{◌≡◌, ◌⊎◌, Result, Ok, Err};
ghost use Rattle.nf_cast.specs.Program.{Program};
ghost use Rattle.nf_cparse.specs.declared.fault.CFault.{CFault};
ghost use Rattle.nf_cparse.specs.declared.fault.CFault.TheVariants as fault;
ghost use Rattle.nf_cparse.specs.Reading.{Reads, HasWords, line_left, fault_at};

use crate::fault::CFault;
use crate::items::read_items;
use crate::lexer::newlines;
use crate::lexing::lex_text;
use crate::manifest::read_manifest;
use crate::words::Words;
use nf_cast::{CManifest, CProgram, first_breach, needs_of};
use nf_grammar::{Fault, Halt};
use std::alloc::Global;

/// The line of the token where so many are left, or of the end where none is.
fn line_left(last: u64, mut words: Words<'_>, left: usize) -> u64
    ensures { result ≡ line_left last words.entry left }
{
    'words: while words.left() > left {
        words.next();
    }
    match words.next() {
        Some(token) => token.line,
        None => last,
    }
}

/// A fault of the grammar with its line.
fn fault_at(last: u64, words: Words<'_>, at: Fault) -> CFault
    ensures { result ≡ fault_at last words.entry at }
{
    match at {
        Fault::Grammar(left) => CFault::Grammar(line_left(last, words, left)),
        Fault::TooDeep(left) => CFault::TooDeep(line_left(last, words, left)),
    }
}

/// The program of a source with this manifest and these tokens, or why it has none.
fn program_of(
    alloc: Global,
    source: &[u8],
    manifest: CManifest,
    words: Words<'_>,
) -> Result<CProgram, CFault>
    requires { HasWords source.now manifest (Ok words) }
    ensures { (result ≡ Err fault.NoMemory) ⊎ Reads source.now result }
{
    let last = 1 + newlines(source);
    let items = match read_items(alloc, words.again()) {
        Ok(items) => items,
        Err(Halt::At(at)) => return Err(fault_at(last, words, at)),
        Err(Halt::NoMemory) => return Err(CFault::NoMemory),
    };
    match first_breach(alloc, needs_of(&manifest), last, items.as_slice())? {
        Some(breach) => Err(CFault::Rule(breach.line, breach.rule)),
        None => Ok(CProgram::of_text(alloc, manifest, items.as_slice())?),
    }
}

/// The program of a C text (C99 within the subset): its manifest, and its objects and functions without
/// their lines and their parentheses. In this order, Manifest comes exactly where the source begins with
/// no manifest's text; Lex at the line of the first byte from which no token, comment or separator can be
/// read, or at that of a missing include line; Grammar and TooDeep at the line of the first token with which
/// the tokens up to it are no front of a text within the limits, TooDeep where more of them are one under
/// other limits, or Grammar at the line of the end; and Rule at the first token that breaks a rule. Lines
/// are counted from 1. The rule is `Reads` in specs/Reading.antt. NoMemory comes where memory is wanted. After
/// an error nothing is left of the text. The stack is as deep as the blocks and the expressions of the text,
/// which the limits bound.
pub fn read_c(alloc: Global, source: &[u8]) -> Result<CProgram, CFault>
    ensures reads { (result ≡ Err fault.NoMemory) ⊎ Reads source.now result }
    ensures only { (answer : Result Program CFault) → Reads source.now answer
        → (result ≡ answer) ⊎ (result ≡ Err fault.NoMemory) }
{
    let (manifest, place) = read_manifest(alloc, source)?;
    let (before, rest) = source.split_at(place);
    match lex_text(rest, 1 + newlines(before)) {
        Ok(words) => program_of(alloc, source, manifest, words),
        Err(line) => Err(CFault::Lex(line)),
    }
}
