//! The parser.

ghost use Rattle.std.specs.Prelude.{◌≡◌, ◌≢◌, ◌⊎◌, ◌≤◌, ℕ, List, IfOk, Ok, Err, All, length};
ghost use Rattle.nf_core.specs.Trees.{IsWritten};
ghost use Rattle.nf_core.specs.declared.trees.Module.{Module};
ghost use Rattle.nf_lex.specs.Division.{Divides};
ghost use Rattle.nf_lex.specs.Layout.{IsTokenOf, AreLaidOut};
ghost use Rattle.nf_lex.specs.declared.fault.LexFault.{LexFault};
ghost use Rattle.nf_lex.specs.declared.fault.LexFault.TheVariants as lexical;
ghost use Rattle.nf_parse.specs.declared.fault.ParseFault.TheVariants as fault;
ghost use Rattle.nf_parse.specs.declared.fault.ParseFault.{ParseFault};
ghost use Rattle.nf_parse.specs.Answers.{Spells, rules_in, size_of};
ghost use Rattle.nf_parse.specs.Parses.{Parses, IsRefused, line_left};
ghost use Rattle.nf_parse.specs.inner.FileReading.{halted_at};

use crate::fault::ParseFault;
use crate::modules::file;
use crate::places::line_left;
use crate::reader::Reader;
use nf_core::{MOST_OPERATORS, ModuleList, trees_by_parts};
use nf_grammar::{Fault, Halt};
use nf_lex::{Token, Tokens, division_is_one, tokens, tokens_are_written};
use std::alloc::Global;

/// The modules of `source`, in order, by the grammar of specifications (`Spells` in specs/Answers.antt,
/// over `file` in specs/Grammar.antt). `Lex` comes exactly where the source has no tokens. `Grammar` and
/// `TooDeep` come exactly at the first token with which the tokens up to it are no front of a specification
/// within the limits (`IsRefused` in specs/Parses.antt), `TooDeep` where they are one under other limits;
/// `Grammar` comes at the end of the source where all tokens are a front and no specification. Lines are
/// counted from 1. `NoMemory` comes where no memory was left. After an error nothing is left of the modules.
/// A source has no more rules and entries of maps together than bytes.
/// It is read in one pass over its tokens, and nothing of it is copied before a tree holds it.
pub fn parse(alloc: Global, source: &[u8]) -> Result<ModuleList, ParseFault>
    ensures modules { IfOk result (λ modules. Spells source.now modules) }
    ensures only { (modules : List Module) → Spells source.now modules
        → (result ≡ Ok modules) ⊎ (result ≡ Err fault.NoMemory) }
    ensures lexical { (f : LexFault) → result ≡ Err (fault.Lex f)
        → Divides source.now 0 (Err f) × (f ≢ lexical.NoMemory) }
    ensures every_lexical { (f : LexFault) → Divides source.now 0 (Err f)
        → (result ≡ Err (fault.Lex f)) ⊎ (result ≡ Err fault.NoMemory) }
    ensures grammar { (line : ℕ) → result ≡ Err (fault.Grammar line)
        → IsRefused source.now (fault.Grammar line) }
    ensures too_deep { (line : ℕ) → result ≡ Err (fault.TooDeep line)
        → IsRefused source.now (fault.TooDeep line) }
    ensures every_refused { (f : ParseFault) → IsRefused source.now f
        → (result ≡ Err f) ⊎ (result ≡ Err fault.NoMemory) }
    ensures parses { (result ≡ Err fault.NoMemory) ⊎ Parses source.now result }
    ensures written { IfOk result (λ modules. All IsWritten (rules_in modules)) }
    ensures few { IfOk result (λ modules. size_of modules ≤ length source.now) }
{
    division_is_one();
    let tokens = tokens(alloc, source)?;
    modules_of(alloc, source, &tokens)
}

/// The modules of a source that has these tokens, in order, or the fault where its reader stops.
fn modules_of(alloc: Global, source: &[u8], tokens: &Tokens) -> Result<ModuleList, ParseFault>
    requires divides { Divides source.now 0 (Ok tokens.now) }
    requires each { All (IsTokenOf source.now) tokens.now }
    requires laid_out { AreLaidOut source.now 0 tokens.now }
    ensures parses { (result ≡ Err fault.NoMemory) ⊎ Parses source.now result }
    ensures written { IfOk result (λ modules. All IsWritten (rules_in modules)) }
    ensures few { IfOk result (λ modules. size_of modules ≤ length source.now) }
{
    tokens_are_written();
    trees_by_parts();
    let tokens = tokens.as_slice();
    let mut reader = Reader::new(source, tokens, MOST_OPERATORS);
    match file(alloc, &mut reader) {
        Ok(modules) => Ok(modules),
        Err(halt) => Err(halted_at(source, tokens, halt)),
    }
}

/// Why a reader of the tokens of a source stops, with the line where it does.
fn halted_at(source: &[u8], tokens: &[Token], halt: Halt) -> ParseFault
    requires { All (IsTokenOf source.now) tokens.now }
    ensures { result ≡ halted_at source.now tokens.now halt }
{
    match halt {
        Halt::NoMemory => ParseFault::NoMemory,
        Halt::At(Fault::Grammar(left)) => ParseFault::Grammar(line_left(source, tokens, left)),
        Halt::At(Fault::TooDeep(left)) => ParseFault::TooDeep(line_left(source, tokens, left)),
    }
}
