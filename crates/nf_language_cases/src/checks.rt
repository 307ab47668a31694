//! What can be checked of the sources of a case.

use crate::canonical::canonical_shown;
use crate::given::Given;
use crate::judged::{kinds_shown, levels_shown, selected_shown};
use crate::modules::{accepted_shown, filter_shown, modules_shown, words_shown};
use crate::plans::{compiled_shown, listed_shown, plan_shown};
use crate::tokens::{identifier_shown, tokens_shown};
use nf_core::NoMemory;
use nf_lex::LexFault;
use nf_modules::ModuleFault;
use nf_order::OrderFault;
use nf_parse::ParseFault;
use nf_spec::SpecFault;
use std::alloc::Global;

/// What is checked, and what is shown of it. Where a source is refused, it is the message of the
/// fault.
#[derive(Clone, Copy)]
pub enum Check {
    /// `tokens`: the tokens of the first source, each as its kind and its text.
    Tokens,
    /// `identifier`: whether the first source is an identifier, `yes` or `no`.
    Identifier,
    /// `accepted`: `accepted` where the first source is read as modules.
    Accepted,
    /// `modules`: the modules of the first source, as their copies are.
    Modules,
    /// `words`: the same of the words of the first source, each on a line of its own.
    Words,
    /// `filter`: the `where` of the first rule, with each operator before its operands.
    Filter,
    /// `canonical`: the canonical lines of all rules of the first source, printed, read and printed again.
    Canonical,
    /// `kinds`: for each rule of the first source `accepted`, or its first fault.
    Kinds,
    /// `selected`: the heads of the selected rules of the first source.
    Selected,
    /// `levels`: the names of the first source, each with its level, or the first cycle.
    Levels,
    /// `compiled`: the heads of the rules that the sources are compiled to, each with its level.
    Compiled,
    /// `listed`: the canonical lines of the rules that the sources are compiled to.
    Listed,
    /// `plan`: the plan that the sources are compiled to, as its copy is.
    Plan,
    /// `wants`: what each fault enum prints for want of memory.
    Wants,
}

impl Check {
    /// The check of a word.
    pub fn of(word: &str) -> Option<Check> {
        match word {
            "tokens" => Some(Check::Tokens),
            "identifier" => Some(Check::Identifier),
            "accepted" => Some(Check::Accepted),
            "modules" => Some(Check::Modules),
            "words" => Some(Check::Words),
            "filter" => Some(Check::Filter),
            "canonical" => Some(Check::Canonical),
            "kinds" => Some(Check::Kinds),
            "selected" => Some(Check::Selected),
            "levels" => Some(Check::Levels),
            "compiled" => Some(Check::Compiled),
            "listed" => Some(Check::Listed),
            "plan" => Some(Check::Plan),
            "wants" => Some(Check::Wants),
            _ => None,
        }
    }
}

/// What a check shows, with a text between its items.
pub fn answer(
    alloc: Global,
    check: Check,
    given: &Given<'_>,
    between: &str,
) -> Result<String, NoMemory> {
    match check {
        Check::Tokens => tokens_shown(alloc, given.source(), between),
        Check::Identifier => identifier_shown(alloc, given.source()),
        Check::Accepted => accepted_shown(alloc, given.source()),
        Check::Modules => modules_shown(alloc, given.source()),
        Check::Words => words_shown(alloc, given.source()),
        Check::Filter => filter_shown(alloc, given.source()),
        Check::Canonical => canonical_shown(alloc, given.source(), between),
        Check::Kinds => kinds_shown(alloc, given.source(), between),
        Check::Selected => selected_shown(alloc, given.source(), given.root, between),
        Check::Levels => levels_shown(alloc, given.source(), between),
        Check::Compiled => compiled_shown(alloc, given, between),
        Check::Listed => listed_shown(alloc, given, between),
        Check::Plan => plan_shown(alloc, given, between),
        Check::Wants => wants_shown(alloc, between),
    }
}

// What each fault enum prints for want of memory.
fn wants_shown(alloc: Global, between: &str) -> Result<String, NoMemory> {
    let mut out = String::new(alloc);
    write!(out, "{}{between}{}", NoMemory, LexFault::NoMemory)?;
    write!(out, "{between}{}", ParseFault::NoMemory)?;
    write!(out, "{between}{}", ModuleFault::NoMemory)?;
    write!(out, "{between}{}", OrderFault::NoMemory)?;
    write!(out, "{between}{}", SpecFault::NoMemory)?;
    Ok(out)
}

/// Adds an item to a text, behind what stands between items.
pub fn push_item(out: &mut String, between: &str, item: &str) -> Result<(), NoMemory> {
    if !out.is_empty() {
        out.push_str(between)?;
    }
    out.push_str(item)?;
    Ok(())
}
