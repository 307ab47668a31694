//! The canonical text of a rule.

ghost use Rattle.std.specs.Prelude.{◌≡◌, [], ◌∷◌, ◌++◌, IfOk, OnOk};
ghost use Rattle.std.specs.Option.{option_copied};
ghost use Rattle.nf_core.specs.Trees.{IsWritten, tree};
ghost use Rattle.nf_parse.specs.Grammar.{unnamed};
ghost use Rattle.nf_parse.specs.Answers.{Spells};
ghost use Rattle.nf_print.specs.Canonical.{canonical, atom_text, body_text, clause_text, entry_text, others_text, map_text};

use crate::expressions::push_expression;
use crate::laws::canonical_lines_are_read;
use crate::words::{word_of_op, word_of_xop};
use nf_core::{Atom, Body, Entry, Expr, Lines, NoMemory, Rule};
use std::alloc::Global;

/// The canonical line of a rule that can be written (`canonical` in specs/Canonical.antt). The line
/// spells the rule: it is one module without name that holds this rule alone. NoMemory comes where
/// memory is wanted; then nothing is left of the line. The stack that it takes is as deep as the deepest
/// expression, so at most 256 operators deep.
#[tactic(auto, unfolding(crate::specs::Canonical::canonical))]
pub fn print(alloc: Global, rule: &Rule) -> Result<Lines, NoMemory>
    requires { IsWritten rule.now }
    ensures line { IfOk result (λ lines. lines ≡ canonical rule.now) }
    ensures read { IfOk result (λ lines. Spells lines (unnamed (rule.now ∷ []) ∷ [])) }
{
    canonical_lines_are_read();
    let mut lines = Lines::new(alloc);
    lines.push(rule.head.as_str().as_bytes())?;
    lines.push(b" :- ")?;
    push_body(&rule.body, &mut lines)?;
    push_clause(" where ", rule.filter.as_ref(), &mut lines)?;
    push_entries(rule.entries.as_slice(), &mut lines)?;
    push_clause(" begin ", rule.start.as_ref(), &mut lines)?;
    push_clause(" end ", rule.stop.as_ref(), &mut lines)?;
    lines.push(b"\n")?;
    Ok(lines)
}

/// Puts a body at the end of other text: its atoms, with the words of its operator between them.
#[tactic(auto, unfolding(crate::specs::Canonical::body_text))]
fn push_body(body: &Body, lines: &mut Lines) -> Result<(), NoMemory>
    ensures { OnOk result (lines.new ≡ lines.old ++ body_text body.now) }
{
    match body {
        Body::One(first) => push_atom(first, lines),
        Body::Pair(first, op, second) => {
            push_atom(first, lines)?;
            lines.push(b" ")?;
            lines.push(word_of_op(*op).as_bytes())?;
            lines.push(b" ")?;
            push_atom(second, lines)
        }
        Body::Unless(first, xop, second) => {
            push_atom(first, lines)?;
            lines.push(b" unless ")?;
            lines.push(word_of_xop(*xop).as_bytes())?;
            lines.push(b" ")?;
            push_atom(second, lines)
        }
    }
}

/// Puts an atom at the end of other text: its name where its label is the same, else `label:NAME`.
fn push_atom(atom: &Atom, lines: &mut Lines) -> Result<(), NoMemory>
    ensures { OnOk result (lines.new ≡ lines.old ++ atom_text atom.now) }
{
    if atom.label == atom.name {
        lines.push(atom.name.as_str().as_bytes())
    } else {
        lines.push(atom.label.as_str().as_bytes())?;
        lines.push(b":")?;
        lines.push(atom.name.as_str().as_bytes())
    }
}

/// Puts a clause at the end of other text, where there is one: the keyword with its spaces, and the
/// expression.
fn push_clause(word: &str, clause: Option<&Expr>, lines: &mut Lines) -> Result<(), NoMemory>
    ensures { OnOk result (lines.new
        ≡ lines.old ++ clause_text word.now (option_copied clause.entry)) }
{
    match clause {
        None => Ok(()),
        Some(expression) => {
            lines.push(word.as_bytes())?;
            push_expression(expression, lines)
        }
    }
}

/// Puts the entries of a map at the end of other text, and nothing where there is none.
fn push_entries(entries: &[Entry], lines: &mut Lines) -> Result<(), NoMemory>
    ensures { OnOk result (lines.new ≡ lines.old ++ map_text entries.now) }
{
    match entries {
        [] => Ok(()),
        [first, others @ ..] => {
            lines.push(b" map { ")?;
            push_entry(first, lines)?;
            push_others(others, lines)?;
            lines.push(b" }")
        }
    }
}

/// Puts each entry at the end of other text, each after `, `.
fn push_others(entries: &[Entry], lines: &mut Lines) -> Result<(), NoMemory>
    ensures { OnOk result (lines.new ≡ lines.old ++ others_text entries.now) }
{
    for entry in entries {
        lines.push(b", ")?;
        push_entry(entry, lines)?;
    }
    Ok(())
}

/// Puts an entry at the end of other text: `k -> E`.
fn push_entry(entry: &Entry, lines: &mut Lines) -> Result<(), NoMemory>
    ensures { OnOk result (lines.new ≡ lines.old ++ entry_text entry.now) }
{
    lines.push(entry.key.as_str().as_bytes())?;
    lines.push(b" -> ")?;
    push_expression(&entry.value, lines)
}
