//! The first fault of a rule.

ghost use Rattle.std.specs.Prelude.{◌≡◌, ◌↔◌, [], IsOk};
ghost use Rattle.std.specs.Result.{result_err};
ghost use Rattle.std.specs.List.{list_any};
ghost use Rattle.nf_core.specs.Kinds.{AreKindsRight};
ghost use Rattle.nf_core.specs.Texts.{text_eq};
ghost use Rattle.nf_core.specs.declared.trees.Entry.{Entry as EntryOf};
ghost use Rattle.nf_typing.specs.Faults.{fault_of, optional_fault, entry_fault, entries_fault};

use crate::clause::Clause;
use crate::expressions::check_clause;
use crate::fault::KindFault;
use crate::labels::check_labels;
use nf_core::{Entry, Expr, Rule, Text};

/// Whether the kinds of a rule are right. An error is exactly the first fault of the rule (`fault_of` of
/// specs/Faults), in this order: SameLabel; the fault of `where`; for each entry of the map SameKey, where
/// an earlier entry has its key, and then the fault of its expression; the fault of `begin`; that of
/// `end`. There is none exactly where the kinds are right (`AreKindsRight` of nf_core's specs/Kinds).
///
/// The fault of a clause is that of its expression, operands before their operator and left before
/// right, and then WrongKind where the whole expression is of a kind that the clause doesn't take.
///
/// No memory is taken. Each key is compared with all earlier ones of the same map, so the time grows with
/// the square of its entries: a set of the keys would take memory. An expression is checked by calls for
/// its operands, which stand at most 257 deep, since a rule has at most 256 operators in an expression.
pub fn check_rule(rule: &Rule) -> Result<(), KindFault>
    ensures fault { result_err result ≡ fault_of rule.now }
    ensures right { IsOk result ↔ AreKindsRight rule.now }
{
    check_parts(rule)
}

// The first fault of a rule, part by part.
#[tactic(auto, using(crate::proofs::RulePartLemmas::first_alone), unfolding(crate::specs::Faults::fault_of))]
fn check_parts(rule: &Rule) -> Result<(), KindFault>
    ensures { result_err result ≡ fault_of rule.now }
{
    check_labels(rule)?;
    check_optional(rule, Clause::Filter, &rule.filter)?;
    check_entries(rule, rule.entries.as_slice())?;
    check_optional(rule, Clause::Start, &rule.start)?;
    check_optional(rule, Clause::Stop, &rule.stop)
}

// The first fault of a clause that need not stand.
fn check_optional(rule: &Rule, clause: Clause, expr: &Option<Expr>) -> Result<(), KindFault>
    ensures { result_err result ≡ optional_fault rule.now.body clause expr.now }
{
    match expr {
        Some(expr) => check_clause(rule, clause, expr),
        None => Ok(()),
    }
}

// The first fault of the entries of a map.
fn check_entries(rule: &Rule, entries: &[Entry]) -> Result<(), KindFault>
    ensures { result_err result ≡ entries_fault rule.now.body [] entries.now }
{
    'entries: for (place, entry) in entries.iter().enumerate() {
        check_entry(rule, &entries[..place], entry)?;
    }
    Ok(())
}

// The first fault of an entry behind earlier ones.
#[tactic(auto, using(crate::proofs::RulePartLemmas::first_alone), unfolding(crate::specs::Faults::key_fault))]
fn check_entry(rule: &Rule, earlier: &[Entry], entry: &Entry) -> Result<(), KindFault>
    ensures { result_err result ≡ entry_fault rule.now.body earlier.now entry.now }
{
    if has_key(earlier, &entry.key) {
        return Err(KindFault::SameKey);
    }
    check_clause(rule, Clause::Entry, &entry.value)
}

// Whether an entry has this key.
fn has_key(entries: &[Entry], key: &Text) -> bool
    ensures { result ≡ list_any (λ (entry : EntryOf). text_eq entry.key key.now) entries.now }
{
    entries.iter().any(|entry| entry.key == *key)
}
