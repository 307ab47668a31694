//! Which labels expressions may read. The atoms of a body are those that `reads` of nf_core lends.

ghost use Rattle.std.specs.Prelude.{◌≡◌, bytes_eq, take};
ghost use Rattle.std.specs.List.{list_any};
ghost use Rattle.std.specs.Result.{result_err};
ghost use Rattle.nf_core.specs.Kinds.{labels_of, result_labels};
ghost use Rattle.nf_core.specs.Trees.{atoms_of};
ghost use Rattle.nf_typing.specs.Faults.{label_fault, has_same_label, read_fault, readable_in};

use crate::clause::Clause;
use crate::fault::KindFault;
use nf_core::{Body, Rule, Text};

/// SameLabel where an atom of a body has the label of an earlier one.
pub(crate) fn check_labels(rule: &Rule) -> Result<(), KindFault>
    ensures { result_err result ≡ label_fault rule.now.body }
{
    if has_same_label(rule) {
        return Err(KindFault::SameLabel);
    }
    Ok(())
}

// Whether an atom has the label of an earlier one. A body has at most two atoms.
#[tactic(auto, using(crate::proofs::BodyLemmas::two_labels, crate::proofs::BodyLemmas::one_label))]
fn has_same_label(rule: &Rule) -> bool
    ensures { result ≡ has_same_label (atoms_of rule.now.body) }
{
    match &rule.body {
        Body::One(_) => false,
        Body::Pair(first, _, second) | Body::Unless(first, _, second) => {
            first.label == second.label
        }
    }
}

/// The fault of a read under a label, in a clause of a rule: SecondLabel where it is the label of an atom
/// that the clause may not read, UnknownLabel where no atom has it.
#[tactic(auto, unfolding(crate::specs::Faults::read_fault))]
pub(crate) fn check_read(rule: &Rule, clause: Clause, label: &Text) -> Result<(), KindFault>
    ensures { result_err result
        ≡ read_fault (readable_in clause rule.now.body) (labels_of rule.now.body) label.now }
{
    if is_readable(rule, clause, label) {
        return Ok(());
    }
    if is_label(rule, label) {
        return Err(KindFault::SecondLabel);
    }
    Err(KindFault::UnknownLabel)
}

// Whether a clause may read under a label.
fn is_readable(rule: &Rule, clause: Clause, label: &Text) -> bool
    ensures { result ≡ list_any (bytes_eq label.now) (readable_in clause rule.now.body) }
{
    match clause {
        Clause::Filter => is_label(rule, label),
        _ => is_result_label(rule, label),
    }
}

// Whether a result may read under a label: of an exclusive rule the first atom's alone.
fn is_result_label(rule: &Rule, label: &Text) -> bool
    ensures { result ≡ list_any (bytes_eq label.now) (result_labels rule.now.body) }
{
    match &rule.body {
        Body::Unless(_, _, _) => is_first_label(rule, label),
        _ => is_label(rule, label),
    }
}

// Whether the first atom has this label.
#[tactic(auto, using(crate::proofs::BodyLemmas::first_label))]
fn is_first_label(rule: &Rule, label: &Text) -> bool
    ensures { result ≡ list_any (bytes_eq label.now) (take 1 (labels_of rule.now.body)) }
{
    match rule.reads(0) {
        Some(first) => *label == first.label,
        None => false,
    }
}

// Whether an atom has this label.
fn is_label(rule: &Rule, label: &Text) -> bool
    ensures { result ≡ list_any (bytes_eq label.now) (labels_of rule.now.body) }
{
    let mut place = 0;
    'atoms: while let Some(atom) = rule.reads(place) {
        if *label == atom.label {
            return true;
        }
        place += 1;
    }
    false
}
