//! Laws of the definitions. Each function does nothing, and its contract is the law.

ghost use Rattle.std.specs.Prelude.{◌≡◌, ℕ, List, is_some, is_none};
ghost use Rattle.nf_core.specs.Kinds.{kind_of_tree};
ghost use Rattle.nf_core.specs.Trees.{Tree};
ghost use Rattle.nf_typing.specs.Faults.{expression_fault};

/// An expression has a kind over the labels that it may read exactly where it has no fault.
#[tactic(auto, using(crate::proofs::KindAgreementLemmas::is_none_expression_fault))]
pub fn kinds_are_those_of_trees()
    ensures { (readable all : List (List ℕ)) (a : Tree)
        → is_none (expression_fault readable all a) ≡ is_some (kind_of_tree readable a) }
{}
