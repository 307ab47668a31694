//! How deep expressions are.

ghost use Rattle.std.specs.Prelude.{◌+◌, ◌≤◌};
ghost use Rattle.nf_core.specs.Expressions.{operators_of};
ghost use Rattle.nf_core.specs.declared.terms.Term.{Term};
ghost use Rattle.nf_expr.specs.Depth.{depth_of};

/// An expression is at most one deeper (`depth_of` of specs/Depth) than it has operators
/// (`operators_of` of nf_core's specs/Expressions). So `eval`, which calls itself once for each node
/// on a way down, stands at most 257 calls deep at an expression with 256 operators.
#[tactic(auto, using(crate::proofs::DepthLemmas::depth_within))]
pub fn expressions_are_no_deeper_than_operators()
    ensures { (term : Term) → depth_of term ≤ operators_of term + 1 }
{}
