//! Laws of the definitions. Each function does nothing, and its contract is the law.

ghost use Rattle.std.specs.Prelude.{◌≡◌, ℕ, ℤ, Bool, false, List, IsTrue};
ghost use Rattle.nf_core.specs.Identifiers.{is_identifier, is_wide_name};
ghost use Rattle.nf_core.specs.Trees as trees;
ghost use Rattle.nf_core.specs.Trees.{Tree, tree, expr_of};
ghost use Rattle.nf_core.specs.declared.operators.BinOp.{BinOp};
ghost use Rattle.nf_core.specs.declared.trees.Expr.{Expr};
ghost use Rattle.nf_core.specs.declared.trees.Expr.TheVariants as variant;

/// Expressions and their trees are the same: an expression is that of its tree, and a tree that of its
/// expression.
#[tactic(auto, using(crate::proofs::Public::TreeLemmas::expr_of_tree, crate::proofs::Public::TreeLemmas::tree_of_expr))]
pub fn trees_are_expressions()
    ensures expression { (x : Expr) → expr_of (tree x) ≡ x }
    ensures tree { (a : Tree) → tree (expr_of a) ≡ a }
{}

/// No identifier is the text of a wide name.
#[tactic(auto, using(crate::proofs::Public::NameLemmas::identifier_is_not_wide))]
pub fn identifiers_are_not_wide()
    ensures { (text : List ℕ) → IsTrue (is_identifier text) → is_wide_name text ≡ false }
{}

/// The tree of an expression, by its parts.
#[tactic(auto, using(crate::proofs::Public::TreeLemmas::tree_Bool, crate::proofs::Public::TreeLemmas::tree_Int, crate::proofs::Public::TreeLemmas::tree_Text, crate::proofs::Public::TreeLemmas::tree_Start, crate::proofs::Public::TreeLemmas::tree_Stop, crate::proofs::Public::TreeLemmas::tree_Key, crate::proofs::Public::TreeLemmas::tree_Neg, crate::proofs::Public::TreeLemmas::tree_Not, crate::proofs::Public::TreeLemmas::tree_Bin))]
pub fn trees_by_parts()
    ensures truth { (b : Bool) → tree (variant.Bool b) ≡ trees.Bool b }
    ensures number { (n : ℤ) → tree (variant.Int n) ≡ trees.Int n }
    ensures text { (text : List ℕ) → tree (variant.Text text) ≡ trees.Text text }
    ensures start { (label : List ℕ) → tree (variant.Start label) ≡ trees.Start label }
    ensures stop { (label : List ℕ) → tree (variant.Stop label) ≡ trees.Stop label }
    ensures key { (label key : List ℕ) → tree (variant.Key label key) ≡ trees.Key label key }
    ensures minus { (x : Expr) → tree (variant.Neg x) ≡ trees.Neg (tree x) }
    ensures inverted { (x : Expr) → tree (variant.Not x) ≡ trees.Not (tree x) }
    ensures binary { (op : BinOp) (x y : Expr)
        → tree (variant.Bin op x y) ≡ trees.Bin op (tree x) (tree y) }
{}
