//! Laws of the definitions. Each function does nothing, and its contract is the law.

ghost use Rattle.std.specs.Prelude.{◌≡◌, ℕ, List, Option, Result};
ghost use Rattle.nf_core.specs.Trees.{Rule};
ghost use Rattle.nf_core.specs.declared.trees.Module.{Module};
ghost use Rattle.nf_modules.specs.declared.fault.ModuleFault.{ModuleFault};
ghost use Rattle.nf_modules.specs.Selection.{Selects};

/// For every list of modules and every root, or none, there is one answer, and only one.
pub fn selection_is_one()
    ensures some { (modules : List Module) (root : Option (List ℕ))
        → (answer : Result (List Rule) ModuleFault) × Selects modules root answer }
    ensures one { (modules : List Module) (root : Option (List ℕ))
        (a b : Result (List Rule) ModuleFault)
        → Selects modules root a → Selects modules root b → a ≡ b }
{}
