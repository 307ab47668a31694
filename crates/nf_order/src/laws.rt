//! Laws of the definitions. The function does nothing, and its contract is the law.

ghost use Rattle.std.specs.Prelude.{◌≡◌, ◌⊎◌, ℕ, List, All};
ghost use Rattle.nf_core.specs.Trees.{Rule};
ghost use Rattle.nf_core.specs.Written.{Levels, AreLevels, level_of_name, names_of};
ghost use Rattle.nf_order.specs.Dependence.{IsAcyclic, IsFirstCycle, leveled_names};

/// Rules have one answer: there are levels of their names or a first head that depends on itself, and
/// never both; the levels are the same, however they were found, as one list where they stand in the
/// order of the names; and at most one head is the first that depends on itself.
pub fn one_order()
    ensures some { (rules : List Rule)
        → ((levels : Levels) × (leveled_names levels ≡ names_of rules) × AreLevels rules levels)
        ⊎ ((name : List ℕ) × IsFirstCycle rules name) }
    ensures same { (rules : List Rule) (a b : Levels)
        → leveled_names a ≡ names_of rules → leveled_names b ≡ names_of rules
        → AreLevels rules a → AreLevels rules b → a ≡ b }
    ensures levels { (rules : List Rule) (a b : Levels) → AreLevels rules a → AreLevels rules b
        → All (λ name. level_of_name a name ≡ level_of_name b name) (names_of rules) }
    ensures acyclic { (rules : List Rule) (levels : Levels)
        → AreLevels rules levels → IsAcyclic rules }
    ensures either { (rules : List Rule) (levels : Levels) (name : List ℕ)
        → AreLevels rules levels → ¬ IsFirstCycle rules name }
    ensures cycle { (rules : List Rule) (a b : List ℕ)
        → IsFirstCycle rules a → IsFirstCycle rules b → a ≡ b }
{}
