//! Laws of the definitions. Each function does nothing, and its contract is the law.

ghost use Rattle.std.specs.Prelude.{◌≡◌, ℕ, List, map, true};
ghost use Rattle.std.specs.List.{list_all};
ghost use Rattle.nf_cast.specs.declared.placed.PlacedItem.{PlacedItem};
ghost use Rattle.nf_cast.specs.Placed.{strip_item, is_straight};
ghost use Rattle.nf_cast.specs.declared.rules.Needs.{Needs};
ghost use Rattle.nf_cast.specs.Rules.{breach_of};
ghost use Rattle.nf_cast.specs.Program.{KeepsRules};

/// The rules don't depend on lines and parentheses. Where a text breaks none, its objects and functions
/// keep the rules. Where they do, the text breaks none, if each loop's header repeats its name.
pub fn rules_hold_without_lines()
    ensures keeps { (needs : Needs) (last : ℕ) (items : List PlacedItem)
        → breach_of needs last items ≡ None → KeepsRules needs (map strip_item items) }
    ensures breaks_none { (needs : Needs) (last : ℕ) (items : List PlacedItem)
        → list_all is_straight items ≡ true → KeepsRules needs (map strip_item items)
        → breach_of needs last items ≡ None }
{}
