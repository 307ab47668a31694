//! Laws of the definitions. Each function does nothing, and its contract is the law.

ghost use Rattle.std.specs.Prelude.{◌≡◌, ◌<◌, ℕ, List, Option, Err};
ghost use Rattle.nf_core.specs.declared.limits.TheConstants.{MOST_OPEN, MOST_OPERATORS};
ghost use Rattle.nf_lex.specs.declared.fault.LexFault.TheVariants as lexical;
ghost use Rattle.nf_spec.specs.Sources.{specification_limit, total};
ghost use Rattle.nf_spec.specs.Specification.{Answer, Specifies};
ghost use Rattle.nf_spec.specs.declared.fault.SpecFault.TheVariants as fault;

use nf_modules::selection_is_one;
use nf_order::one_order;
use nf_parse::every_source_is_answered;

/// For all sources and every root, or none, a specification has one answer: what it is compiled to, or a
/// refusal, and no two. Want of memory is none of them, no lexical fault is want of memory, and only
/// sources past the limit are too long.
pub fn every_specification_has_one_answer()
    ensures some { (sources : List (List ℕ)) (root : Option (List ℕ))
        → (answer : Answer) × Specifies sources root answer }
    ensures one { (sources : List (List ℕ)) (root : Option (List ℕ)) (a b : Answer)
        → Specifies sources root a → Specifies sources root b → a ≡ b }
    ensures known { (sources : List (List ℕ)) (root : Option (List ℕ))
        → Specifies sources root (Err fault.NoMemory) → ⊥ }
    ensures too_long { (sources : List (List ℕ)) (root : Option (List ℕ))
        → Specifies sources root (Err fault.TooLong) → specification_limit < total sources }
    ensures lexical { (sources : List (List ℕ)) (root : Option (List ℕ)) (place : ℕ)
        → Specifies sources root (Err (fault.Lex place lexical.NoMemory)) → ⊥ }
{
    every_source_is_answered();
    selection_is_one();
    one_order();
}

/// The limits of a specification in figures: all its sources together have at most 1,048,576 bytes, and an
/// expression at most 256 operators, and at most 64 parentheses open at once.
pub fn limits_in_figures()
    ensures bytes { specification_limit ≡ 1048576 }
    ensures operators { MOST_OPERATORS ≡ 256 }
    ensures parens { MOST_OPEN ≡ 64 }
{}
