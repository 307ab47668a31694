//! Laws of the definitions. Each function does nothing, and its contract is the law.

ghost use Rattle.std.specs.Prelude.{[], ◌∷◌};
ghost use Rattle.nf_core.specs.Trees.{Rule, IsWritten, IsRule};
ghost use Rattle.nf_parse.specs.Grammar.{unnamed};
ghost use Rattle.nf_parse.specs.Answers.{Spells};
ghost use Rattle.nf_print.specs.Canonical.{canonical};

/// The canonical line of a rule that can be written and is within the limits spells one module without
/// name that holds this rule alone.
pub fn canonical_lines_are_read()
    ensures { (rule : Rule) → IsWritten rule → IsRule rule
        → Spells (canonical rule) (unnamed (rule ∷ []) ∷ []) }
{
    nf_core::trees_are_expressions();
    nf_text::plain_texts();
    nf_lex::words_are_read();
}
