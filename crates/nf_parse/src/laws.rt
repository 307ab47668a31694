//! Laws of the definitions. Each function does nothing but call other laws, and its contract is the law.

ghost use Rattle.std.specs.Prelude.{◌≡◌, ℕ, List, [], ◌∷◌, ◌++◌, map, Some, Err};
ghost use Rattle.nf_core.specs.Identifiers.{keywords};
ghost use Rattle.nf_core.specs.Spelling.{mark_of, word_of_op, word_of_xop};
ghost use Rattle.nf_core.specs.declared.operators.BinOp.{BinOp};
ghost use Rattle.nf_core.specs.declared.operators.Op.{Op};
ghost use Rattle.nf_core.specs.declared.operators.Xop.{Xop};
ghost use Rattle.nf_core.specs.declared.trees.Module.{Module};
ghost use Rattle.nf_lex.specs.Words.{long_marks, short_marks};
ghost use Rattle.nf_lex.specs.declared.fault.LexFault.TheVariants as lexical;
ghost use Rattle.nf_parse.specs.declared.fault.ParseFault.TheVariants as fault;
ghost use Rattle.nf_parse.specs.Answers.{Spells};
ghost use Rattle.nf_parse.specs.State as kinds;
ghost use Rattle.nf_parse.specs.State.{sym_in, words_in};
ghost use Rattle.nf_parse.specs.Grammar.{op_at, op_of, xop_of};
ghost use Rattle.nf_parse.specs.declared.level.Level.{Level};
ghost use Rattle.nf_parse.specs.Parses.{Answer, Parses};

use nf_lex::division_is_one;

/// The grammar has a kind for each keyword of nf_core, and for each mark of nf_lex, and for no other word:
/// its two tables have exactly these, in the same order.
pub fn every_word_has_a_kind()
    ensures keywords { words_in kinds.keywords ≡ keywords }
    ensures marks { words_in kinds.marks ≡ long_marks ++ map (λ mark. mark ∷ []) short_marks }
{}

/// The words of operators are those of nf_core (`word_of_op`, `word_of_xop` and `mark_of` of its
/// specs/Spelling): the grammar has each operator at its word, and a binary one at its mark and its level.
pub fn every_operator_has_its_word()
    ensures inclusive { (o : Op) → op_of (sym_in kinds.keywords (word_of_op o)) ≡ Some o }
    ensures exclusive { (x : Xop) → xop_of (sym_in kinds.keywords (word_of_xop x)) ≡ Some x }
    ensures binary { (o : BinOp)
        → (l : Level) × (op_at l (sym_in kinds.marks (mark_of o)) ≡ Some o) }
{}

/// A source spells one list of modules at most.
pub fn one_reading()
    ensures { (source : List ℕ) (a b : List Module) → Spells source a → Spells source b → a ≡ b }
{
    division_is_one();
}

/// Every source has one answer. Want of memory is none, and no lexical fault is want of memory.
pub fn every_source_is_answered()
    ensures some { (source : List ℕ) → (answer : Answer) × Parses source answer }
    ensures one { (source : List ℕ) (a b : Answer)
        → Parses source a → Parses source b → a ≡ b }
    ensures known { (source : List ℕ) → Parses source (Err fault.NoMemory) → ⊥ }
    ensures lexical { (source : List ℕ) → Parses source (Err (fault.Lex lexical.NoMemory)) → ⊥ }
{
    division_is_one();
}
