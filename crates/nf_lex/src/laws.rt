//! Laws of the definitions. Each function does nothing, and its contract is the law.

ghost use Rattle.std.specs.Prelude.{◌≡◌, ◌==◌, ◌↔◌, ℕ, List, ◌∷◌, ◌++◌, length, take, slice_index, true, false, Some, None, Err, IsTrue};
ghost use Rattle.nf_core.specs.Identifiers.{has_name_form, is_identifier};
ghost use Rattle.nf_core.specs.Trees.{IsWrittenText};
ghost use Rattle.std.specs.Char.{is_ascii_digit};
ghost use Rattle.std.specs.List.{list_any};
ghost use Rattle.nf_lex.specs.declared.fault.LexFault.TheVariants as fault;
ghost use Rattle.nf_lex.specs.declared.token.TokenKind.TheVariants as kind;
ghost use Rattle.nf_lex.specs.Bytes.{is_blank, is_inner};
ghost use Rattle.nf_lex.specs.Words.{kind_of, is_number, is_text, quoted, is_among, name_kind, long_marks, short_marks, opens_line, opens_block, Gap, Token, IsWord};
ghost use Rattle.nf_lex.specs.Faults.{body_of, fault_of};
ghost use Rattle.nf_lex.specs.Division.{Answer, Divides};

use nf_text::plain_texts;

/// Every source has exactly one answer: its tokens, or its first fault, which is never want of memory.
pub fn division_is_one()
    ensures some { (source : List ℕ) → (answer : Answer) × Divides source 0 answer }
    ensures one { (source : List ℕ) (place : ℕ) (a b : Answer)
        → Divides source place a → Divides source place b → a ≡ b }
    ensures memory { (source : List ℕ) → Divides source 0 (Err fault.NoMemory) → ⊥ }
{}

/// A word that is followed by bytes with which it doesn't go on is read: the longest word at the front
/// of both is that word, of its kind. `rest` is what follows.
pub fn words_are_read()
    ensures name { (word rest : List ℕ) → has_name_form word ≡ true
        → is_inner (slice_index rest 0) ≡ false
        → IsWord (word ++ rest) (Token (name_kind word)) (length word) }
    ensures number { (word rest : List ℕ) → is_number word ≡ true
        → is_ascii_digit (slice_index rest 0) ≡ false
        → IsWord (word ++ rest) (Token kind.Number) (length word) }
    ensures text { (word rest : List ℕ) → is_text word ≡ true
        → IsWord (word ++ rest) (Token kind.Text) (length word) }
    ensures long_mark { (word rest : List ℕ) → is_among long_marks word ≡ true
        → IsWord (word ++ rest) (Token kind.Mark) 2 }
    ensures short_mark { (mark : ℕ) (rest : List ℕ) → list_any (λ m. m == mark) short_marks ≡ true
        → is_among long_marks (take 2 (mark ∷ rest)) ≡ false
        → opens_line (mark ∷ rest) ≡ false → opens_block (mark ∷ rest) ≡ false
        → IsWord (mark ∷ rest) (Token kind.Mark) 1 }
    ensures blank { (blank : ℕ) (rest : List ℕ) → is_blank blank ≡ true
        → IsWord (blank ∷ rest) Gap 1 }
{}

/// What the kind of a token says of its text: a word is an identifier's exactly where it is an
/// identifier; what stands between the `"` of a text without fault can be written there; and a text
/// that can be written is read between `"`, without fault.
pub fn tokens_are_written()
    ensures identifier { (word : List ℕ)
        → (kind_of word ≡ Some kind.Ident) ↔ IsTrue (is_identifier word) }
    ensures text { (word : List ℕ) (line : ℕ) → kind_of word ≡ Some kind.Text
        → fault_of kind.Text word line ≡ None → IsWrittenText (body_of word) }
    ensures quoted { (text : List ℕ) → IsWrittenText text → kind_of (quoted text) ≡ Some kind.Text }
    ensures sound { (text : List ℕ) (line : ℕ) → IsWrittenText text
        → fault_of kind.Text (quoted text) line ≡ None }
    ensures body { (text : List ℕ) → body_of (quoted text) ≡ text }
{
    plain_texts();
}
