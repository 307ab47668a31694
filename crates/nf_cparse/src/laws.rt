//! Laws of the definitions. Each function does nothing but call another crate's law, and its contract is the
//! law.

ghost use Rattle.std.specs.Prelude.{◌≡◌, ℕ, ◌-◌, ◌<◌, List, ◌∷◌, ◌++◌, length, codes, bytes_eq, nat_eq, slice_index, true, false, Result, Err};
ghost use Rattle.std.specs.List.{list_all, starts_with};
ghost use Rattle.std.specs.Char.{is_ascii_digit};
ghost use Rattle.nf_lex.specs.Bytes.{is_blank, is_inner};
ghost use Rattle.nf_grammar.specs.Places.{Answers};
ghost use Rattle.nf_grammar.specs.declared.fault.Fault.{Fault};
ghost use Rattle.nf_cast.specs.declared.manifests.CManifest.{CManifest};
ghost use Rattle.nf_cast.specs.declared.placed.PlacedItem.{PlacedItem};
ghost use Rattle.nf_cast.specs.Program.{Program};
ghost use Rattle.nf_cparse.specs.declared.fault.CFault.{CFault};
ghost use Rattle.nf_cparse.specs.declared.fault.CFault.TheVariants as fault;
ghost use Rattle.nf_cparse.specs.Manifests.{BeginsWith};
ghost use Rattle.nf_cparse.specs.declared.symbol.Sym.TheVariants as sym;
ghost use Rattle.nf_cparse.specs.declared.piece.Piece.TheVariants as piece;
ghost use Rattle.nf_cparse.specs.Symbols.{word_symbol};
ghost use Rattle.nf_cparse.specs.Pieces.{token_or_fault, are_literal_digits, piece_of};
ghost use Rattle.nf_cparse.specs.Marks.{Mark, IsLongestMark};
ghost use Rattle.nf_cparse.specs.Lexing.{Word, Answer, LexesText};
ghost use Rattle.nf_cparse.specs.Grammar.{c_text_grammar};
ghost use Rattle.nf_cparse.specs.Reading.{Reads, limits};

use nf_text::plain_texts;

/// A source begins with the text of one manifest at most, and one rest stands behind it: no manifest's text
/// is the beginning of another's, and no two have one text.
pub fn manifest_is_one()
    ensures { (source : List ℕ) (m n : CManifest) (rest other : List ℕ)
        → BeginsWith source m rest → BeginsWith source n other → (m ≡ n) × (rest ≡ other) }
{}

/// What stands behind a manifest has exactly one lexical answer, whatever its bytes are: its tokens, or the
/// line of its first fault.
pub fn text_is_one()
    ensures some { (line : ℕ) (bytes : List ℕ) → (answer : Answer) × LexesText line bytes answer }
    ensures one { (line : ℕ) (bytes : List ℕ) (a b : Answer)
        → LexesText line bytes a → LexesText line bytes b → a ≡ b }
{}

/// Tokens that are followed by what they don't go on with are read. A run of letters, digits and `_` is read
/// whole, as the word or the identifier that it is. A literal is read with separators between its parts. Of
/// the marks of the table with which bytes begin the longest is read, unless a comment opens there.
pub fn tokens_are_read()
    ensures word { (word rest : List ℕ) → 0 < length word → list_all is_inner word ≡ true
        → bytes_eq word (codes "INT64_C") ≡ false → is_inner (slice_index rest 0) ≡ false
        → piece_of (word ++ rest) ≡ token_or_fault (word_symbol word) (length word) }
    ensures literal { (first second digits third rest : List ℕ) → list_all is_blank first ≡ true
        → list_all is_blank second ≡ true → list_all is_blank third ≡ true
        → list_all is_ascii_digit digits ≡ true → are_literal_digits digits ≡ true
        → piece_of (codes "INT64_C"
        ++ (first ++ 40 ∷ (second ++ (digits ++ (third ++ 41 ∷ rest)))))
        ≡ piece.Token sym.Lit (length (codes "INT64_C"
        ++ (first ++ 40 ∷ (second ++ (digits ++ (third ++ 41 ∷ rest))))) - length rest) }
    ensures mark { (bytes : List ℕ) (mark : Mark) → IsLongestMark bytes mark
        → starts_with nat_eq bytes (codes "//") ≡ false
        → starts_with nat_eq bytes (codes "/*") ≡ false
        → piece_of bytes ≡ token_or_fault mark.1 (length mark.0) }
{}

/// Tokens have exactly one answer by the grammar within the limits, whatever they are: the objects and
/// functions of a text, or the fault of the first token with which they are no front of one.
pub fn items_are_one()
    ensures some { (words : List Word) → (answer : Result (List PlacedItem) Fault)
        × Answers c_text_grammar limits words answer }
    ensures one { (words : List Word) (a b : Result (List PlacedItem) Fault)
        → Answers c_text_grammar limits words a → Answers c_text_grammar limits words b → a ≡ b }
{}

/// Every source has exactly one answer, whatever its bytes are: its program, or why it has none. Want of
/// memory is none.
pub fn every_source_is_answered()
    ensures some { (source : List ℕ) → (answer : Result Program CFault) × Reads source answer }
    ensures one { (source : List ℕ) (a b : Result Program CFault)
        → Reads source a → Reads source b → a ≡ b }
    ensures known { (source : List ℕ) → Reads source (Err fault.NoMemory) → ⊥ }
{
    plain_texts();
}
