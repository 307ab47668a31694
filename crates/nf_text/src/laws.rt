//! Laws of the definitions: numbers and times are read back from their canonical decimals.
//! Each function does nothing, and its contract is the law.

ghost use Rattle.std.specs.Prelude.{◌≡◌, ◌↔◌, ℕ, ◌<◌, ◌^◌, List, ℤ, pos, FitsSigned, Some, None, decimal, true, false, codes, All};
ghost use Rattle.std.specs.List.{list_any};
ghost use Rattle.std.specs.Fmt.{signed_decimal};
ghost use Rattle.std.specs.Int.{w64};
ghost use Rattle.nf_text.specs.Time.{time_of};
ghost use Rattle.nf_text.specs.Value.{Truth, Whole, Words, spelling_of, is_truth, whole_of, is_plain, is_separator, is_words};
ghost use Rattle.nf_core.specs.Texts.{IsPlainByte, IsPlain};

/// The canonical decimal of a whole number spells that number, and a text that spells a whole number
/// is its canonical decimal.
pub fn printed_numbers_are_read()
    ensures read { (n : ℤ) → FitsSigned w64 n → spelling_of (signed_decimal n) ≡ Whole n }
    ensures canonical { (text : List ℕ) (n : ℤ) → spelling_of text ≡ Whole n
        → text ≡ signed_decimal n }
    ensures within { (text : List ℕ) (n : ℤ) → spelling_of text ≡ Whole n → FitsSigned w64 n }
{}

/// The canonical decimal of a time is read as that time.
pub fn printed_times_are_read()
    ensures { (n : ℕ) → n < 2 ^ 63 → time_of (decimal n) ≡ Some (pos n) }
{}

/// A truth value is no whole number, only the two words spell truth values, and a plain text spells
/// itself.
pub fn spellings_are_apart()
    ensures apart { (text : List ℕ) → is_truth text ≡ true → whole_of text ≡ None }
    ensures truth { (text : List ℕ) → spelling_of text ≡ Truth true → text ≡ codes "true" }
    ensures falsehood { (text : List ℕ) → spelling_of text ≡ Truth false → text ≡ codes "false" }
    ensures plain { (text : List ℕ) → is_plain text ≡ true → spelling_of text ≡ Words text }
    ensures words { (text given : List ℕ) → spelling_of text ≡ Words given → given ≡ text }
{}

/// The tests of plain texts are right: a byte is plain exactly where it is none of `|`, `;`, CR and LF,
/// a text passes `is_plain` exactly where it is plain, and one with plain bytes that spells just its
/// bytes is plain.
pub fn plain_texts()
    ensures bytes { (text : List ℕ) → (list_any is_separator text ≡ false) ↔ All IsPlainByte text }
    ensures plain { (text : List ℕ) → (is_plain text ≡ true) ↔ IsPlain text }
    ensures words { (text : List ℕ) → All IsPlainByte text → is_words (spelling_of text) ≡ true
        → IsPlain text }
{}
