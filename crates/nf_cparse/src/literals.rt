//! Literals.

ghost use Rattle.std.specs.Prelude.{◌≡◌, ◌+◌, ◌<◌, ◌≤◌, ◌^◌, not, nat_lt, MatchOption, length, drop, true, false};
ghost use Rattle.std.specs.List.{prefix_len, list_all};
ghost use Rattle.std.specs.Char.{is_ascii_digit};
ghost use Rattle.std.specs.Str.Parse.{digits_value};
ghost use Rattle.nf_lex.specs.Bytes.{is_blank};
ghost use Rattle.nf_cparse.specs.Pieces.{past_blanks, digits_at, past_digits, are_literal_digits, begins_with, literal_piece};
ghost use Rattle.nf_cparse.specs.declared.symbol.Sym.TheVariants as sym;
ghost use Rattle.nf_cparse.specs.inner.Tokens.{IsToken};
ghost use Rattle.nf_cparse.specs.Grammar.{literal_value};

use crate::piece::Piece;
use crate::symbol::Sym;
use std::str;

/// Whether the byte is space, tab, CR or LF.
pub(crate) fn is_blank(byte: u8) -> bool
    ensures { result ≡ is_blank byte }
{
    byte == b' ' || byte == b'\t' || byte == b'\r' || byte == b'\n'
}

/// How many bytes at the front are separators.
fn blanks_len(bytes: &[u8]) -> usize
    ensures len { result ≡ prefix_len is_blank bytes.now }
    ensures within { result ≤ length bytes.now }
{
    bytes.iter().take_while(|byte| is_blank(**byte)).count()
}

/// What stands behind the separators at the front of the bytes.
#[tactic(auto, unfolding(crate::specs::Pieces::past_blanks))]
fn past_blanks(bytes: &[u8]) -> &[u8]
    ensures rest { result.now ≡ past_blanks bytes.now }
    ensures shorter { length result.now ≤ length bytes.now }
{
    let (_, rest) = bytes.split_at(blanks_len(bytes));
    rest
}

/// What stands behind a byte with which the bytes begin, or None exactly where they don't.
fn past_byte(bytes: &[u8], byte: u8) -> Option<&[u8]>
    requires { 0 < byte }
    ensures { MatchOption result (begins_with byte bytes.now ≡ false)
        (λ rest. (begins_with byte bytes.now ≡ true) × (rest.now ≡ drop 1 bytes.now)
        × (length rest.now + 1 ≡ length bytes.now)) }
{
    let (first, rest) = bytes.split_first()?;
    if *first == byte { Some(rest) } else { None }
}

/// How many bytes at the front are digits.
fn digits_len(bytes: &[u8]) -> usize
    ensures len { result ≡ prefix_len is_ascii_digit bytes.now }
    ensures within { result ≤ length bytes.now }
{
    bytes
        .iter()
        .take_while(|byte| byte.is_ascii_digit())
        .count()
}

/// Whether digits are a number of at most 2^63 - 1.
#[tactic(auto, using(crate::proofs::LiteralLemmas::small_read, crate::proofs::LiteralLemmas::digits_utf8))]
fn is_small(digits: &[u8]) -> bool
    requires some { 0 < length digits.now }
    requires digits { list_all is_ascii_digit digits.now ≡ true }
    ensures { result ≡ nat_lt (digits_value 10 digits.now) (2 ^ 63) }
{
    match str::from_utf8(digits) {
        Ok(digits) => digits.parse::<i64>().is_ok(),
        Err(_) => false,
    }
}

/// Whether digits are such as a literal has: `0`, or digits without a leading zero, up to 2^63 - 1.
#[tactic(auto, unfolding(crate::specs::Pieces::are_literal_digits))]
fn are_literal_digits(digits: &[u8]) -> bool
    requires { list_all is_ascii_digit digits.now ≡ true }
    ensures { result ≡ are_literal_digits digits.now }
{
    (digits.len() == 1 || (digits.len() > 1 && digits[0] != b'0')) && is_small(digits)
}

/// The literal at the front of the bytes, which begin with `INT64_C`, or a fault at the first byte where
/// none stands there.
#[tactic(auto, using(crate::proofs::RunLemmas::run_passes), unfolding(crate::specs::Pieces::literal_piece, crate::specs::Pieces::literal_open, crate::specs::Pieces::literal_inside, crate::specs::Pieces::literal_close, crate::specs::Pieces::digits_at, crate::specs::Pieces::past_digits))]
pub(crate) fn literal_piece(bytes: &[u8]) -> Piece
    requires { 7 ≤ length bytes.now }
    ensures { result ≡ literal_piece bytes.now }
{
    let (_, behind) = bytes.split_at(7);
    let Some(inside) = past_byte(past_blanks(behind), b'(') else {
        return Piece::Fault(0);
    };
    let inside = past_blanks(inside);
    let (digits, rest) = inside.split_at(digits_len(inside));
    let Some(rest) = past_byte(past_blanks(rest), b')') else {
        return Piece::Fault(0);
    };
    if are_literal_digits(digits) {
        Piece::Token(Sym::Lit, bytes.len() - rest.len())
    } else {
        Piece::Fault(0)
    }
}

/// How many bytes at the front are no digits.
fn others_len(bytes: &[u8]) -> usize
    ensures len { result ≡ prefix_len (λ byte. not (is_ascii_digit byte)) bytes.now }
    ensures within { result ≤ length bytes.now }
{
    bytes
        .iter()
        .take_while(|byte| !byte.is_ascii_digit())
        .count()
}

/// The digits of a literal.
#[tactic(auto, using(crate::proofs::ValueLemmas::literal_long))]
pub(crate) fn digits_of(text: &[u8]) -> &[u8]
    requires { IsToken sym.Lit text.now }
    ensures value { digits_value 10 result.now ≡ literal_value text.now }
    ensures digits { list_all is_ascii_digit result.now ≡ true }
    ensures some { 0 < length result.now }
    ensures small { digits_value 10 result.now < 2 ^ 63 }
{
    let (_, behind) = text.split_at(7);
    let (_, inside) = behind.split_at(others_len(behind));
    let (digits, _) = inside.split_at(digits_len(inside));
    digits
}
