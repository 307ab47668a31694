//! Words and identifiers.

ghost use Rattle.std.specs.Prelude.{◌≡◌, ◌||◌, ◌==◌, map, bytes_eq};
ghost use Rattle.std.specs.List.{list_all};
ghost use Rattle.std.specs.Map.{lookup};
ghost use Rattle.nf_core.specs.Identifiers.{is_digit};
ghost use Rattle.nf_lex.specs.Words.{is_among};
ghost use Rattle.nf_cast.specs.Names.{is_small, has_small_form, ends_as_type, is_c_identifier};
ghost use Rattle.nf_cparse.specs.Symbols.{word_symbol};

use crate::symbol::Sym;

const C_KEYWORDS: [&[u8]; 37] = [
    b"auto",
    b"break",
    b"case",
    b"char",
    b"const",
    b"continue",
    b"default",
    b"do",
    b"double",
    b"else",
    b"enum",
    b"extern",
    b"float",
    b"for",
    b"goto",
    b"if",
    b"inline",
    b"int",
    b"long",
    b"register",
    b"restrict",
    b"return",
    b"short",
    b"signed",
    b"sizeof",
    b"static",
    b"struct",
    b"switch",
    b"typedef",
    b"union",
    b"unsigned",
    b"void",
    b"volatile",
    b"while",
    b"_Bool",
    b"_Complex",
    b"_Imaginary",
];

const WORDS: [(&[u8], Sym); 8] = [
    (b"static", Sym::Static),
    (b"void", Sym::Void),
    (b"const", Sym::Const),
    (b"int64_t", Sym::Int64),
    (b"if", Sym::If),
    (b"else", Sym::Else),
    (b"for", Sym::For),
    (b"return", Sym::Return),
];

/// Whether the word stands in the table.
fn is_among(mut table: &[&[u8]], word: &[u8]) -> bool
    ensures { result ≡ is_among (map (λ entry. entry.now) table.entry.now) word.now }
{
    'entries: while let [entry, rest @ ..] = table {
        if *entry == word {
            return true;
        }
        table = rest;
    }
    false
}

/// Whether an identifier may go on with the byte.
fn is_small_inner(byte: u8) -> bool
    ensures { result ≡ (is_small byte || is_digit byte || byte == 95) }
{
    byte.is_ascii_lowercase() || byte.is_ascii_digit() || byte == b'_'
}

/// Whether an identifier may go on with each of the bytes.
fn are_small_inner(mut bytes: &[u8]) -> bool
    ensures { result ≡ list_all (λ b. is_small b || is_digit b || b == 95) bytes.now }
{
    'bytes: while let [byte, rest @ ..] = bytes {
        if !is_small_inner(*byte) {
            return false;
        }
        bytes = rest;
    }
    true
}

/// Whether the bytes are a small letter, and then small letters, digits and `_`.
#[tactic(auto, unfolding(nf_cast::specs::Names::has_small_form))]
fn has_small_form(name: &[u8]) -> bool
    ensures { result ≡ has_small_form name.now }
{
    match name {
        [] => false,
        [first, others @ ..] => first.is_ascii_lowercase() && are_small_inner(others),
    }
}

/// Whether the bytes end in `_t`, as the names of C's types do.
#[tactic(auto, unfolding(nf_cast::specs::Names::ends_as_type))]
fn ends_as_type(name: &[u8]) -> bool
    ensures { result ≡ ends_as_type name.now }
{
    let (_, end) = name.split_at(name.len().saturating_sub(2));
    end == b"_t".as_slice()
}

/// Whether the bytes are an identifier of a C text (`is_c_identifier` in specs/Names of nf_cast).
#[tactic(auto, unfolding(nf_cast::specs::Names::is_c_identifier, nf_cast::specs::Names::c_keywords))]
fn is_c_identifier(name: &[u8]) -> bool
    ensures { result ≡ is_c_identifier name.now }
{
    has_small_form(name)
        && name != b"main".as_slice()
        && !ends_as_type(name)
        && !is_among(&C_KEYWORDS, name)
}

/// What a word is in a table, if it is there.
fn symbol_in(mut table: &[(&[u8], Sym)], word: &[u8]) -> Option<Sym>
    ensures { result
        ≡ lookup (bytes_eq word.now) (map (λ entry. (entry.0.now, entry.1)) table.entry.now) }
{
    'entries: while let [(bytes, sym), rest @ ..] = table {
        if word == *bytes {
            return Some(*sym);
        }
        table = rest;
    }
    None
}

/// What a run of letters, digits and `_` is, if it is a token.
#[tactic(auto, unfolding(crate::specs::Symbols::word_symbol, crate::specs::Symbols::c_words))]
pub(crate) fn word_symbol(run: &[u8]) -> Option<Sym>
    ensures { result ≡ word_symbol run.now }
{
    if is_c_identifier(run) {
        Some(Sym::Ident)
    } else {
        symbol_in(&WORDS, run)
    }
}
