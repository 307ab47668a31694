//! What the tokens of a source are to the grammar.

ghost use Rattle.std.specs.Prelude.{◌≡◌, map, All};
ghost use Rattle.nf_lex.specs.Layout.{IsTokenOf, text_of};
ghost use Rattle.nf_grammar.specs.State.{next_of};
ghost use Rattle.nf_parse.specs.State.{sym_of, sym_in, kind_of_next, words_of};

use crate::symbol::Sym;
use nf_lex::{Token, TokenKind};
use nf_text::slice;

const KEYWORDS: [(&[u8], Sym); 20] = [
    (b"module", Sym::Module),
    (b"import", Sym::Import),
    (b"where", Sym::Where),
    (b"map", Sym::Map),
    (b"begin", Sym::Begin),
    (b"end", Sym::End),
    (b"unless", Sym::Unless),
    (b"before", Sym::Before),
    (b"meet", Sym::Meet),
    (b"during", Sym::During),
    (b"coincide", Sym::Coincide),
    (b"start", Sym::Start),
    (b"finish", Sym::Finish),
    (b"overlap", Sym::Overlap),
    (b"slice", Sym::Slice),
    (b"after", Sym::After),
    (b"follow", Sym::Follow),
    (b"contain", Sym::Contain),
    (b"true", Sym::True),
    (b"false", Sym::False),
];

const MARKS: [(&[u8], Sym); 24] = [
    (b":-", Sym::Defines),
    (b"->", Sym::Arrow),
    (b"<=", Sym::LessEqual),
    (b">=", Sym::GreaterEqual),
    (b"!=", Sym::NotEqual),
    (b"=", Sym::Equal),
    (b"<", Sym::Less),
    (b">", Sym::Greater),
    (b"!", Sym::Bang),
    (b"&", Sym::And),
    (b"|", Sym::Or),
    (b"+", Sym::Plus),
    (b"-", Sym::Minus),
    (b"*", Sym::Star),
    (b"/", Sym::Slash),
    (b"%", Sym::Percent),
    (b"(", Sym::Open),
    (b")", Sym::Close),
    (b"{", Sym::OpenBrace),
    (b"}", Sym::CloseBrace),
    (b",", Sym::Comma),
    (b";", Sym::Semicolon),
    (b".", Sym::Dot),
    (b":", Sym::Colon),
];

/// What the first of some tokens of a source is, where there is one.
pub(crate) fn first_sym(source: &[u8], tokens: &[Token]) -> Option<Sym>
    requires { All (IsTokenOf source.now) tokens.now }
    ensures { result ≡ kind_of_next (next_of (words_of source.now tokens.now)) }
{
    match tokens {
        [] => None,
        [first, ..] => Some(sym_of(source, *first)),
    }
}

/// What a token of a source is.
#[tactic(auto, unfolding(crate::specs::State::sym_of))]
fn sym_of(source: &[u8], token: Token) -> Sym
    requires { IsTokenOf source.now token }
    ensures { result ≡ sym_of token.kind (text_of source.now token) }
{
    let bytes = slice(source, token.span);
    match token.kind {
        TokenKind::Ident => Sym::Ident,
        TokenKind::Number => Sym::Number,
        TokenKind::Text => Sym::Text,
        TokenKind::Keyword => sym_in(&KEYWORDS, bytes),
        TokenKind::Mark => sym_in(&MARKS, bytes),
    }
}

/// What a word is in a table.
fn sym_in(mut table: &[(&[u8], Sym)], word: &[u8]) -> Sym
    ensures { result ≡ sym_in (map (λ entry. (entry.0.now, entry.1)) table.entry.now) word.now }
{
    'entries: while let [(bytes, sym), rest @ ..] = table {
        if word == *bytes {
            return *sym;
        }
        table = rest;
    }
    Sym::Other
}
