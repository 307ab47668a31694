//! Marks.

ghost use Rattle.std.specs.Prelude.{◌≡◌, map};
ghost use Rattle.nf_cparse.specs.Symbols.{c_marks};
ghost use Rattle.nf_cparse.specs.Pieces.{token_or_fault, mark_in};

use crate::piece::Piece;
use crate::symbol::Sym;

const MARKS: [(&[u8], Option<Sym>); 37] = [
    (b"<<=", None),
    (b">>=", None),
    (b"<=", Some(Sym::LessEqual)),
    (b">=", Some(Sym::GreaterEqual)),
    (b"==", Some(Sym::EqualEqual)),
    (b"!=", Some(Sym::NotEqual)),
    (b"&&", Some(Sym::And)),
    (b"||", Some(Sym::Or)),
    (b"--", None),
    (b"++", None),
    (b"+=", None),
    (b"-=", None),
    (b"*=", None),
    (b"/=", None),
    (b"%=", None),
    (b"->", None),
    (b"<<", None),
    (b">>", None),
    (b"&", None),
    (b"|", None),
    (b"(", Some(Sym::Open)),
    (b")", Some(Sym::Close)),
    (b"{", Some(Sym::OpenBrace)),
    (b"}", Some(Sym::CloseBrace)),
    (b"[", Some(Sym::OpenBracket)),
    (b"]", Some(Sym::CloseBracket)),
    (b",", Some(Sym::Comma)),
    (b";", Some(Sym::Semicolon)),
    (b"=", Some(Sym::Equal)),
    (b"+", Some(Sym::Plus)),
    (b"-", Some(Sym::Minus)),
    (b"*", Some(Sym::Star)),
    (b"/", Some(Sym::Slash)),
    (b"%", Some(Sym::Percent)),
    (b"<", Some(Sym::Less)),
    (b">", Some(Sym::Greater)),
    (b"!", Some(Sym::Bang)),
];

/// A token of so many bytes, or a fault at the first byte where it is none.
pub(crate) fn token_or_fault(sym: Option<Sym>, count: usize) -> Piece
    ensures { result ≡ token_or_fault sym count }
{
    match sym {
        Some(sym) => Piece::Token(sym, count),
        None => Piece::Fault(0),
    }
}

/// The first mark of a table with which the bytes begin, or a fault at the first byte where there is none.
fn mark_in(mut table: &[(&[u8], Option<Sym>)], bytes: &[u8]) -> Piece
    ensures { result ≡ mark_in (map (λ entry. (entry.0.now, entry.1)) table.entry.now) bytes.now }
{
    'marks: while let [(mark, sym), rest @ ..] = table {
        if bytes.starts_with(mark) {
            return token_or_fault(*sym, mark.len());
        }
        table = rest;
    }
    Piece::Fault(0)
}

/// The mark with which the bytes begin, or a fault at the first byte where they begin with none.
#[tactic(auto, unfolding(crate::specs::Symbols::c_marks))]
pub(crate) fn mark_at(bytes: &[u8]) -> Piece
    ensures { result ≡ mark_in c_marks bytes.now }
{
    mark_in(&MARKS, bytes)
}
