//! The reader of tokens.

ghost use Rattle.std.specs.Prelude.{◌≡◌, ◌+◌, ◌<◌, ◌≤◌, ◌^◌, [], length, count_by, Ok, Err, IfOk, IfErr, OnErr, IfSome, MatchOption};
ghost use Rattle.nf_lex.specs.Bytes.{is_newline};
ghost use Rattle.nf_cparse.specs.Lexing.{word_at, Lexes};
ghost use Rattle.nf_cparse.specs.inner.Tokens.{place, IsNext, IsAtEnd, IsToken};

use crate::piece::Piece;
use crate::scanning::piece_at;
use crate::symbol::Sym;
use std::marker::Model;

/// A token: what it is, its bytes, and the line of the first of them, counted from 1.
#[derive(Debug, Clone, Copy)]
pub(crate) struct Token<'a> {
    pub sym: Sym,
    pub text: &'a [u8],
    pub line: u64,
}

/// How many of the bytes are LF.
pub(crate) fn newlines(bytes: &[u8]) -> u64
    ensures count { result ≡ count_by is_newline bytes.now }
    ensures within { result ≤ length bytes.now }
{
    bytes.iter().filter(|byte| **byte == b'\n').count() as u64
}

/// The next token of the bytes, the first of which stands at the line, with what stands behind it and the
/// line of that, or None at the end. Else the line of the first fault. Takes no memory.
#[tactic(auto, using(crate::proofs::LexingLemmas::so_far_start))]
fn next_token(bytes: &[u8], line: u64) -> Result<Option<(Token<'_>, &[u8], u64)>, u64>
    requires { line + length bytes.now < 2 ^ 64 }
    ensures next { IfOk result (λ found. MatchOption found (Lexes line bytes.now (Ok [])) (λ next.
        IsNext (place bytes.now line) (word_at next.0.sym next.0.text.now next.0.line)
        (place next.1.now next.2))) }
    ensures line { IfOk result (λ found. MatchOption found (0 ≤ line) (λ next.
        next.2 + length next.1.now < 2 ^ 64)) }
    ensures form { IfOk result (λ found. IfSome found (λ next.
        IsToken next.0.sym next.0.text.now)) }
    ensures fault { IfErr result (λ at. Lexes line bytes.now (Err at)) }
{
    let mut rest = bytes;
    let mut here = line;
    'pieces: while !rest.is_empty() {
        match piece_at(rest) {
            Piece::Gap(count) => {
                let (gap, behind) = rest.split_at(count);
                here += newlines(gap);
                rest = behind;
            }
            Piece::Token(sym, count) => {
                let (text, behind) = rest.split_at(count);
                let token = Token {
                    sym,
                    text,
                    line: here,
                };
                return Ok(Some((token, behind, here + newlines(text))));
            }
            Piece::Fault(count) => {
                let (before, _) = rest.split_at(count);
                return Err(here + newlines(before));
            }
        }
    }
    Ok(None)
}

/// Where a reading of tokens stands. Contracts see the bytes that are left, and the line of the first of
/// them.
#[derive(Drop)]
pub(crate) struct Lexer<'a> {
    rest: &'a [u8],
    line: u64,
}

impl<'a> Model for Lexer<'a> {
    ghost use Rattle.std.specs.Prelude.{◌+◌, ◌<◌, ◌^◌, length};
    ghost use Rattle.nf_cparse.specs.inner.Tokens.{Place, place};

    ghost Value = { Place };

    ghost view = { λ l. place l.rest.now l.line };

    ghost invariant = { λ l. l.line + length l.rest.now < 2 ^ 64 };
}

impl<'a> Lexer<'a> {
    /// A reading that stands before bytes, the first of which stands at the line.
    pub(crate) fn new(rest: &'a [u8], line: u64) -> Lexer<'a>
        requires { line + length rest.now < 2 ^ 64 }
        ensures { result ≡ place rest.now line }
    {
        Lexer { rest, line }
    }

    /// A reading that stands at the same place.
    pub(crate) fn again(&self) -> Lexer<'a>
        ensures { result ≡ self.now }
    {
        Lexer {
            rest: self.rest,
            line: self.line,
        }
    }

    /// The next token, or None at the end. Else the line of the first fault. At the end and at a fault the
    /// reading stands where it stood. Takes no memory.
    pub(crate) fn next(&mut self) -> Result<Option<Token<'a>>, u64>
        ensures next { IfOk result (λ found. MatchOption found (IsAtEnd self.old self.new) (λ token.
            IsNext self.old (word_at token.sym token.text.now token.line) self.new)) }
        ensures form { IfOk result (λ found. IfSome found (λ token.
            IsToken token.sym token.text.now)) }
        ensures fault { IfErr result (λ at. Lexes self.old.line self.old.rest (Err at)) }
        ensures stays { OnErr result (self.new ≡ self.old) }
    {
        match next_token(self.rest, self.line)? {
            None => Ok(None),
            Some((token, rest, line)) => {
                self.rest = rest;
                self.line = line;
                Ok(Some(token))
            }
        }
    }
}
