//! The tokens of a text that are left.

ghost use Rattle.std.specs.Prelude.{◌≡◌, [], ◌∷◌, ◌+◌, ◌<◌, ◌^◌, length, IfSome, MatchOption};
ghost use Rattle.nf_grammar.specs.State.{next_of};
ghost use Rattle.nf_cparse.specs.Lexing.{word_at};
ghost use Rattle.nf_cparse.specs.inner.Parsers.{is_kind};
ghost use Rattle.nf_cparse.specs.inner.Tokens.{IsBefore, IsToken, words_at};

use crate::lexer::{Lexer, Token};
use crate::symbol::Sym;
use std::marker::Model;

/// The tokens of a text without lexical fault that are left. Contracts see the list of their words. They
/// are read where they stand in the text, one by one, so that no list of them is kept.
#[derive(Drop)]
pub(crate) struct Words<'a> {
    lexer: Lexer<'a>,
    left: usize,
}

impl<'a> Model for Words<'a> {
    ghost use Rattle.std.specs.Prelude.{List};
    ghost use Rattle.nf_cparse.specs.Lexing.{Word};
    ghost use Rattle.nf_cparse.specs.inner.Tokens.{IsBefore, words_at};

    ghost Value = { List Word };

    ghost view = { λ w. words_at w.lexer };

    ghost invariant = { λ w. IsBefore w.left w.lexer };
}

impl<'a> Words<'a> {
    /// The tokens behind a place, of which there are so many.
    pub(crate) fn new(lexer: Lexer<'a>, left: usize) -> Words<'a>
        requires { IsBefore left lexer }
        ensures { result ≡ words_at lexer.entry }
    {
        Words { lexer, left }
    }

    /// How many tokens are left.
    pub(crate) fn left(&self) -> usize
        ensures count { result ≡ length self.now }
        ensures few { result + 1 < 2 ^ 64 }
    {
        self.left
    }

    /// The same tokens once more.
    pub(crate) fn again(&self) -> Words<'a>
        ensures { result ≡ self.now }
    {
        Words {
            lexer: self.lexer.again(),
            left: self.left,
        }
    }

    /// Whether the next token is of this kind. Takes no memory.
    pub(crate) fn begin_with(&self, kind: Sym) -> bool
        ensures { result ≡ is_kind kind (next_of self.now) }
    {
        let mut words = self.again();
        match words.next() {
            Some(token) => token.sym == kind,
            None => false,
        }
    }

    /// The next token, behind which the reading then stands, or None where no token is left. Takes no
    /// memory.
    pub(crate) fn next(&mut self) -> Option<Token<'a>>
        ensures next { MatchOption result ((self.old ≡ []) × (self.new ≡ [])) (λ token.
            self.old ≡ word_at token.sym token.text.now token.line ∷ self.new) }
        ensures form { IfSome result (λ token. IsToken token.sym token.text.now) }
    {
        match self.lexer.next() {
            Ok(Some(token)) => {
                self.left -= 1;
                Some(token)
            }
            Ok(None) => None,
            Err(_) => unreachable!(),
        }
    }
}
