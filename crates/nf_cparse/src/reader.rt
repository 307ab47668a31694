//! The reader of words.

ghost use Rattle.std.specs.Prelude.{◌≡◌, ◌+◌, ◌<◌, length, IfOk, IfErr, OnOk, Ok};
ghost use Rattle.nf_grammar.specs.declared.fault.Halt.TheVariants as halt;
ghost use Rattle.nf_grammar.specs.declared.fault.Fault.TheVariants as fault;
ghost use Rattle.nf_grammar.specs.State.{state, next};
ghost use Rattle.nf_grammar.specs.inner.Parsers as parser;
ghost use Rattle.nf_grammar.specs.inner.Parsers.{Stops};
ghost use Rattle.nf_cparse.specs.Lexing.{word_at};
ghost use Rattle.nf_cparse.specs.Grammar.{of_value, is_written};
ghost use Rattle.nf_cparse.specs.inner.Parsers as spec;
ghost use Rattle.nf_cparse.specs.inner.StatementReading.{begins_call};
ghost use Rattle.nf_cparse.specs.inner.Picking.{is_value, is_name};
ghost use Rattle.nf_cparse.specs.inner.Tokens.{IsToken};

use crate::lexer::Token;
use crate::symbol::Sym;
use crate::values::literal_of;
use crate::words::Words;
use nf_grammar::{Fault, Halt};
use std::marker::Model;

/// Where a reading of tokens stands: the next token, those behind it, and how many operators the
/// expression there may still have. Contracts see the words that are left and that number.
#[derive(Drop)]
pub(crate) struct Reader<'a> {
    ahead: Option<Token<'a>>,
    words: Words<'a>,
    operators: usize,
}

impl<'a> Model for Reader<'a> {
    ghost use Rattle.std.specs.Prelude.{IfSome, option_map};
    ghost use Rattle.nf_grammar.specs.State.{state};
    ghost use Rattle.nf_cparse.specs.Lexing.{word_at};
    ghost use Rattle.nf_cparse.specs.inner.Tokens.{IsToken};
    ghost use Rattle.nf_cparse.specs.inner.Parsers.{State, with_ahead};

    ghost Value = { State };

    ghost view = { λ r. state r.operators (with_ahead
        (option_map (λ token. word_at token.sym token.text.now token.line) r.ahead) r.words) };

    ghost invariant = { λ r. IfSome r.ahead (λ token. IsToken token.sym token.text.now) };
}

impl<'a> Reader<'a> {
    /// A reader before tokens, which may read so many operators in an expression.
    pub(crate) fn new(mut words: Words<'a>, operators: usize) -> Reader<'a>
        ensures { result ≡ state operators words.entry }
    {
        let ahead = words.next();
        Reader {
            ahead,
            words,
            operators,
        }
    }

    /// What the next word is.
    pub(crate) fn next(&self) -> Option<Sym>
        ensures { result ≡ spec.kind_of_next (next self.now) }
    {
        match self.ahead {
            Some(token) => Some(token.sym),
            None => None,
        }
    }

    /// The line of the next word.
    pub(crate) fn line(&self) -> Option<u64>
        ensures { result ≡ spec.line_of_next (next self.now) }
    {
        match self.ahead {
            Some(token) => Some(token.line),
            None => None,
        }
    }

    /// Whether the next word is of this kind.
    pub(crate) fn is_at(&self, kind: Sym) -> bool
        ensures { result ≡ spec.is_at kind self.now }
    {
        match self.ahead {
            Some(token) => token.sym == kind,
            None => false,
        }
    }

    /// Whether a literal of this value comes next.
    fn is_at_value(&self, value: u32) -> bool
        ensures { result ≡ is_value value (next self.now) }
    {
        match self.ahead {
            Some(token) => token.sym == Sym::Lit && literal_of(token.text) == i64::from(value),
            None => false,
        }
    }

    /// Whether an identifier with just these bytes comes next.
    fn is_at_name(&self, name: &[u8]) -> bool
        ensures { result ≡ is_name name.now (next self.now) }
    {
        match self.ahead {
            Some(token) => token.sym == Sym::Ident && token.text == name,
            None => false,
        }
    }

    /// Whether a call comes next: a name, and a parenthesis that opens behind it.
    pub(crate) fn is_at_call(&self) -> bool
        ensures { result ≡ begins_call self.now }
    {
        self.is_at(Sym::Ident) && self.words.begin_with(Sym::Open)
    }

    /// How many words are left.
    fn left(&self) -> usize
        ensures { result ≡ length self.now.words }
    {
        match self.ahead {
            Some(_token) => self.words.left() + 1,
            None => 0,
        }
    }

    /// How many operators may still be read.
    pub(crate) fn operators(&self) -> usize
        ensures { result ≡ self.now.room }
    {
        self.operators
    }

    /// Lets so many operators be read from here on.
    pub(crate) fn allow(&mut self, operators: usize)
        ensures { self.new ≡ state operators self.old.words }
    {
        self.operators = operators;
    }

    /// The fault of a next word that doesn't fit.
    pub(crate) fn refuse(&self) -> Halt
        ensures { result ≡ halt.At (fault.Grammar (length self.now.words)) }
    {
        Halt::At(Fault::Grammar(self.left()))
    }

    /// The fault of a next word that passes a limit.
    pub(crate) fn too_deep(&self) -> Halt
        ensures { result ≡ halt.At (fault.TooDeep (length self.now.words)) }
    {
        Halt::At(Fault::TooDeep(self.left()))
    }

    /// The fault of a next word where what begins with a word of this kind may not be nested deeper.
    pub(crate) fn nowhere(&self, kind: Sym) -> Halt
        ensures { result ≡ halt.At (spec.fault_nowhere kind self.now) }
    {
        if self.is_at(kind) {
            self.too_deep()
        } else {
            self.refuse()
        }
    }

    /// The next token, behind which the reader then stands; there has to be one.
    pub(crate) fn advance(&mut self) -> Token<'a>
        requires { 0 < length self.old.words }
        ensures past { spec.GoesPast (word_at result.sym result.text.now result.line)
            self.old self.new }
        ensures form { IsToken result.sym result.text.now }
    {
        match self.ahead {
            Some(token) => {
                self.ahead = self.words.next();
                token
            }
            None => unreachable!(),
        }
    }

    /// The next token, which has to be of this kind. Otherwise nothing is read.
    #[tactic(auto, using(crate::proofs::StepLemmas::token_steps))]
    pub(crate) fn take(&mut self, kind: Sym) -> Result<Token<'a>, Halt>
        ensures reads { IfOk result (λ token. spec.token kind self.old
            ≡ Ok (word_at token.sym token.text.now token.line, self.new)) }
        ensures stops { IfErr result (Stops (spec.token kind self.old)) }
        ensures form { IfOk result (λ token. IsToken kind token.text.now) }
        ensures within { spec.IsWithin self.old self.new }
        ensures shorter { OnOk result (spec.TookWord self.old self.new) }
    {
        if self.is_at(kind) {
            Ok(self.advance())
        } else {
            Err(self.refuse())
        }
    }

    /// Goes past the next word, which has to be of this kind. Otherwise nothing is read.
    #[tactic(auto, using(crate::proofs::StepLemmas::token_steps))]
    pub(crate) fn skip(&mut self, kind: Sym) -> Result<(), Halt>
        ensures reads { OnOk result (spec.IsPast (spec.token kind) self.old self.new) }
        ensures stops { IfErr result (Stops (spec.token kind self.old)) }
        ensures within { spec.IsWithin self.old self.new }
        ensures shorter { OnOk result (spec.TookWord self.old self.new) }
    {
        let _token = self.take(kind)?;
        Ok(())
    }

    /// Goes past the next word, which has to be a literal of this value. Otherwise nothing is read.
    #[tactic(auto, using(crate::proofs::PickLemmas::value_steps))]
    pub(crate) fn skip_value(&mut self, value: u32) -> Result<(), Halt>
        ensures reads { OnOk result (spec.IsPast (parser.token (of_value value)) self.old self.new) }
        ensures stops { IfErr result (Stops (parser.token (of_value value) self.old)) }
        ensures within { spec.IsWithin self.old self.new }
    {
        if !self.is_at_value(value) {
            return Err(self.refuse());
        }
        self.advance();
        Ok(())
    }

    /// Goes past the next word, which has to be an identifier with just these bytes. Otherwise nothing is
    /// read.
    #[tactic(auto, using(crate::proofs::PickLemmas::name_steps))]
    pub(crate) fn skip_name(&mut self, name: &[u8]) -> Result<(), Halt>
        ensures reads { OnOk result
            (spec.IsPast (parser.token (is_written name.now)) self.old self.new) }
        ensures stops { IfErr result (Stops (parser.token (is_written name.now) self.old)) }
        ensures within { spec.IsWithin self.old self.new }
    {
        if !self.is_at_name(name) {
            return Err(self.refuse());
        }
        self.advance();
        Ok(())
    }

    /// The next token as an operator, behind which the reader then stands; there has to be one. Where no
    /// more operators may be read, nothing is.
    pub(crate) fn operator(&mut self) -> Result<Token<'a>, Halt>
        requires { 0 < length self.old.words }
        ensures past { IfOk result (λ token. spec.CountsPast
            (word_at token.sym token.text.now token.line) self.old self.new) }
        ensures full { IfErr result (λ at. (self.old.room ≡ 0)
            × (at ≡ halt.At (fault.TooDeep (length self.old.words)))) }
        ensures within { spec.IsWithin self.old self.new }
        ensures shorter { OnOk result (spec.TookWord self.old self.new) }
    {
        if self.operators == 0 {
            return Err(self.too_deep());
        }
        self.operators -= 1;
        Ok(self.advance())
    }
}
