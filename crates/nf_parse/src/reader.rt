//! The reader of tokens.

ghost use Rattle.std.specs.Prelude.{◌≡◌, ◌+◌, ◌<◌, length, IfOk, IfErr, OnOk, Ok, Some, All};
ghost use Rattle.nf_parse.specs.declared.symbol.Sym.{Sym};
ghost use Rattle.nf_lex.specs.Layout.{IsTokenOf};
ghost use Rattle.nf_grammar.specs.declared.fault.Halt.TheVariants as halt;
ghost use Rattle.nf_grammar.specs.declared.fault.Fault.TheVariants as fault;
ghost use Rattle.nf_grammar.specs.State.{state, next};
ghost use Rattle.nf_grammar.specs.inner.Parsers.{behind, tail_of, Stops};
ghost use Rattle.nf_parse.specs.State.{words_of, kind_of_next};
ghost use Rattle.nf_parse.specs.inner.Parsers as spec;

use crate::symbol::Sym;
use crate::token_symbols::first_sym;
use nf_grammar::{Fault, Halt};
use nf_lex::Token;
use nf_text::slice;
use std::marker::Model;

/// Where a reading of tokens stands: the tokens of the source that are left, what the next one is, and
/// how many operators the expression there may still have. Contracts see the words that are left and
/// that number.
#[derive(Drop)]
pub(crate) struct Reader<'a> {
    source: &'a [u8],
    tokens: &'a [Token],
    ahead: Option<Sym>,
    operators: usize,
}

impl<'a> Model for Reader<'a> {
    ghost use Rattle.nf_grammar.specs.State.{state};
    ghost use Rattle.nf_parse.specs.State.{State, words_of};
    ghost use Rattle.nf_parse.specs.inner.Parsers.{StandsBefore};

    ghost Value = { State };

    ghost view = { λ r. state r.operators (words_of r.source.now r.tokens.now) };

    ghost invariant = { λ r. StandsBefore r.source.now r.tokens.now r.ahead };
}

impl<'a> Reader<'a> {
    /// A reader before tokens of the source, which may read so many operators in an expression.
    pub(crate) fn new(source: &'a [u8], tokens: &'a [Token], operators: usize) -> Reader<'a>
        requires { All (IsTokenOf source.now) tokens.now }
        ensures { result ≡ state operators (words_of source.now tokens.now) }
    {
        Reader {
            source,
            tokens,
            ahead: first_sym(source, tokens),
            operators,
        }
    }

    /// What the next word is.
    pub(crate) fn next(&self) -> Option<Sym>
        ensures { result ≡ kind_of_next (next self.now) }
    {
        self.ahead
    }

    /// Whether the next word is of this kind.
    pub(crate) fn is_at(&self, kind: Sym) -> bool
        ensures { result ≡ spec.is_at kind self.now }
    {
        match self.ahead {
            Some(found) => found == kind,
            None => false,
        }
    }

    /// How many operators may still be read.
    pub(crate) fn operators(&self) -> usize
        ensures { result ≡ self.now.room }
    {
        self.operators
    }

    /// Lets so many operators be read from here on.
    pub(crate) fn allow(&mut self, operators: usize)
        ensures { self.new ≡ state operators self.old.words }
    {
        self.operators = operators;
    }

    /// The fault of a next word that doesn't fit.
    pub(crate) fn refuse(&self) -> Halt
        ensures { result ≡ halt.At (fault.Grammar (length self.now.words)) }
    {
        Halt::At(Fault::Grammar(self.tokens.len()))
    }

    /// The fault of a next word that passes a limit.
    pub(crate) fn too_deep(&self) -> Halt
        ensures { result ≡ halt.At (fault.TooDeep (length self.now.words)) }
    {
        Halt::At(Fault::TooDeep(self.tokens.len()))
    }

    /// The bytes of the next word, behind which the reader then stands; there has to be one.
    pub(crate) fn advance(&mut self) -> &'a [u8]
        requires { 0 < length self.old.words }
        ensures bytes { result.now ≡ spec.bytes_of self.old.words }
        ensures behind { self.new ≡ behind self.old }
        ensures sound { (k : Sym) → kind_of_next (next self.old) ≡ Some k
            → spec.IsSound k result.now }
    {
        match self.tokens {
            [] => unreachable!(),
            [first, rest @ ..] => {
                self.tokens = rest;
                self.ahead = first_sym(self.source, rest);
                slice(self.source, first.span)
            }
        }
    }

    /// The bytes of the next word, which has to be of this kind. Otherwise nothing is read.
    #[tactic(auto, using(crate::proofs::StepLemmas::token_steps))]
    pub(crate) fn take(&mut self, kind: Sym) -> Result<&'a [u8], Halt>
        ensures reads { IfOk result (λ bytes. spec.token kind self.old ≡ Ok (bytes.now, self.new)) }
        ensures stops { IfErr result (Stops (spec.token kind self.old)) }
        ensures sound { IfOk result (λ bytes. spec.IsSound kind bytes.now) }
        ensures within { spec.IsWithin self.old self.new }
        ensures shorter { OnOk result (spec.TookWord self.old self.new) }
    {
        if self.is_at(kind) {
            Ok(self.advance())
        } else {
            Err(self.refuse())
        }
    }

    /// Goes past the next word, which has to be of this kind. Otherwise nothing is read.
    #[tactic(auto, using(crate::proofs::StepLemmas::token_steps))]
    pub(crate) fn skip(&mut self, kind: Sym) -> Result<(), Halt>
        ensures reads { OnOk result (spec.GoesPast (spec.token kind) self.old self.new) }
        ensures stops { IfErr result (Stops (spec.token kind self.old)) }
        ensures within { spec.IsWithin self.old self.new }
        ensures shorter { OnOk result (spec.TookWord self.old self.new) }
    {
        if self.is_at(kind) {
            self.advance();
            Ok(())
        } else {
            Err(self.refuse())
        }
    }

    /// Goes past the next word as an operator; there has to be one. Where no more may be read, nothing is.
    pub(crate) fn operator(&mut self) -> Result<(), Halt>
        requires { 0 < length self.old.words }
        ensures past { OnOk result (self.old.room ≡ 1 + self.new.room) }
        ensures words { OnOk result (self.new.words ≡ tail_of self.old.words) }
        ensures full { IfErr result (λ at. (self.old.room ≡ 0)
            × (at ≡ halt.At (fault.TooDeep (length self.old.words)))) }
        ensures within { spec.IsWithin self.old self.new }
        ensures shorter { OnOk result (spec.TookWord self.old self.new) }
    {
        if self.operators == 0 {
            return Err(self.too_deep());
        }
        self.operators -= 1;
        self.advance();
        Ok(())
    }
}
