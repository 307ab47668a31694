//! What the bytes of words stand for.

ghost use Rattle.std.specs.Prelude.{◌≡◌, pos, IfOk};
ghost use Rattle.std.specs.Str.Parse.{digits_value};
ghost use Rattle.nf_lex.specs.Faults.{body_of};
ghost use Rattle.nf_parse.specs.declared.symbol.Sym.TheVariants as sym;
ghost use Rattle.nf_parse.specs.inner.Parsers.{IsSound};

use nf_core::{NoMemory, Text};
use std::alloc::Global;
use std::str;

/// The value of a number.
#[tactic(auto, using(crate::proofs::WordByteLemmas::number_utf8, crate::proofs::WordByteLemmas::number_read))]
pub(crate) fn number_of(word: &[u8]) -> i64
    requires { IsSound sym.Number word.now }
    ensures { result ≡ pos (digits_value 10 word.now) }
{
    match str::from_utf8(word) {
        Ok(digits) => match digits.parse::<i64>() {
            Ok(number) => number,
            Err(_) => unreachable!(),
        },
        Err(_) => unreachable!(),
    }
}

/// What stands between the `"` of a text.
#[tactic(auto, using(crate::proofs::WordByteLemmas::text_long, crate::proofs::WordByteLemmas::text_utf8))]
pub(crate) fn text_of(alloc: Global, word: &[u8]) -> Result<Text, NoMemory>
    requires { IsSound sym.Text word.now }
    ensures { IfOk result (λ text. text ≡ body_of word.now) }
{
    match str::from_utf8(&word[1..word.len() - 1]) {
        Ok(text) => Text::new(alloc, text),
        Err(_) => unreachable!(),
    }
}

/// An identifier as a text.
#[tactic(auto, using(crate::proofs::WordByteLemmas::ident_utf8))]
pub(crate) fn name_of(alloc: Global, word: &[u8]) -> Result<Text, NoMemory>
    requires { IsSound sym.Ident word.now }
    ensures { IfOk result (λ text. text ≡ word.now) }
{
    match str::from_utf8(word) {
        Ok(text) => Text::new(alloc, text),
        Err(_) => unreachable!(),
    }
}
