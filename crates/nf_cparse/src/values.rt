//! What the bytes of tokens stand for.

ghost use Rattle.std.specs.Prelude.{◌≡◌, pos, IfOk};
ghost use Rattle.nf_cparse.specs.declared.symbol.Sym.TheVariants as sym;
ghost use Rattle.nf_cparse.specs.inner.Tokens.{IsToken};
ghost use Rattle.nf_cparse.specs.Grammar.{literal_value};

use crate::literals::digits_of;
use nf_core::{NoMemory, Text};
use std::alloc::Global;
use std::str;

/// The value of a literal.
#[tactic(auto, using(crate::proofs::LiteralLemmas::digits_utf8, crate::proofs::ValueLemmas::value_read))]
pub(crate) fn literal_of(text: &[u8]) -> i64
    requires { IsToken sym.Lit text.now }
    ensures { result ≡ pos (literal_value text.now) }
{
    match str::from_utf8(digits_of(text)) {
        Ok(digits) => match digits.parse::<i64>() {
            Ok(number) => number,
            Err(_) => unreachable!(),
        },
        Err(_) => unreachable!(),
    }
}

/// An identifier as a text.
#[tactic(auto, using(crate::proofs::ValueLemmas::name_utf8))]
pub(crate) fn name_of(alloc: Global, text: &[u8]) -> Result<Text, NoMemory>
    requires { IsToken sym.Ident text.now }
    ensures { IfOk result (λ name. name ≡ text.now) }
{
    match str::from_utf8(text) {
        Ok(name) => Text::new(alloc, name),
        Err(_) => unreachable!(),
    }
}
