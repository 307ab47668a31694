//! The cells of a row.

ghost use Rattle.std.specs.Prelude.{◌≡◌, IfOk, All, bytes_eq, reverse};
ghost use Rattle.std.specs.Option.{option_copied};
ghost use Rattle.std.specs.Map.{lookup};
ghost use Rattle.nf_core.specs.Rows.{IsPlainValue};
ghost use Rattle.nf_core.specs.Texts.{IsPlainByte};
ghost use Rattle.nf_text.specs.Value.{spelling_of};
ghost use Rattle.nf_line.specs.Line.{value_of};

use crate::pairs::Pairs;
use nf_core::{NoMemory, Text, Value};
use nf_text::{Read, read_value, spellings_are_apart};
use std::alloc::Global;

/// The value of the last pair with a key, as it is written.
#[tactic(auto, using(crate::proofs::LastPairLemmas::last_looked_up))]
pub(crate) fn last_value<'a>(pairs: Pairs<'a>, key: &str) -> Option<&'a str>
    ensures { option_copied result ≡ lookup (bytes_eq key.now) (reverse pairs.entry) }
{
    let mut last = None;
    for (written, value) in pairs {
        if key == written {
            last = Some(value);
        }
    }
    last
}

/// The value that a text spells. It is plain, since no byte of the text is `|`, `;`, CR or LF.
pub(crate) fn value(alloc: Global, text: &str) -> Result<Value, NoMemory>
    requires { All IsPlainByte text.now }
    ensures plain { IfOk result IsPlainValue }
    ensures value { IfOk result (λ value. value ≡ value_of (spelling_of text.now)) }
{
    spellings_are_apart();
    match read_value(text) {
        Read::Bool(truth) => Ok(Value::Bool(truth)),
        Read::Int(number) => Ok(Value::Int(number)),
        Read::Text(text) => Ok(Value::Text(Text::new(alloc, text)?)),
    }
}
