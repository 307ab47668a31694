//! Printing a whole text.

ghost use Rattle.nfer_cli.specs.inner.Ended.{Prints};

use crate::fault::Failure;
use nf_io::{Failed, Sink, write_all};

/// Writes a text that is made whole before. A write fault comes only where the output failed in this call, and then
/// less than the whole was taken (`Prints` of specs/inner/Ended.antt). Takes no memory.
pub(crate) fn print_text<O: Sink>(out: &mut O, text: &[u8]) -> Result<(), Failure>
    ensures { Prints text.now result (O.tells out.old) (O.tells out.new) }
{
    match write_all(out, text) {
        Ok(()) => Ok(()),
        Err(Failed) => Err(Failure::Write),
    }
}
