//! Printing a specification.

ghost use Rattle.std.specs.Prelude.{◌<◌, ◌^◌, Some, All, length};
ghost use Rattle.nf_core.specs.Trees.{IsWritten};
ghost use Rattle.nfer_cli.specs.Answers.{checked};
ghost use Rattle.nfer_cli.specs.Calls.{CarriesOut};
ghost use Rattle.nfer_cli.specs.inner.Ended.{Prints};
ghost use Rattle.nfer_cli.specs.inner.Failures.{concluded};
ghost use Rattle.nfer_cli.specs.Words.{Check};
ghost use Rattle.nfer_cli.specs.inner.Options.{given_by};

use crate::fault::Failure;
use crate::listing::listing;
use crate::options::CommandOptions;
use crate::printing::print_text;
use crate::specified::read_specification;
use nf_core::Text;
use nf_io::{Shelf, Sink};
use nf_spec::{Compiled, every_specification_has_one_answer};
use std::alloc::Global;

/// Prints the specification in some files: the selected rules in canonical form, by the level of the
/// head. Nothing is written before all files are read and the whole text is made.
pub(crate) fn check<F: Shelf, O: Sink>(
    alloc: Global,
    options: CommandOptions<'_>,
    files: &[Text],
    shelf: &mut F,
    out: &mut O,
) -> Result<(), Failure>
    requires some { 0 < length files.now }
    requires few { length files.now < 2 ^ 32 }
    ensures { CarriesOut (Some (Check (given_by options.entry) files.now)) (concluded result)
        (F.tells shelf.old) (F.tells shelf.new) (O.tells out.old) (O.tells out.new) }
{
    every_specification_has_one_answer();
    let made = read_specification(alloc, shelf, files, options.root)?;
    print_rules(alloc, &made, out)
}

// Prints the rules of a specification, once the whole text is made.
fn print_rules<O: Sink>(alloc: Global, made: &Compiled, out: &mut O) -> Result<(), Failure>
    requires { All IsWritten made.now.rules }
    ensures { Prints (checked made.now).output.text result
        (O.tells out.old) (O.tells out.new) }
{
    let lines = listing(alloc, &made.rules, &made.levels)?;
    print_text(out, lines.as_slice())
}
