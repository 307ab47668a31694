//! Reading and compiling a specification.

ghost use Rattle.std.specs.Prelude.{◌≡◌, ◌<◌, ◌≤◌, ◌^◌, All, length, IfOk, IfErr, OnOk};
ghost use Rattle.std.specs.Option.{option_copied};
ghost use Rattle.nf_core.specs.Trees.{IsWritten};
ghost use Rattle.nfer_cli.specs.inner.Failures.{ends_unread};
ghost use Rattle.nfer_cli.specs.inner.Specified.{Accepts, AsksOne, EndsBehind, SpecificationFails};

use crate::fault::Failure;
use crate::sources::read_sources;
use nf_core::Text;
use nf_io::Shelf;
use nf_spec::{Compiled, compile, every_specification_has_one_answer};
use std::alloc::Global;

/// What the files of a specification, read in turn, are compiled to, under a root or without one
/// (`IsAccepted` of specs/inner/Specified.antt). A refusal comes exactly where the files that were read
/// define no plan, and no read is made after it is known; a failed read comes only where the shelf failed
/// in this call, at its last call, and names the place, counted from 0, of the file
/// (`SpecificationFails` there).
pub(crate) fn read_specification<F: Shelf>(
    alloc: Global,
    shelf: &mut F,
    names: &[Text],
    root: Option<&str>,
) -> Result<Compiled, Failure>
    requires some { 0 < length names.now }
    requires few { length names.now < 2 ^ 32 }
    ensures files { (F.tells shelf.new).files ≡ (F.tells shelf.old).files }
    ensures never_falls { (F.tells shelf.old).faults ≤ (F.tells shelf.new).faults }
    ensures accepted { IfOk result
        (Accepts (F.tells shelf.old) names.now (option_copied root.entry)) }
    ensures written { IfOk result (λ made. All IsWritten made.rules) }
    ensures end { OnOk result (EndsBehind names.now (F.tells shelf.old) (F.tells shelf.new)) }
    ensures fails { IfErr result (λ failure. SpecificationFails names.now
        (option_copied root.entry) failure (F.tells shelf.old) (F.tells shelf.new)) }
    ensures failed { (F.tells shelf.new).failed ≡ ends_unread result }
    ensures asks { AsksOne names.now (F.tells shelf.old) (F.tells shelf.new) }
{
    every_specification_has_one_answer();
    let sources = read_sources(alloc, shelf, names)?;
    Ok(compile(alloc, &sources, root)?)
}
