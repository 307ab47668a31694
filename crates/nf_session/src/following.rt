//! Following the trace that is read from a shelf.

ghost use Rattle.std.specs.Prelude.{◌≡◌, ◌≤◌, ◌+◌, List, ℕ, Some, IsTrue};
ghost use Rattle.nf_model.specs.Changes.{no_inputs};
ghost use Rattle.nf_line.specs.Trace.{trace};
ghost use Rattle.nf_session.specs.Costs.{work_of};
ghost use Rattle.nf_session.specs.Sessions.{Ends, HasCauses, followed};

use crate::fault::SessionEnd;
use crate::session::{Announcing, run_session};
use nf_core::{Plan, Steps};
use nf_io::{Shelf, Sink};
use nf_model::Inferer;
use std::alloc::Global;
use std::sync::ledger::Ledger;

/// Follows the file that the shelf has picked, under a plan and an inferer of it without inputs: reads it in
/// pieces of at most 65,536 bytes to its end, and writes the announcements of all lines that ended before the next
/// piece is read. What it writes is `followed` of specs/Sessions, and how it ends is `Ends` there.
///
/// A refusal comes exactly where a line of the trace is refused, or where 2^63 - 1 bytes of it were read
/// (`TraceFault::TooLong`); no read is made after it is known. A read fault comes only where the shelf failed in
/// this call, at its last call, and leaves the announcements of the lines that ended in the bytes read; a write
/// fault comes only where the output failed in this call; want of memory leaves the announcements of whole lines.
///
/// With a thrifty inferer the counter of evaluated expressions rises by at most the work of the trace (`work_of` of
/// specs/Costs), on every answer.
pub fn follow<I: Inferer + Drop, F: Shelf, O: Sink, L: Ledger>(
    alloc: Global,
    plan: Plan,
    inferer: I,
    shelf: &mut F,
    out: &mut O,
    steps: &mut Steps<L>,
) -> Result<(), SessionEnd>
    requires { I.content inferer ≡ no_inputs plan (I.content inferer).full }
    ensures ends { (bytes : List ℕ) → (F.tells shelf.old).rest ≡ Some bytes
        → Ends (followed plan (I.content inferer).full bytes) bytes result
        (F.tells shelf.new).rest (O.tells out.old).taken (O.tells out.new).taken }
    ensures work { IsTrue (I.is_thrifty inferer)
        → (bytes : List ℕ) → (F.tells shelf.old).rest ≡ Some bytes → steps.new
        ≤ steps.old + work_of plan (I.content inferer).full (trace bytes).events }
    ensures causes { HasCauses result
        (F.tells shelf.old) (F.tells shelf.new) (O.tells out.old) (O.tells out.new) }
{
    run_session(
        alloc,
        plan,
        inferer,
        Announcing::EachLine,
        shelf,
        out,
        steps,
    )?;
    Ok(())
}
