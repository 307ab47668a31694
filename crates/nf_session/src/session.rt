//! A session over the whole trace that is read from a shelf.

ghost use Rattle.std.specs.Prelude.{◌≡◌, ◌≢◌, ◌+◌, ◌<◌, ◌≤◌, ◌^◌, ℕ, Bool, IsTrue, List, IfOk, length, Some};
ghost use Rattle.nf_core.specs.Plan.{Plan as PlanOf};
ghost use Rattle.nf_io.specs.Causes.{Rose};
ghost use Rattle.nf_line.specs.Trace.{trace, trace_limit};
ghost use Rattle.nf_model.specs.Changes.{no_inputs};
ghost use Rattle.nf_session.specs.Costs.{work_of, FeedsWithinWork, FinishesWithinWork};
ghost use Rattle.nf_session.specs.Followers.{StandsFor};
ghost use Rattle.nf_session.specs.Sessions.{Ends, HasCauses};
ghost use Rattle.nf_session.specs.inner.Announcing.{StandsBehindAll, HandlesLast, HandlesPiece, written_by};

use crate::fault::{FollowEnd, SessionEnd};
use crate::follower::Follow;
use crate::pieces::{new_buffer, read_piece};
use nf_core::{Plan, Steps};
use nf_io::{Shelf, Sink};
use nf_line::{TRACE_LIMIT, TraceFault, what_is_known_of_a_trace_stays};
use nf_model::Inferer;
use std::alloc::Global;
use std::sync::ledger::Ledger;

// What is written while a trace is read: the announcements of each line, or nothing.
#[derive(Clone, Copy)]
pub(crate) enum Announcing {
    EachLine,
    Nothing,
}

// Reads the file that the shelf has picked in pieces to its end, and has each handled before the next one is read.
// Answers a follower at the end of the trace.
pub(crate) fn run_session<I: Inferer + Drop, F: Shelf, O: Sink, L: Ledger>(
    alloc: Global,
    plan: Plan,
    inferer: I,
    announcing: Announcing,
    shelf: &mut F,
    out: &mut O,
    steps: &mut Steps<L>,
) -> Result<Follow<I>, SessionEnd>
    requires { I.content inferer ≡ no_inputs plan (I.content inferer).full }
    ensures ends { (bytes : List ℕ) → (F.tells shelf.old).rest ≡ Some bytes
        → Ends (written_by announcing plan (I.content inferer).full bytes) bytes result
        (F.tells shelf.new).rest (O.tells out.old).taken (O.tells out.new).taken }
    ensures stands { (bytes : List ℕ) → (F.tells shelf.old).rest ≡ Some bytes
        → IfOk result (StandsBehindAll plan (I.content inferer).full bytes (F.tells shelf.new).rest) }
    ensures work { IsTrue (I.is_thrifty inferer)
        → (bytes : List ℕ) → (F.tells shelf.old).rest ≡ Some bytes → steps.new
        ≤ steps.old + work_of plan (I.content inferer).full (trace bytes).events }
    ensures silent { announcing ≡ Announcing.Nothing → result ≢ Err SessionEnd.WriteFault }
    ensures causes { HasCauses result
        (F.tells shelf.old) (F.tells shelf.new) (O.tells out.old) (O.tells out.new) }
{
    what_is_known_of_a_trace_stays();
    let mut buffer = new_buffer(alloc)?;
    let mut follower = Follow::new(alloc, plan, inferer);
    let mut read = 0;
    'pieces: while read < TRACE_LIMIT {
        let count = read_piece(shelf, buffer.as_mut_slice(), TRACE_LIMIT - read)?;
        if count == 0 {
            return Ok(handle_last(alloc, follower, announcing, out, steps)?);
        }
        follower = handle_piece(alloc, follower, &buffer[..count], announcing, out, steps)?;
        read += count;
    }
    Err(SessionEnd::Trace(TraceFault::TooLong))
}

// Has the lines handled that end in a piece.
fn handle_piece<I: Inferer + Drop, O: Sink, L: Ledger>(
    alloc: Global,
    follower: Follow<I>,
    piece: &[u8],
    announcing: Announcing,
    out: &mut O,
    steps: &mut Steps<L>,
) -> Result<Follow<I>, FollowEnd>
    requires counted { follower.lines + length piece.now < 2 ^ 63 }
    ensures handles { (plan : PlanOf) (full : Bool) (bytes : List ℕ)
        → length bytes + length piece.now ≤ trace_limit → StandsFor plan full bytes follower
        → HandlesPiece announcing plan full bytes piece.now result
        (O.tells out.old).taken (O.tells out.new).taken }
    ensures thrifty { IfOk result (λ next. next.thrifty ≡ follower.thrifty) }
    ensures work { FeedsWithinWork follower piece.now steps.old steps.new }
    ensures never_too_long { result ≢ Err (FollowEnd.Trace TraceFault.TooLong) }
    ensures silent { announcing ≡ Announcing.Nothing → result ≢ Err FollowEnd.WriteFault }
    ensures cause { result ≡ Err FollowEnd.WriteFault
        → Rose (O.tells out.old).faults (O.tells out.new).faults }
    ensures never_falls { (O.tells out.old).faults ≤ (O.tells out.new).faults }
{
    match announcing {
        Announcing::EachLine => follower.feed(alloc, piece, out, steps),
        Announcing::Nothing => follower.enter(alloc, piece, steps),
    }
}

// Has what is kept handled as the last line of a trace.
fn handle_last<I: Inferer + Drop, O: Sink, L: Ledger>(
    alloc: Global,
    follower: Follow<I>,
    announcing: Announcing,
    out: &mut O,
    steps: &mut Steps<L>,
) -> Result<Follow<I>, FollowEnd>
    ensures handles { (plan : PlanOf) (full : Bool) (bytes : List ℕ)
        → length bytes < trace_limit → StandsFor plan full bytes follower
        → HandlesLast announcing plan full bytes result
        (O.tells out.old).taken (O.tells out.new).taken }
    ensures work { FinishesWithinWork follower steps.old steps.new }
    ensures never_too_long { result ≢ Err (FollowEnd.Trace TraceFault.TooLong) }
    ensures silent { announcing ≡ Announcing.Nothing → result ≢ Err FollowEnd.WriteFault }
    ensures cause { result ≡ Err FollowEnd.WriteFault
        → Rose (O.tells out.old).faults (O.tells out.new).faults }
    ensures never_falls { (O.tells out.old).faults ≤ (O.tells out.new).faults }
{
    match announcing {
        Announcing::EachLine => follower.finish(alloc, out, steps),
        Announcing::Nothing => follower.enter_last(alloc, steps),
    }
}
