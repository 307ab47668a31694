//! Running a session over a trace.

ghost use Rattle.std.specs.Prelude.{◌≡◌, ◌<◌, ◌^◌, IfSome, Some, length};
ghost use Rattle.nf_core.specs.Plan.{IsPlan};
ghost use Rattle.nfer_cli.specs.Calls.{CarriesOut};
ghost use Rattle.nfer_cli.specs.Evaluating.{EvaluatesWithin};
ghost use Rattle.nfer_cli.specs.inner.Failures.{concluded};
ghost use Rattle.nfer_cli.specs.inner.Options.{given_by};
ghost use Rattle.nfer_cli.specs.inner.Running.{KeepsToLines, Runs, session_asks, trace_by};

use crate::command::TRACE_WORD;
use crate::fault::Failure;
use crate::options::CommandOptions;
use crate::specified::read_specification;
use nf_core::{Plan, Steps, Text};
use nf_engine::Engine;
use nf_io::{Failed, Shelf, Sink};
use nf_session::{SessionEnd, follow, infer, replay_is_what_is_shown};
use nf_spec::{Compiled, every_specification_has_one_answer};
use std::alloc::Global;
use std::sync::ledger::Ledger;

/// A session over a trace.
#[derive(Debug, Clone, Copy)]
pub(crate) enum Session<'a> {
    /// Announces the changes of each line of standard input.
    Follow,
    /// Prints what is held at the end of the trace of this name.
    Infer { trace: &'a str },
}

impl<'a> Session<'a> {
    // The word of the trace.
    fn trace(self) -> &'a str
        ensures { result.now ≡ trace_by self.entry }
    {
        match self {
            Session::Follow => TRACE_WORD,
            Session::Infer { trace } => trace,
        }
    }
}

/// Runs a session over its trace, under the specification in some files. The trace is picked once the
/// specification is accepted.
pub(crate) fn run_session<F: Shelf, O: Sink, L: Ledger>(
    alloc: Global,
    session: Session<'_>,
    options: CommandOptions<'_>,
    files: &[Text],
    shelf: &mut F,
    out: &mut O,
    steps: &mut Steps<L>,
) -> Result<(), Failure>
    requires some { 0 < length files.now }
    requires few { length files.now < 2 ^ 32 }
    ensures carries_out { CarriesOut
        (Some (session_asks session.entry (given_by options.entry) files.now)) (concluded result)
        (F.tells shelf.old) (F.tells shelf.new) (O.tells out.old) (O.tells out.new) }
    ensures evaluates { IfSome (F.tells shelf.old).files (λ told. EvaluatesWithin
        (Some (session_asks session.entry (given_by options.entry) files.now))
        told steps.old steps.new) }
{
    every_specification_has_one_answer();
    replay_is_what_is_shown();
    let Compiled {
        plan,
        rules: _,
        levels: _,
    } = read_specification(alloc, shelf, files, options.root)?;
    let place = files.len();
    run_under(alloc, session, plan, options.full, shelf, out, steps).map_err(
        |end| Failure::of_session(end, place),
    )
}

// Picks the trace of a session and runs it under a plan, with every candidate held where `full` holds.
fn run_under<F: Shelf, O: Sink, L: Ledger>(
    alloc: Global,
    session: Session<'_>,
    plan: Plan,
    full: bool,
    shelf: &mut F,
    out: &mut O,
    steps: &mut Steps<L>,
) -> Result<(), SessionEnd>
    ensures valid { IsPlan plan }
    ensures runs { Runs session.entry plan full result
        (F.tells shelf.old) (F.tells shelf.new) (O.tells out.old) (O.tells out.new) }
    ensures work { IfSome (F.tells shelf.old).files
        (KeepsToLines session.entry plan full steps.old steps.new) }
{
    let engine = Engine::new(alloc, &plan, full)?;
    match shelf.pick(session.trace()) {
        Ok(()) => {}
        Err(Failed) => return Err(SessionEnd::ReadFault),
    }
    match session {
        Session::Follow => follow(alloc, plan, engine, shelf, out, steps),
        Session::Infer { .. } => infer(alloc, plan, engine, shelf, out, steps),
    }
}
