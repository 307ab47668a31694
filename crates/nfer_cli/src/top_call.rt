//! The top call.

ghost use Rattle.std.specs.Prelude.{◌≡◌, IfSome, Some, ◌↔◌, option_map, Option};
ghost use Rattle.nfer_cli.specs.Words.{Asked, AsksFor, AsksNothing, file_words};
ghost use Rattle.nfer_cli.specs.Messages.{Reports, message};
ghost use Rattle.nfer_cli.specs.Calls.{CarriesOut};
ghost use Rattle.nfer_cli.specs.Evaluating.{EvaluatesWithin};
ghost use Rattle.nfer_cli.specs.inner.Commands.{asked_by, NamesFiles};
ghost use Rattle.nfer_cli.specs.inner.Failures.{concluded};

use crate::checking::check;
use crate::command::Command;
use crate::drilling::run_drill;
use crate::fault::Failure;
use crate::messages::report;
use crate::running::{Session, run_session};
use crate::status::Status;
use crate::words::Words;
use nf_core::Steps;
use nf_io::{Shelf, Sink};
use std::alloc::Global;
use std::sync::ledger::Ledger;

/// Runs the command that the words ask for: it reads from the shelf, writes to `out`, writes the
/// message of any status but `Done` to `err`, and answers the status.
///
/// What it writes and answers is a stated function of the bytes of the files: `Defines` of
/// specs/Answers, by the order of refusals. A fault of the shelf or of `out`, or want of memory, may
/// come before it; then a prefix of the defined text was written. All that is promised of the status,
/// of the shelf and of `out` are the fields of `CarriesOut` of specs/Calls, each of which is a fact with
/// its rule.
pub fn run<F: Shelf, O: Sink, E: Sink, L: Ledger>(
    alloc: Global,
    words: &Words,
    shelf: &mut F,
    out: &mut O,
    err: &mut E,
    steps: &mut Steps<L>,
) -> Status
    // Words that ask for nothing, and only those, are refused as such.
    ensures usage { (result ≡ Status.Usage) ↔ AsksNothing words.now }

    // The status, the files that were read and the text that was written, each with its cause, for the one
    // thing that the words ask for: usage, answer, reads, asks, read_fault, failed, write_fault, written_last,
    // replayed, unread, completes and untouched.
    ensures carries_out { (question : Option Asked) → AsksFor words.now question
        → CarriesOut question result
        (F.tells shelf.old) (F.tells shelf.new) (O.tells out.old) (O.tells out.new) }

    // Where the shelf tells its files, no more expressions are evaluated than the lines of the trace are worth:
    // for each line the work from what was entered before it to what was entered with it. That holds at every
    // end; where no trace is read or made, nothing is evaluated.
    ensures evaluates { (question : Option Asked) → AsksFor words.now question
        → IfSome (F.tells shelf.old).files (λ files.
        EvaluatesWithin question files steps.old steps.new) }

    // Standard error gets the message of the status and nothing else, unless it fails itself: then it
    // took a prefix of it.
    ensures message { (question : Option Asked) → AsksFor words.now question
        → Reports (E.tells err.old) (E.tells err.new) (message (file_words question) result) }
{
    let command = words.command();
    let status = answer(alloc, command, shelf, out, steps);
    report(err, command, &status);
    status
}

// The status with which a command was carried out. Without one the words ask for nothing.
fn answer<F: Shelf, O: Sink, L: Ledger>(
    alloc: Global,
    command: Option<Command<'_>>,
    shelf: &mut F,
    out: &mut O,
    steps: &mut Steps<L>,
) -> Status
    requires { NamesFiles (option_map asked_by command) }
    ensures carries_out { CarriesOut (option_map asked_by command.entry) result
        (F.tells shelf.old) (F.tells shelf.new) (O.tells out.old) (O.tells out.new) }
    ensures evaluates { IfSome (F.tells shelf.old).files (λ files.
        EvaluatesWithin (option_map asked_by command.entry) files steps.old steps.new) }
{
    let Some(command) = command else {
        return Status::Usage;
    };
    match carry_out(alloc, command, shelf, out, steps) {
        Ok(()) => Status::Done,
        Err(failure) => Status::from(failure),
    }
}

// Carries out a command.
fn carry_out<F: Shelf, O: Sink, L: Ledger>(
    alloc: Global,
    command: Command<'_>,
    shelf: &mut F,
    out: &mut O,
    steps: &mut Steps<L>,
) -> Result<(), Failure>
    requires { NamesFiles (Some (asked_by command)) }
    ensures carries_out { CarriesOut (Some (asked_by command.entry)) (concluded result)
        (F.tells shelf.old) (F.tells shelf.new) (O.tells out.old) (O.tells out.new) }
    ensures evaluates { IfSome (F.tells shelf.old).files (λ files.
        EvaluatesWithin (Some (asked_by command.entry)) files steps.old steps.new) }
{
    match command {
        Command::Check { options, files } => check(alloc, options, files, shelf, out),
        Command::Follow { options, files } => {
            run_session(alloc, Session::Follow, options, files, shelf, out, steps)
        }
        Command::Infer {
            options,
            files,
            trace,
        } => run_session(
            alloc,
            Session::Infer { trace },
            options,
            files,
            shelf,
            out,
            steps,
        ),
        Command::Drill { lines } => run_drill(alloc, lines, out, steps),
    }
}
