//! A follower that is fed pieces of a trace, and sessions over a whole one, with the slow evaluator.

ghost use Rattle.std.specs.Prelude.{◌≡◌, IfOk, []};
ghost use Rattle.nf_session.specs.Followers.{StandsFor};

use crate::events::held_shown;
use crate::given::Given;
use crate::outside::{Kept, kept_shown};
use crate::stopped::{FORM, Stopped};
use nf_core::{Plan, Steps, TryCopy};
use nf_io::{CallList, MemShelf, MemSink, Shelf, Sink};
use nf_line::limits_in_figures;
use nf_model::{Inferer, Scratch};
use nf_session::{Follow, FollowEnd, SessionEnd, follow, infer};
use std::alloc::Global;
use std::fmt;
use std::marker::Brand;
use std::sync::ledger::{Blank, Ledger};

// The most bytes that a follower is fed.
const MOST_FED: usize = 1_048_576;

/// What is run over an output.
#[derive(Debug, Clone, Copy)]
pub enum Job<'a> {
    /// A follower is fed pieces, between which ` & ` stands; then the held intervals of a name are shown, where
    /// it isn't empty.
    Feed { held: &'a str },
    /// The same with `finish` behind the last piece, and without held intervals.
    Finish,
    /// A session, `follow` or `infer`, over the file with a name.
    Session,
}

// A job and its row.
#[derive(Debug, Clone, Copy)]
struct Asked<'a> {
    job: Job<'a>,
    row: &'a str,
}

/// How a job over a row ends, and what its output took.
pub fn job_answer(
    alloc: Global,
    given: &Given<'_>,
    job: Job<'_>,
    row: &str,
) -> Result<String, Stopped> {
    counted::<Brand>(alloc, given, Asked { job, row }, Blank::new(1))
}

// The same, with the ledger of the counter.
fn counted<L: Ledger>(
    alloc: Global,
    given: &Given<'_>,
    asked: Asked<'_>,
    blank: Blank,
) -> Result<String, Stopped>
    requires name { blank.name ≡ L.name }
    requires parts { blank.parts ≡ L.parts }
    requires one { L.parts ≡ 1 }
{
    let mut steps = Steps::<L>::new(blank);
    over(alloc, given, asked, &mut steps)
}

// The same, with the counter.
fn over<L: Ledger>(
    alloc: Global,
    given: &Given<'_>,
    asked: Asked<'_>,
    steps: &mut Steps<L>,
) -> Result<String, Stopped> {
    let mut buffer = vec![in alloc; b'.'; given.room]?;
    let calls = failing_writes(alloc, given, asked.job)?;
    let mut out = MemSink::new(buffer.as_mut_slice(), given.most, calls);
    into(alloc, given, asked, &mut out, steps)
}

// The calls of the output that fail: those that were given, but of a session, whose shelf they are of.
fn failing_writes(alloc: Global, given: &Given<'_>, job: Job<'_>) -> Result<CallList, Stopped> {
    match job {
        Job::Session => Ok(CallList::new(alloc)),
        Job::Feed { .. } | Job::Finish => given.calls(alloc),
    }
}

// The same, with the output.
fn into<O: Kept, L: Ledger>(
    alloc: Global,
    given: &Given<'_>,
    asked: Asked<'_>,
    out: &mut O,
    steps: &mut Steps<L>,
) -> Result<String, Stopped> {
    match asked.job {
        Job::Feed { held } => fed_into(alloc, given, held, asked.row, out, steps),
        Job::Finish => finished_into(alloc, given, asked.row, out, steps),
        Job::Session => session_into(alloc, given, asked.row, out, steps),
    }
}

// Feeds a follower.
fn fed_into<O: Kept, L: Ledger>(
    alloc: Global,
    given: &Given<'_>,
    name: &str,
    row: &str,
    out: &mut O,
    steps: &mut Steps<L>,
) -> Result<String, Stopped> {
    let plan = given.plan(alloc)?;
    let follower = follower_of(alloc, &plan, given.full)?;
    let fed = fed(alloc, &plan, follower, row, out, steps)?;
    let taken = kept_shown(alloc, out.kept())?;
    fed_shown(alloc, &plan, &fed, name, taken.as_str())
}

// How feeding ended, what was taken, and the held intervals of a name.
fn fed_shown<I: Inferer + Drop>(
    alloc: Global,
    plan: &Plan,
    fed: &Result<Follow<I>, FollowEnd>,
    name: &str,
    taken: &str,
) -> Result<String, Stopped>
    requires { IfOk fed.now (λ f. f.content.plan ≡ plan.now) }
{
    match fed {
        Ok(_) if name.is_empty() => Ok(format!(in alloc; "ok {taken}")?),
        Ok(follower) => {
            let held = held_shown(alloc, plan, follower.inferer(), name)?;
            Ok(format!(in alloc; "ok {taken} {held}")?)
        }
        Err(end) => Ok(format!(in alloc; "{end} {taken}")?),
    }
}

// Feeds a follower and finishes it.
fn finished_into<O: Kept, L: Ledger>(
    alloc: Global,
    given: &Given<'_>,
    row: &str,
    out: &mut O,
    steps: &mut Steps<L>,
) -> Result<String, Stopped> {
    let plan = given.plan(alloc)?;
    let follower = follower_of(alloc, &plan, given.full)?;
    let fed = fed(alloc, &plan, follower, row, out, steps)?;
    let finished = finished(alloc, fed, out, steps);
    let taken = kept_shown(alloc, out.kept())?;
    ended_shown(alloc, &finished, taken.as_str())
}

// Finishes a follower, where feeding it left one.
fn finished<I: Inferer + Drop, O: Sink, L: Ledger>(
    alloc: Global,
    fed: Result<Follow<I>, FollowEnd>,
    out: &mut O,
    steps: &mut Steps<L>,
) -> Result<(), FollowEnd> {
    match fed {
        Ok(follower) => match follower.finish(alloc, out, steps) {
            Ok(_) => Ok(()),
            Err(end) => Err(end),
        },
        Err(end) => Err(end),
    }
}

// A follower under a plan that was fed nothing yet.
fn follower_of(alloc: Global, plan: &Plan, full: bool) -> Result<Follow<Scratch>, Stopped>
    ensures { IfOk result (λ f. StandsFor plan.now f.content.full [] f) }
{
    let scratch = Scratch::new(alloc, plan, full)?;
    Ok(Follow::new(alloc, plan.copy(alloc)?, scratch))
}

// Feeds the pieces of a text to a follower that was fed nothing yet.
fn fed<I: Inferer + Drop, O: Sink, L: Ledger>(
    alloc: Global,
    plan: &Plan,
    follower: Follow<I>,
    text: &str,
    out: &mut O,
    steps: &mut Steps<L>,
) -> Result<Result<Follow<I>, FollowEnd>, Stopped>
    requires { StandsFor plan.now follower.content.full [] follower }
    ensures { IfOk result (λ fed. IfOk fed (λ f. f.content.plan ≡ plan.now)) }
{
    limits_in_figures();
    let mut follower = follower;
    let mut count = 0usize;
    'pieces: for piece in text.split(" & ") {
        count = count.saturating_add(piece.len());
        if count > MOST_FED {
            return Err(FORM);
        }
        match follower.feed(alloc, piece.as_bytes(), out, steps) {
            Ok(next) => follower = next,
            Err(end) => return Ok(Err(end)),
        }
    }
    Ok(Ok(follower))
}

// Runs a session.
fn session_into<O: Kept, L: Ledger>(
    alloc: Global,
    given: &Given<'_>,
    row: &str,
    out: &mut O,
    steps: &mut Steps<L>,
) -> Result<String, Stopped> {
    let (word, name) = row.split_once(' ').ok_or(FORM)?;
    let mut shelf = MemShelf::new(given.file_map(alloc)?, given.most, given.calls(alloc)?);
    if shelf.pick(name).is_err() {
        return Ok(String::from_str(alloc, "not picked")?);
    }
    let ended = session_ended(alloc, given, word, &mut shelf, out, steps)?;
    let taken = kept_shown(alloc, out.kept())?;
    ended_shown(alloc, &ended, taken.as_str())
}

// How a session over the picked file ends.
fn session_ended<F: Shelf, O: Sink, L: Ledger>(
    alloc: Global,
    given: &Given<'_>,
    word: &str,
    shelf: &mut F,
    out: &mut O,
    steps: &mut Steps<L>,
) -> Result<Result<(), SessionEnd>, Stopped> {
    let plan = given.plan(alloc)?;
    let scratch = Scratch::new(alloc, &plan, given.full)?;
    match word {
        "follow" => Ok(follow(alloc, plan, scratch, shelf, out, steps)),
        "infer" => Ok(infer(alloc, plan, scratch, shelf, out, steps)),
        _ => Err(FORM),
    }
}

// How a call ended, and what was taken.
fn ended_shown<E: fmt::Display>(
    alloc: Global,
    ended: &Result<(), E>,
    taken: &str,
) -> Result<String, Stopped> {
    match ended {
        Ok(()) => Ok(format!(in alloc; "ok {taken}")?),
        Err(end) => Ok(format!(in alloc; "{end} {taken}")?),
    }
}
