//! The event that a line of a trace is, and writing what entering it changes.

ghost use Rattle.std.specs.Prelude.{◌≡◌, ◌≢◌, ℕ, [], ◌∷◌, ◌+◌, ◌<◌, ◌≤◌, ◌^◌, List, IsTrue, fold, length, position, bytes_eq, false, All, IfOk, IfErr, IfSome, IsOk, OnOk, Some, None};
ghost use Rattle.nf_core.specs.Plan.{keys_of};
ghost use Rattle.nf_core.specs.declared.intervals.Named.{Named};
ghost use Rattle.nf_io.specs.Bytes.{Took};
ghost use Rattle.nf_io.specs.Causes.{Rose};
ghost use Rattle.nf_line.specs.Cutting.{CanBeRead};
ghost use Rattle.nf_line.specs.Line.{Line, line_within, holds_bar};
ghost use Rattle.nf_line.specs.Readings.{event_of};
ghost use Rattle.nf_line.specs.Rows.{interval_of};
ghost use Rattle.nf_line.specs.Trace.{Done, trace_over};
ghost use Rattle.nf_session.specs.Follow.{entered};
ghost use Rattle.nf_model.specs.Changes.{Content};
ghost use Rattle.nf_session.specs.inner.Events.{after_event, change_made, FitsPlan};
ghost use Rattle.nf_session.specs.inner.Spending.{event_work};
ghost use Rattle.nf_session.specs.inner.Progress.{Failed as FailedAt, Handles, HaltsAt, IsForeign, IsQuiet, text_of_change};

use crate::fault::{FollowEnd, Halt};
use crate::reading::{Place, read_line};
use nf_announce::write_change;
use nf_core::{Change, Interval, Named, NoMemory, Plan, Steps};
use nf_io::{Failed, Sink, write_all};
use nf_line::{RawLine, TraceFault};
use nf_model::Inferer;
use std::alloc::Global;
use std::sync::ledger::Ledger;

/// What a line was judged to be: where the reader stands behind it, and the event that is to be entered, where
/// it has one and the plan has its name.
#[derive(Drop)]
pub(crate) struct Judged {
    pub(crate) place: Place,
    pub(crate) event: Option<Named>,
}

/// Reads the next line, without its LF and without one CR before it, and makes its event, where it has one
/// and the plan has its name.
///
/// `Refused` comes exactly where the line is refused. `NoMemory` comes only where the plan has the name of
/// the line's event.
pub(crate) fn judge_line(
    alloc: Global,
    plan: &Plan,
    place: Place,
    line: &[u8],
) -> Result<Judged, Halt>
    requires counted { place.lines + 1 < 2 ^ 64 }
    requires can_be_read { CanBeRead line.now }
    ensures handles { (content : Content) → content.plan ≡ plan.now → IfOk result (λ r.
        Handles (line_within line.now) place content r.place
        (after_event content r.event) (change_made content r.event)) }
    ensures counted { IfOk result (λ r. r.place.lines ≡ place.lines + 1) }
    ensures fits { IfOk result (λ r. IfSome r.event (FitsPlan plan.now)) }
    ensures halts { IfErr result (HaltsAt (place.lines + 1) place.last (line_within line.now)) }
    ensures quiet { (content : Content) (rest : List Line) → content.plan ≡ plan.now
        → All (IsForeign content)
        (trace_over (place.lines + 1) place.last Done (line_within line.now ∷ rest)).events
        → IsQuiet (λ r. r.event) result }
    ensures never_too_long { result ≢ Err (Halt.Refused TraceFault.TooLong) }
{
    match read_line(place, line) {
        Err(fault) => Err(Halt::Refused(fault)),
        Ok(None) => Ok(Judged {
            place: place.past(place.last),
            event: None,
        }),
        Ok(Some(raw)) => {
            let time = raw.time();
            let event = event_of_line(alloc, plan, &raw)?;
            Ok(Judged {
                place: place.past(Some(time)),
                event,
            })
        }
    }
}

/// The event of an accepted line, where the plan has its name. None where the plan doesn't have it; then no
/// memory is taken.
fn event_of_line(alloc: Global, plan: &Plan, raw: &RawLine<'_>) -> Result<Option<Named>, NoMemory>
    requires narrow { holds_bar raw.now.name ≡ false }
    ensures entered { (content : Content) (number : ℕ) → content.plan ≡ plan.now
        → IfOk result (λ event.
        after_event content event ≡ entered content (event_of number raw.now)) }
    ensures fits { IfOk result (λ event. IfSome event (FitsPlan plan.now)) }
    ensures foreign { position (bytes_eq raw.now.name) plan.now.names ≡ None
        → IfOk result (λ event. event ≡ None) }
    ensures needs_no_memory { position (bytes_eq raw.now.name) plan.now.names ≡ None → IsOk result }
{
    match plan.find(raw.name()) {
        None => Ok(None),
        Some(name) => {
            let interval = event_interval(alloc, plan, name, raw)?;
            Ok(Some(Named { name, interval }))
        }
    }
}

/// The interval of an accepted line under a name of the plan.
fn event_interval(
    alloc: Global,
    plan: &Plan,
    name: u32,
    raw: &RawLine<'_>,
) -> Result<Interval, NoMemory>
    requires { name < length plan.now.names }
    ensures { IfOk result (λ interval.
        interval ≡ interval_of (keys_of plan.now name) (event_of 0 raw.now)) }
{
    Ok(Interval {
        start: raw.start(),
        stop: raw.time(),
        row: raw.row(alloc, plan, name)?,
    })
}

/// Enters an event, where there is one, and answers what that changes. None where there is none; then nothing
/// changes, and no memory is taken.
pub(crate) fn enter_event<I: Inferer + Drop, L: Ledger>(
    alloc: Global,
    plan: &Plan,
    inferer: I,
    event: Option<Named>,
    steps: &mut Steps<L>,
) -> Result<(I, Option<Change>), NoMemory>
    requires plan { (I.content inferer).plan ≡ plan.now }
    requires fits { IfSome event (FitsPlan plan.now) }
    ensures entered { IfOk result (λ r. I.content r.0 ≡ after_event (I.content inferer) event) }
    ensures change { IfOk result (λ r. r.1 ≡ change_made (I.content inferer) event) }
    ensures thrifty { IfOk result (λ r. I.is_thrifty r.0 ≡ I.is_thrifty inferer) }
    ensures work { IsTrue (I.is_thrifty inferer)
        → steps.new ≤ steps.old + event_work (I.content inferer) event }
    ensures needs_no_memory { event ≡ None → IsOk result }
{
    match event {
        None => Ok((inferer, None)),
        Some(event) => {
            let (next, change) = inferer.step(alloc, event.name, event.interval, steps)?;
            Ok((next, Some(change)))
        }
    }
}

/// Writes the announcements of a change, where there is one, in one write, once all of them are made.
///
/// A failed write leaves less than the announcements, and want of memory none of them. It never comes where
/// there is no change.
pub(crate) fn announce<O: Sink>(
    alloc: Global,
    plan: &Plan,
    change: Option<Change>,
    out: &mut O,
) -> Result<(), FollowEnd>
    requires gone { IfSome change (λ made.
        All (λ (item : Named). item.name < length plan.now.names) made.gone) }
    requires come { IfSome change (λ made.
        All (λ (item : Named). item.name < length plan.now.names) made.come) }
    ensures taken { OnOk result (Took (O.tells out.old).taken (O.tells out.new).taken
        (text_of_change plan.now change)) }
    ensures failed { IfErr result (λ end. FailedAt end (text_of_change plan.now change)
        (O.tells out.old).taken (O.tells out.new).taken) }
    ensures needs_no_memory { change ≡ None → result ≢ Err FollowEnd.NoMemory }
    ensures cause { result ≡ Err FollowEnd.WriteFault
        → Rose (O.tells out.old).faults (O.tells out.new).faults }
    ensures never_falls { (O.tells out.old).faults ≤ (O.tells out.new).faults }
{
    match change {
        None => Ok(()),
        Some(change) => {
            let lines = write_change(alloc, plan, &change)?;
            match write_all(out, lines.as_slice()) {
                Ok(()) => Ok(()),
                Err(Failed) => Err(FollowEnd::WriteFault),
            }
        }
    }
}
