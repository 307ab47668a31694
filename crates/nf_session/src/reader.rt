//! Reading a trace that comes in pieces up to the next event that is to be entered.

ghost use Rattle.std.specs.Prelude.{◌≡◌, ◌≢◌, ◌+◌, ◌≤◌, ◌<◌, ◌^◌, [], false, drop, length, IfOk, IfErr, IfSome};
ghost use Rattle.nf_line.specs.Cutting.{used_of};
ghost use Rattle.nf_model.specs.Changes.{Content};
ghost use Rattle.nf_session.specs.Followers.{NeedsNoMemory};
ghost use Rattle.nf_session.specs.inner.Progress.{standing_of, last_read, more_read, IsQuiet, Takes, TakesLast};
ghost use Rattle.nf_session.specs.inner.Events.{after_event, change_made, following, FitsPlan, StopsAt};

use crate::entering::judge_line;
use crate::fault::Halt;
use crate::reading::Place;
use nf_core::{Named, Plan};
use nf_line::{CutFault, Liner, TraceFault};
use std::alloc::Global;

/// The reader of a trace: what is kept of a line that hasn't ended, and where it stands.
#[derive(Drop)]
pub(crate) struct Reader {
    pub(crate) liner: Liner,
    pub(crate) place: Place,
}

/// What reading on gave: how many bytes were taken, and the event that is to be entered, where there is one.
#[derive(Drop)]
pub(crate) struct Step {
    pub(crate) used: usize,
    pub(crate) event: Option<Named>,
}

impl Reader {
    /// Takes lines up to the first one with an event that the plan has, or all of the piece.
    pub(crate) fn next_event(
        &mut self,
        alloc: Global,
        plan: &Plan,
        piece: &[u8],
    ) -> Result<Step, Halt>
        requires counted { self.old.place.lines + length piece.now < 2 ^ 64 }
        requires open { self.old.liner.was_long ≡ false }
        ensures some { piece.now ≢ [] → IfOk result (λ r. 0 < r.used) }
        ensures within { IfOk result (λ r. r.used ≤ length piece.now) }
        ensures counted { IfOk result (λ r. self.new.place.lines + length (drop r.used piece.now)
            ≤ self.old.place.lines + length piece.now) }
        ensures open { IfOk result (λ r. self.new.liner.was_long ≡ false) }
        ensures takes { (content : Content) → content.plan ≡ plan.now → IfOk result (λ r.
            Takes (following content self.old) piece.now
            (following (after_event content r.event) self.new)
            (drop r.used piece.now) (change_made content r.event)) }
        ensures fits { IfOk result (λ r. IfSome r.event (FitsPlan plan.now)) }
        ensures halts { (content : Content) → content.plan ≡ plan.now → IfErr result (λ halt.
            StopsAt halt content (more_read (standing_of (following content self.old)) piece.now)) }
        ensures quiet { (content : Content) → content.plan ≡ plan.now
            → NeedsNoMemory (following content self.old) piece.now → IsQuiet (λ r. r.event) result }
        ensures still_needs_none { (content : Content) → content.plan ≡ plan.now
            → NeedsNoMemory (following content self.old) piece.now → IfOk result (λ r.
            NeedsNoMemory (following content self.new) (drop r.used piece.now)) }
        ensures never_too_long { result ≢ Err (Halt.Refused TraceFault.TooLong) }
    {
        let mut used = 0;
        'lines: while used < piece.len() {
            let step = self.next_line(alloc, plan, &piece[used..])?;
            used += step.used;
            if step.event.is_some() {
                return Ok(Step {
                    used,
                    event: step.event,
                });
            }
        }
        Ok(Step { used, event: None })
    }

    // Takes the bytes up to the first LF and with it, or all, and reads the line that they end.
    fn next_line(&mut self, alloc: Global, plan: &Plan, piece: &[u8]) -> Result<Step, Halt>
        requires counted { self.old.place.lines + 1 < 2 ^ 64 }
        requires open { self.old.liner.was_long ≡ false }
        ensures used { IfOk result (λ r. r.used ≡ used_of piece.now) }
        ensures within { IfOk result (λ r. r.used ≤ length piece.now) }
        ensures counted { IfOk result (λ r. self.new.place.lines ≤ self.old.place.lines + 1) }
        ensures open { IfOk result (λ r. self.new.liner.was_long ≡ false) }
        ensures takes { (content : Content) → content.plan ≡ plan.now → IfOk result (λ r.
            Takes (following content self.old) piece.now
            (following (after_event content r.event) self.new)
            (drop (used_of piece.now) piece.now) (change_made content r.event)) }
        ensures fits { IfOk result (λ r. IfSome r.event (FitsPlan plan.now)) }
        ensures halts { (content : Content) → IfErr result (λ halt.
            StopsAt halt content (more_read (standing_of (following content self.old)) piece.now)) }
        ensures quiet { (content : Content) → content.plan ≡ plan.now
            → NeedsNoMemory (following content self.old) piece.now → piece.now ≢ []
            → IsQuiet (λ r. r.event) result }
        ensures still_needs_none { (content : Content) → content.plan ≡ plan.now
            → NeedsNoMemory (following content self.old) piece.now → piece.now ≢ []
            → IfOk result (λ r.
            NeedsNoMemory (following content self.new) (drop (used_of piece.now) piece.now)) }
        ensures never_too_long { result ≢ Err (Halt.Refused TraceFault.TooLong) }
    {
        match self.liner.next_line(piece) {
            Err(CutFault::Long) => Err(Halt::Refused(TraceFault::Long(self.place.lines + 1))),
            Err(CutFault::NoMemory) => Err(Halt::NoMemory),
            Ok(taken) => {
                let used = taken.used;
                match taken.line {
                    None => Ok(Step { used, event: None }),
                    Some(line) => {
                        let judged = judge_line(alloc, plan, self.place, line)?;
                        self.place = judged.place;
                        Ok(Step {
                            used,
                            event: judged.event,
                        })
                    }
                }
            }
        }
    }

    /// Takes what is kept as the last line of the trace, where anything is kept, and answers its event, where
    /// the plan has it.
    pub(crate) fn last_event(&mut self, alloc: Global, plan: &Plan) -> Result<Option<Named>, Halt>
        requires open { self.old.liner.was_long ≡ false }
        ensures open { IfOk result (λ r. self.new.liner.was_long ≡ false) }
        ensures takes { (content : Content) → content.plan ≡ plan.now
            → self.old.place.lines + 1 < 2 ^ 64 → IfOk result (λ event.
            TakesLast (following content self.old)
            (following (after_event content event) self.new) (change_made content event)) }
        ensures fits { IfOk result (λ event. IfSome event (FitsPlan plan.now)) }
        ensures halts { (content : Content) → self.old.place.lines + 1 < 2 ^ 64 → IfErr result (λ halt.
            StopsAt halt content (last_read (standing_of (following content self.old)))) }
        ensures never_too_long { result ≢ Err (Halt.Refused TraceFault.TooLong) }
    {
        match self.liner.last() {
            None => Ok(None),
            Some(line) => {
                let judged = judge_line(alloc, plan, self.place.countable(), line)?;
                self.place = judged.place;
                Ok(judged.event)
            }
        }
    }
}
