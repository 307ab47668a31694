//! Following a trace that comes in pieces, line by line.

ghost use Rattle.std.specs.Prelude.{◌≡◌, ◌≢◌, ℕ, Bool, IsTrue, List, [], ◌++◌, ◌+◌, ◌<◌, ◌≤◌, ◌^◌, drop, length, IfOk, OnErr, IfErr, None};
ghost use Rattle.nf_core.specs.Plan.{Plan as PlanOf};
ghost use Rattle.nf_io.specs.Causes.{Rose};
ghost use Rattle.nf_line.specs.Trace.{trace, trace_limit, trace_so_far};
ghost use Rattle.nf_model.specs.Changes.{no_inputs};
ghost use Rattle.nf_session.specs.Costs.{FeedsWithinWork, FinishesWithinWork};
ghost use Rattle.nf_session.specs.Followers.{EndsBy, Feeds, Finishes, NeedsNoMemory, StandsAtEndOf, StandsFor};
ghost use Rattle.nf_session.specs.inner.Progress.{standing_of, last_read, more_read, HasFed, IsQuiet, LeavesChange, Stops, Takes, TakesLast};
ghost use Rattle.nf_session.specs.inner.Events.{StopsAt};
ghost use Rattle.nf_session.specs.inner.Spending.{last_work, work_left};

use crate::entering::{announce, enter_event};
use crate::fault::{FollowEnd, Halt};
use crate::reader::Reader;
use crate::reading::Place;
use nf_core::{Change, Plan, Steps};
use nf_io::Sink;
use nf_line::{Liner, TraceFault, traces_go_on_from_where_they_stand};
use nf_model::Inferer;
use std::alloc::Global;
use std::marker::Model;
use std::sync::ledger::Ledger;

/// A follower of a trace under a plan: an inferer, and where it stands in the trace. Contracts see
/// the inferer's content, how many lines ended so far, the end of the last accepted one, what is
/// kept of a line that hasn't ended, and whether the inferer is thrifty (`Follower` of
/// specs/Followers). Which bytes of a trace it stands for is `StandsFor` there.
#[derive(Drop)]
pub struct Follow<I: Inferer> {
    plan: Plan,
    inferer: I,
    reader: Reader,
}

impl<I: Inferer> Model for Follow<I> {
    ghost use Rattle.std.specs.Coded.{codes};
    ghost use Rattle.std.specs.Prelude.{◌≡◌, false};
    ghost use Rattle.nf_core.specs.contracts.terms.Term as term;
    ghost use Rattle.nf_session.specs.Followers as followers;

    ghost Value = { followers.Follower };

    ghost coded = { Prim.hlevel (codes, term.the_row.coded) };

    ghost view = { λ f. record {
      content = I.content f.inferer;
      lines = f.reader.place.lines;
      last = f.reader.place.last;
      kept = f.reader.liner.kept;
      thrifty = I.is_thrifty f.inferer;
    } };

    ghost invariant = { λ f. ((I.content f.inferer).plan ≡ f.plan)
        × (f.reader.liner.was_long ≡ false) };
}

// What taking one line left: the follower behind it, how many bytes were taken, and what changed.
// None where nothing can have changed.
#[derive(Drop)]
struct Passed<I: Inferer> {
    follow: Follow<I>,
    used: usize,
    change: Option<Change>,
}

impl<I: Inferer + Drop> Passed<I> {
    // The follower behind the line, and how many bytes were taken.
    fn behind(self) -> (Follow<I>, usize)
        ensures { result ≡ (self.follow, self.used) }
    {
        let Passed {
            follow,
            used,
            change: _,
        } = self;
        (follow, used)
    }
}

impl<I: Inferer + Drop> Follow<I> {
    /// Stands before the first byte of a trace, under a plan and an inferer of it without inputs.
    /// Takes no memory.
    pub fn new(alloc: Global, plan: Plan, inferer: I) -> Follow<I>
        requires { I.content inferer ≡ no_inputs plan (I.content inferer).full }
        ensures new { result ≡ record {
          content = I.content inferer;
          lines = 0;
          last = None;
          kept = [];
          thrifty = I.is_thrifty inferer;
        } }
        ensures stands { StandsFor plan (I.content inferer).full [] result }
    {
        Follow {
            plan,
            inferer,
            reader: Reader {
                liner: Liner::new(alloc),
                place: Place {
                    lines: 0,
                    last: None,
                },
            },
        }
    }

    /// Handles every line that ends in the piece, and writes its announcements before it returns.
    /// What stands behind the last LF is kept.
    ///
    /// A refusal comes exactly where a line that ends in the piece is refused, or where what would
    /// be kept is already too long; the announcements of the lines before it were written. A failed
    /// write leaves less than what was due, and want of memory the announcements of whole lines.
    /// None of them leaves the follower.
    ///
    /// With a thrifty inferer the counter of evaluated expressions rises by at most the work of the
    /// accepted lines that the piece ends (`FeedsWithinWork` of specs/Costs), on every answer.
    pub fn feed<O: Sink, L: Ledger>(
        self,
        alloc: Global,
        piece: &[u8],
        out: &mut O,
        steps: &mut Steps<L>,
    ) -> Result<Follow<I>, FollowEnd>
        requires counted { self.lines + length piece.now < 2 ^ 63 }
        ensures feeds { (plan : PlanOf) (full : Bool) (bytes : List ℕ)
            → length bytes + length piece.now ≤ trace_limit → StandsFor plan full bytes self
            → Feeds plan full bytes piece.now result
            (O.tells out.old).taken (O.tells out.new).taken }
        ensures thrifty { IfOk result (λ follow. follow.thrifty ≡ self.thrifty) }
        ensures work { FeedsWithinWork self piece.now steps.old steps.new }
        ensures needs_no_memory { NeedsNoMemory self piece.now → result ≢ Err FollowEnd.NoMemory }
        ensures never_too_long { result ≢ Err (FollowEnd.Trace TraceFault.TooLong) }
        ensures cause { result ≡ Err FollowEnd.WriteFault
            → Rose (O.tells out.old).faults (O.tells out.new).faults }
        ensures never_falls { (O.tells out.old).faults ≤ (O.tells out.new).faults }
    {
        traces_go_on_from_where_they_stand();
        let mut follow = self;
        let mut rest = piece;
        'lines: while !rest.is_empty() {
            let (next, used) = follow.feed_event(alloc, rest, out, steps)?;
            follow = next;
            rest = &rest[used..];
        }
        Ok(follow)
    }

    /// Handles what is kept as the last line of the trace, where anything is kept, and writes its
    /// announcements. Nothing is kept then, and no call but `inferer` is of use.
    ///
    /// A refusal comes exactly where that line is refused. A failed write leaves less than its
    /// announcements, and want of memory none of them.
    ///
    /// With a thrifty inferer the counter of evaluated expressions rises by at most the work of that
    /// line (`FinishesWithinWork` of specs/Costs), on every answer.
    pub fn finish<O: Sink, L: Ledger>(
        self,
        alloc: Global,
        out: &mut O,
        steps: &mut Steps<L>,
    ) -> Result<Follow<I>, FollowEnd>
        ensures finishes { (plan : PlanOf) (full : Bool) (bytes : List ℕ)
            → length bytes < trace_limit → StandsFor plan full bytes self
            → Finishes plan full bytes result (O.tells out.old).taken (O.tells out.new).taken }
        ensures thrifty { IfOk result (λ follow. follow.thrifty ≡ self.thrifty) }
        ensures work { FinishesWithinWork self steps.old steps.new }
        ensures never_too_long { result ≢ Err (FollowEnd.Trace TraceFault.TooLong) }
        ensures cause { result ≡ Err FollowEnd.WriteFault
            → Rose (O.tells out.old).faults (O.tells out.new).faults }
        ensures never_falls { (O.tells out.old).faults ≤ (O.tells out.new).faults }
    {
        traces_go_on_from_where_they_stand();
        let (follow, change) = self.take_last(alloc, steps)?;
        announce(alloc, &follow.plan, change, out)?;
        Ok(follow)
    }

    /// The inferer, with the events of all lines that were handled. Takes no memory.
    pub fn inferer(&self) -> &I
        ensures { I.content result.now ≡ self.now.content }
    {
        &self.inferer
    }

    // Enters every line that ends in the piece, and announces nothing. What stands behind the last
    // LF is kept.
    pub(crate) fn enter<L: Ledger>(
        self,
        alloc: Global,
        piece: &[u8],
        steps: &mut Steps<L>,
    ) -> Result<Follow<I>, FollowEnd>
        requires counted { self.lines + length piece.now < 2 ^ 63 }
        ensures stands { (plan : PlanOf) (full : Bool) (bytes : List ℕ)
            → length bytes + length piece.now ≤ trace_limit → StandsFor plan full bytes self
            → IfOk result (StandsFor plan full (bytes ++ piece.now)) }
        ensures ends { (plan : PlanOf) (full : Bool) (bytes : List ℕ)
            → length bytes + length piece.now ≤ trace_limit → StandsFor plan full bytes self
            → EndsBy (trace_so_far (bytes ++ piece.now)).ending result }
        ensures thrifty { IfOk result (λ follow. follow.thrifty ≡ self.thrifty) }
        ensures work { FeedsWithinWork self piece.now steps.old steps.new }
        ensures never_too_long { result ≢ Err (FollowEnd.Trace TraceFault.TooLong) }
        ensures writes_nothing { result ≢ Err FollowEnd.WriteFault }
    {
        traces_go_on_from_where_they_stand();
        let mut follow = self;
        let mut rest = piece;
        'lines: while !rest.is_empty() {
            let passed = follow.take_event(alloc, rest, steps)?;
            let (next, used) = passed.behind();
            follow = next;
            rest = &rest[used..];
        }
        Ok(follow)
    }

    // Enters what is kept as the last line of the trace, where anything is kept, and announces
    // nothing.
    pub(crate) fn enter_last<L: Ledger>(
        self,
        alloc: Global,
        steps: &mut Steps<L>,
    ) -> Result<Follow<I>, FollowEnd>
        ensures stands { (plan : PlanOf) (full : Bool) (bytes : List ℕ)
            → length bytes < trace_limit → StandsFor plan full bytes self
            → IfOk result (StandsAtEndOf plan full bytes) }
        ensures ends { (plan : PlanOf) (full : Bool) (bytes : List ℕ)
            → length bytes < trace_limit → StandsFor plan full bytes self
            → EndsBy (trace bytes).ending result }
        ensures thrifty { IfOk result (λ follow. follow.thrifty ≡ self.thrifty) }
        ensures work { FinishesWithinWork self steps.old steps.new }
        ensures never_too_long { result ≢ Err (FollowEnd.Trace TraceFault.TooLong) }
        ensures writes_nothing { result ≢ Err FollowEnd.WriteFault }
    {
        traces_go_on_from_where_they_stand();
        let (follow, _) = self.take_last(alloc, steps)?;
        Ok(follow)
    }

    // Takes lines up to the first one with an event that the plan has, or all of the piece, and handles them: the
    // announcements of that event are written. Answers how many bytes it took.
    fn feed_event<O: Sink, L: Ledger>(
        self,
        alloc: Global,
        piece: &[u8],
        out: &mut O,
        steps: &mut Steps<L>,
    ) -> Result<(Follow<I>, usize), FollowEnd>
        requires { self.lines + length piece.now < 2 ^ 64 }
        ensures some { piece.now ≢ [] → IfOk result (λ r. 0 < r.1) }
        ensures within { IfOk result (λ r. r.1 ≤ length piece.now) }
        ensures counted { IfOk result (λ r. r.0.lines + length (drop r.1 piece.now)
            ≤ self.lines + length piece.now) }
        ensures fed { IfOk result (λ r.
            HasFed self piece.now r.0 (drop r.1 piece.now)
            (O.tells out.old).taken (O.tells out.new).taken) }
        ensures thrifty { IfOk result (λ r. r.0.thrifty ≡ self.thrifty) }
        ensures work { IsTrue self.thrifty → IfOk result (λ r.
            steps.new + work_left r.0 (drop r.1 piece.now) ≤ steps.old + work_left self piece.now) }
        ensures stopped_work { IsTrue self.thrifty
            → OnErr result (steps.new ≤ steps.old + work_left self piece.now) }
        ensures stops { IfErr result (λ end. Stops end self.content
            (more_read (standing_of self) piece.now)
            (O.tells out.old).taken (O.tells out.new).taken) }
        ensures needs_no_memory { NeedsNoMemory self piece.now
            → result ≢ Err FollowEnd.NoMemory }
        ensures still_needs_none { IfOk result (λ r. NeedsNoMemory self piece.now
            → NeedsNoMemory r.0 (drop r.1 piece.now)) }
        ensures never_too_long { result ≢ Err (FollowEnd.Trace TraceFault.TooLong) }
        ensures cause { result ≡ Err FollowEnd.WriteFault
            → Rose (O.tells out.old).faults (O.tells out.new).faults }
        ensures never_falls { (O.tells out.old).faults ≤ (O.tells out.new).faults }
    {
        let Passed {
            follow,
            used,
            change,
        } = self.take_event(alloc, piece, steps)?;
        announce(alloc, &follow.plan, change, out)?;
        Ok((follow, used))
    }

    // Takes lines up to the first one with an event that the plan has, or all of the piece, and enters that event.
    fn take_event<L: Ledger>(
        self,
        alloc: Global,
        piece: &[u8],
        steps: &mut Steps<L>,
    ) -> Result<Passed<I>, Halt>
        requires { self.lines + length piece.now < 2 ^ 64 }
        ensures some { piece.now ≢ [] → IfOk result (λ r. 0 < r.used) }
        ensures within { IfOk result (λ r. r.used ≤ length piece.now) }
        ensures counted { IfOk result (λ r. r.follow.lines + length (drop r.used piece.now)
            ≤ self.lines + length piece.now) }
        ensures takes { IfOk result (λ r.
            Takes self piece.now r.follow (drop r.used piece.now) r.change) }
        ensures change { IfOk result (λ r.
            LeavesChange self.content r.follow.content r.change) }
        ensures plan { IfOk result (λ r. r.follow.content.plan ≡ self.content.plan) }
        ensures thrifty { IfOk result (λ r. r.follow.thrifty ≡ self.thrifty) }
        ensures work { IsTrue self.thrifty → IfOk result (λ r. steps.new
            + work_left r.follow (drop r.used piece.now) ≤ steps.old + work_left self piece.now) }
        ensures stopped_work { IsTrue self.thrifty
            → OnErr result (steps.new ≤ steps.old + work_left self piece.now) }
        ensures halts { IfErr result (λ halt.
            StopsAt halt self.content (more_read (standing_of self) piece.now)) }
        ensures quiet { NeedsNoMemory self piece.now → IsQuiet (λ r. r.change) result }
        ensures still_needs_none { IfOk result (λ r. NeedsNoMemory self piece.now
            → NeedsNoMemory r.follow (drop r.used piece.now)) }
        ensures never_too_long { result ≢ Err (Halt.Refused TraceFault.TooLong) }
    {
        let Follow {
            plan,
            inferer,
            mut reader,
        } = self;
        let step = reader.next_event(alloc, &plan, piece)?;
        let used = step.used;
        let (inferer, change) = enter_event(alloc, &plan, inferer, step.event, steps)?;
        Ok(Passed {
            follow: Follow {
                plan,
                inferer,
                reader,
            },
            used,
            change,
        })
    }

    // Takes what is kept as the last line of the trace, where anything is kept, and enters its
    // event. Answers what changed: None where nothing can have.
    fn take_last<L: Ledger>(
        self,
        alloc: Global,
        steps: &mut Steps<L>,
    ) -> Result<(Follow<I>, Option<Change>), Halt>
        ensures takes { self.lines + 1 < 2 ^ 64 → IfOk result (λ r. TakesLast self r.0 r.1) }
        ensures change { IfOk result (λ r. LeavesChange self.content r.0.content r.1) }
        ensures plan { IfOk result (λ r. r.0.content.plan ≡ self.content.plan) }
        ensures thrifty { IfOk result (λ r. r.0.thrifty ≡ self.thrifty) }
        ensures work { self.lines + 1 < 2 ^ 64 → IsTrue self.thrifty
            → steps.new ≤ steps.old + last_work self }
        ensures halts { self.lines + 1 < 2 ^ 64
            → IfErr result (λ halt. StopsAt halt self.content (last_read (standing_of self))) }
        ensures never_too_long { result ≢ Err (Halt.Refused TraceFault.TooLong) }
    {
        let Follow {
            plan,
            inferer,
            mut reader,
        } = self;
        let event = reader.last_event(alloc, &plan)?;
        let (inferer, change) = enter_event(alloc, &plan, inferer, event, steps)?;
        let follow = Follow {
            plan,
            inferer,
            reader,
        };
        Ok((follow, change))
    }

    // The inferer's plan.
    pub(crate) fn plan(&self) -> &Plan
        ensures { result.now ≡ self.now.content.plan }
    {
        &self.plan
    }
}
