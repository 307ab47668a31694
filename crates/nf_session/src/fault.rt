//! How following a trace ends early.

ghost use Rattle.std.specs.Prelude.{◌≡◌};
ghost use Rattle.nf_session.specs.inner.Ends.{follow_end_of, session_end_of};
ghost use Rattle.nf_session.specs.declared.fault.FollowEnd.TheVariants.{NoMemory as no_memory};
ghost use Rattle.nf_session.specs.declared.fault.Halt.TheVariants.{NoMemory as halt_no_memory};
ghost use Rattle.nf_session.specs.declared.fault.SessionEnd.TheVariants.{NoMemory as session_no_memory};

use nf_core::NoMemory;
use nf_line::TraceFault;
use std::alloc::AllocError;
use thiserror::Error;

/// Why no more lines are read.
#[derive(Debug, Drop)]
pub(crate) enum Halt {
    /// The trace is refused at a line. The fault is never `TooLong`.
    Refused(TraceFault),
    /// No memory was left.
    NoMemory,
}

/// Why following lines stopped.
#[derive(Debug, Drop, PartialEq, Eq, Error)]
pub enum FollowEnd {
    /// The trace is refused at a line. The fault is never `TooLong`.
    #[error("{0}")]
    Trace(TraceFault),
    /// The output couldn't be written.
    #[error("cannot write")]
    WriteFault,
    /// No memory was left.
    #[error("no memory")]
    NoMemory,
}

impl From<NoMemory> for Halt {
    ghost from_gives = { λ _ halt. halt ≡ halt_no_memory };

    fn from(_error: NoMemory) -> Halt {
        Halt::NoMemory
    }
}

impl From<NoMemory> for FollowEnd {
    ghost from_gives = { λ _ end. end ≡ no_memory };

    fn from(_error: NoMemory) -> FollowEnd {
        FollowEnd::NoMemory
    }
}

impl From<Halt> for FollowEnd {
    ghost from_gives = { λ halt end. end ≡ follow_end_of halt };

    fn from(halt: Halt) -> FollowEnd {
        match halt {
            Halt::Refused(fault) => FollowEnd::Trace(fault),
            Halt::NoMemory => FollowEnd::NoMemory,
        }
    }
}

/// Why following a trace that is read stopped.
#[derive(Debug, Drop, PartialEq, Eq, Error)]
pub enum SessionEnd {
    /// The trace is refused at a line, or is too long.
    #[error("{0}")]
    Trace(TraceFault),
    /// The trace couldn't be read.
    #[error("cannot read")]
    ReadFault,
    /// The output couldn't be written.
    #[error("cannot write")]
    WriteFault,
    /// No memory was left.
    #[error("no memory")]
    NoMemory,
}

impl From<FollowEnd> for SessionEnd {
    ghost from_gives = { λ end session. session ≡ session_end_of end };

    fn from(end: FollowEnd) -> SessionEnd {
        match end {
            FollowEnd::Trace(fault) => SessionEnd::Trace(fault),
            FollowEnd::WriteFault => SessionEnd::WriteFault,
            FollowEnd::NoMemory => SessionEnd::NoMemory,
        }
    }
}

impl From<NoMemory> for SessionEnd {
    ghost from_gives = { λ _ end. end ≡ session_no_memory };

    fn from(_error: NoMemory) -> SessionEnd {
        SessionEnd::NoMemory
    }
}

impl From<AllocError> for SessionEnd {
    ghost from_gives = { λ _ end. end ≡ session_no_memory };

    fn from(_error: AllocError) -> SessionEnd {
        SessionEnd::NoMemory
    }
}
