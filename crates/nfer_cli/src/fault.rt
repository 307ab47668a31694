//! What can fail in a command.

ghost use Rattle.std.specs.Prelude.{◌≡◌};
ghost use Rattle.nfer_cli.specs.inner.Failures.{failure_at, failure_of_fault};
ghost use Rattle.nfer_cli.specs.declared.fault.Failure.TheVariants.{NoMemory as no_memory};

use nf_core::NoMemory;
use nf_line::TraceFault;
use nf_session::SessionEnd;
use nf_spec::SpecFault;
use std::alloc::AllocError;

/// Why a command doesn't succeed.
#[derive(Debug, Drop, PartialEq, Eq)]
pub(crate) enum Failure {
    /// The specification is refused. The fault is never `NoMemory`.
    Specification(SpecFault),
    /// The trace is refused at a line, or is too long.
    Trace(TraceFault),
    /// The file at this place, counted from 0, of the command's files couldn't be read.
    Read(usize),
    /// Standard output couldn't be written.
    Write,
    /// No memory was left.
    NoMemory,
}

impl Failure {
    /// The failure that an end of a session is, where the trace is the file at a place, counted from 0, of the
    /// command's files.
    pub(crate) fn of_session(end: SessionEnd, place: usize) -> Failure
        ensures { result ≡ failure_at place end }
    {
        match end {
            SessionEnd::Trace(fault) => Failure::Trace(fault),
            SessionEnd::ReadFault => Failure::Read(place),
            SessionEnd::WriteFault => Failure::Write,
            SessionEnd::NoMemory => Failure::NoMemory,
        }
    }
}

impl From<NoMemory> for Failure {
    ghost from_gives = { λ _ failure. failure ≡ no_memory };

    fn from(_error: NoMemory) -> Failure {
        Failure::NoMemory
    }
}

impl From<AllocError> for Failure {
    ghost from_gives = { λ _ failure. failure ≡ no_memory };

    fn from(_error: AllocError) -> Failure {
        Failure::NoMemory
    }
}

impl From<SpecFault> for Failure {
    ghost from_gives = { λ fault failure. failure ≡ failure_of_fault fault };

    fn from(fault: SpecFault) -> Failure {
        match fault {
            SpecFault::NoMemory => Failure::NoMemory,
            fault => Failure::Specification(fault),
        }
    }
}
