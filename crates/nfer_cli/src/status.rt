//! The statuses of the program.

ghost use Rattle.std.specs.Prelude.{◌≡◌};
ghost use Rattle.nfer_cli.specs.Statuses.{code_of};
ghost use Rattle.nfer_cli.specs.inner.Failures.{failed_status};

use crate::fault::Failure;
use nf_line::TraceFault;
use nf_spec::SpecFault;

/// How a call ended. A status carries what its message shows.
#[derive(Debug, Drop, PartialEq, Eq)]
pub enum Status {
    /// Everything defined was written, and the input was read to its end.
    Done,
    /// The words are in no form.
    Usage,
    /// The specification is refused. The fault is never `NoMemory`.
    Specification(SpecFault),
    /// The trace is refused at a line, or is too long.
    Trace(TraceFault),
    /// The file at this place, counted from 0, of the command's files couldn't be read.
    ReadFault(usize),
    /// Standard output couldn't be written.
    WriteFault,
    /// No memory was left.
    NoMemory,
}

impl Status {
    /// The exit status of the program, from 0 to 6 (`code_of` of specs/Statuses).
    pub fn code(&self) -> u8
        ensures { result ≡ code_of self.now }
    {
        match self {
            Status::Done => 0,
            Status::Usage => 1,
            Status::Specification(_) => 2,
            Status::Trace(_) => 3,
            Status::ReadFault(_) => 4,
            Status::WriteFault => 5,
            Status::NoMemory => 6,
        }
    }
}

impl From<Failure> for Status {
    ghost from_gives = { λ failure status. status ≡ failed_status failure };

    fn from(failure: Failure) -> Status {
        match failure {
            Failure::Specification(fault) => Status::Specification(fault),
            Failure::Trace(fault) => Status::Trace(fault),
            Failure::Read(place) => Status::ReadFault(place),
            Failure::Write => Status::WriteFault,
            Failure::NoMemory => Status::NoMemory,
        }
    }
}
