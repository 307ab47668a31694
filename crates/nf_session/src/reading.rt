//! Reading the lines of a trace in order.

ghost use Rattle.std.specs.Prelude.{◌≡◌, ◌≢◌, ◌+◌, ◌<◌, ◌^◌, [], false, IfOk, IfErr, IfSome, IsErr, IsSome, OnOk, None};
ghost use Rattle.nf_line.specs.Cutting.{CanBeRead};
ghost use Rattle.nf_line.specs.Line.{line_within, holds_bar};
ghost use Rattle.nf_line.specs.Readings.{trace_fault_of};
ghost use Rattle.nf_line.specs.Trace.{fallen, Refused};
ghost use Rattle.nf_session.specs.inner.Progress.{event_read, IsRefused, LeadsOn};

use nf_line::{RawLine, TraceFault};

/// Where the reader of a trace stands between two lines: how many lines ended so far, and the end of the
/// last accepted one.
#[derive(Debug, Clone, Copy)]
pub(crate) struct Place {
    pub(crate) lines: u64,
    pub(crate) last: Option<i64>,
}

impl Place {
    /// The place behind one more line, where the last accepted one has this end.
    pub(crate) fn past(self, last: Option<i64>) -> Place
        requires { self.lines + 1 < 2 ^ 64 }
        ensures { result ≡ record { lines = self.lines + 1; last = last } }
    {
        Place {
            lines: self.lines + 1,
            last,
        }
    }

    /// The place, while one line more can be counted from it; else the last from which it can.
    pub(crate) fn countable(self) -> Place
        ensures same { self.lines + 1 < 2 ^ 64 → result ≡ self }
        ensures counted { result.lines + 1 < 2 ^ 64 }
    {
        Place {
            lines: self.lines.min(u64::MAX - 1),
            last: self.last,
        }
    }
}

/// Reads the next line, without its LF and without one CR before it, and judges it by its end: None where
/// it is empty. A fault comes exactly where the line is refused.
pub(crate) fn read_line<'a>(place: Place, line: &'a [u8]) -> Result<Option<RawLine<'a>>, TraceFault>
    requires counted { place.lines + 1 < 2 ^ 64 }
    requires can_be_read { CanBeRead line.now }
    ensures leads { IfOk result (λ read. LeadsOn (place.lines + 1) place.last (line_within line.now)
        (event_read (place.lines + 1) read)) }
    ensures refused { IfErr result (IsRefused (place.lines + 1) place.last (line_within line.now)) }
    ensures narrow { IfOk result (λ read. IfSome read (λ raw. holds_bar raw.name ≡ false)) }
    ensures never_too_long { result ≢ Err TraceFault.TooLong }
{
    if line.is_empty() {
        return Ok(None);
    }
    let number = place.lines + 1;
    match RawLine::read(line) {
        Ok(raw) => {
            let time = raw.time();
            check_order(number, place.last, time)?;
            Ok(Some(raw))
        }
        Err(fault) => Err(TraceFault::Line(number, fault)),
    }
}

/// Refuses an end that is less than that of the last accepted line.
fn check_order(number: u64, last: Option<i64>, time: i64) -> Result<(), TraceFault>
    ensures ok { OnOk result (fallen last time ≡ None) }
    ensures err { IfErr result (λ fault.
        IfSome (fallen last time) (λ why. trace_fault_of (Refused number why) ≡ Some fault)) }
    ensures some { IsErr result → IsSome (fallen last time) }
    ensures never_too_long { result ≢ Err TraceFault.TooLong }
{
    match last {
        Some(kept) if time < kept => Err(TraceFault::Order {
            line: number,
            kept,
            found: time,
        }),
        _ => Ok(()),
    }
}
