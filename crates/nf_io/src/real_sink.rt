//! The sink of a real writer. It is the trusted edge.
ghost use Rattle.std.specs.Prelude.{◌≡◌, ◌<◌, ◌≤◌, [], length, take, None, Ok, IfOk, OnErr};
ghost use Rattle.nf_io.specs.Causes.{HasCause, faults_after};
ghost use Rattle.nf_io.specs.Real.{real_sink_tells};

use crate::failure::Failed;
use crate::sinks::Sink;
use std::io;
use std::io::Write;
use std::marker::Model;

/// The sink of a writer, as standard output, standard error or a file. It tells no content. A
/// write that takes nothing, or whose flush fails, is a failure.
///
/// A contract sees the count of its faults, which rises at each failure and stands still at
/// 2^64 - 1.
#[derive(Drop)]
pub struct RealSink<W: Write> {
    inner: W,
    faults: u64,
}

impl<W: Write> Model for RealSink<W> {
    ghost use Rattle.std.specs.Prelude.{ℕ};

    ghost Value = { ℕ };

    ghost view = { λ s. s.faults };
}

impl<W: Write> RealSink<W> {
    /// The sink of this writer.
    pub fn new(inner: W) -> RealSink<W>
        ensures { result ≡ 0 }
    {
        RealSink { inner, faults: 0 }
    }
}

// Writes first bytes of the piece, flushes, and answers how many bytes these are.
fn write_some<W: Write>(inner: &mut W, bytes: &[u8]) -> io::Result<usize>
    ensures { IfOk result (λ n. n ≤ length bytes.now) }
{
    let count = inner.write(bytes)?;
    inner.flush()?;
    Ok(count)
}

impl<W: Write> Sink for RealSink<W> {
    ghost tells = { real_sink_tells };

    /// Writes first bytes of the piece, at least one where it isn't empty, flushes, and answers
    /// how many bytes these are.
    ///
    /// Answers Failed where the writer fails, takes nothing or doesn't flush.
    fn write(&mut self, bytes: &[u8]) -> Result<usize, Failed>
        ensures empty { bytes.now ≡ [] → result ≡ Ok 0 }
        ensures some { IfOk result (λ n. 0 < length bytes.now → 0 < n) }
        ensures within { IfOk result (λ n. n ≤ length bytes.now) }
        ensures faults { self.new ≡ faults_after self.old result }
        ensures cause { HasCause self.old self.new result }
        ensures never_falls { self.old ≤ self.new }
    {
        if bytes.is_empty() {
            return Ok(0);
        }
        match write_some(&mut self.inner, bytes) {
            Ok(count) if count > 0 => Ok(count),
            _ => {
                self.faults = self.faults.saturating_add(1);
                Err(Failed)
            }
        }
    }
}
