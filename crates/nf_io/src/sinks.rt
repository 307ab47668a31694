//! Sinks of bytes.
ghost use Rattle.std.specs.Prelude.{◌≡◌, ◌<◌, ◌≤◌, [], length, take, Ok, IfOk, OnOk, OnErr};
ghost use Rattle.nf_io.specs.Tells.{SinkTells};
ghost use Rattle.nf_io.specs.Bytes.{Took, TookPart};
ghost use Rattle.nf_io.specs.Causes.{HasCause};

use crate::failure::Failed;

/// A sink of bytes.
///
/// All that a contract sees of it is what it tells (`SinkTells` in specs/Tells.antt): the bytes that
/// it took, and a count of faults, which never falls. A sink may stop telling what it took, and then
/// it never tells that again.
pub trait Sink {
    ghost tells: { Self → SinkTells };

    /// Takes first bytes of the piece, at least one where it isn't empty, and answers how many.
    ///
    /// Answers Failed only where the count of faults rose; then `taken` stays.
    fn write(&mut self, bytes: &[u8]) -> Result<usize, Failed>
        // An empty piece is taken at once, and changes nothing of what was taken.
        ensures empty { bytes.now ≡ [] → result ≡ Ok 0 }
        ensures stays { bytes.now ≡ [] → (tells self.new).taken ≡ (tells self.old).taken }

        ensures some { IfOk result (λ n. 0 < length bytes.now → 0 < n) }
        ensures within { IfOk result (λ n. n ≤ length bytes.now) }
        ensures taken { IfOk result (λ n.
            Took (tells self.old).taken (tells self.new).taken (take n bytes.now)) }
        ensures err { OnErr result ((tells self.new).taken ≡ (tells self.old).taken) }

        ensures cause { HasCause (tells self.old).faults (tells self.new).faults result }
        ensures never_falls { (tells self.old).faults ≤ (tells self.new).faults };
}

/// Writes all the bytes, by as many calls of `write` as it takes. Takes no memory.
///
/// Answers Failed only where the count of faults rose; then the sink took a prefix of the bytes.
pub fn write_all<O: Sink>(out: &mut O, bytes: &[u8]) -> Result<(), Failed>
    ensures ok { OnOk result (Took (O.tells out.old).taken (O.tells out.new).taken bytes.now) }
    ensures err { OnErr result
        (TookPart (O.tells out.old).taken (O.tells out.new).taken bytes.now) }
    ensures cause { HasCause (O.tells out.old).faults (O.tells out.new).faults result }
    ensures never_falls { (O.tells out.old).faults ≤ (O.tells out.new).faults }
{
    let mut from = 0;
    'pieces: while from < bytes.len() {
        from += out.write(&bytes[from..])?;
    }
    Ok(())
}
