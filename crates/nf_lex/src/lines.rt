//! Lines of a source.

ghost use Rattle.std.specs.Prelude.{◌≡◌, ◌≤◌, length};
ghost use Rattle.nf_lex.specs.Faults.{line_at};

/// The line of a place of the source: 1 and the LF bytes before it. Places are counted from 0. The rule
/// is `line_at` in specs/Faults.antt.
pub fn line_at(source: &[u8], place: usize) -> u64
    requires { place ≤ length source.now }
    ensures { result ≡ line_at source.now place }
{
    let newlines = source[..place]
        .iter()
        .filter(|byte| **byte == b'\n')
        .count();
    newlines as u64 + 1
}
