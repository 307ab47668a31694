//! The lines of faults.

ghost use Rattle.std.specs.Prelude.{◌≡◌, All};
ghost use Rattle.nf_lex.specs.Layout.{IsTokenOf};
ghost use Rattle.nf_parse.specs.Parses.{line_left};

use nf_lex::{Token, line_at};

/// The line of the token of which so many are left, itself counted, or of the end of the source,
/// where none is.
pub(crate) fn line_left(source: &[u8], tokens: &[Token], left: usize) -> u64
    requires { All (IsTokenOf source.now) tokens.now }
    ensures { result ≡ line_left source.now tokens.now left }
{
    let place = match tokens.get(tokens.len().saturating_sub(left)) {
        Some(token) => token.span.start,
        None => source.len(),
    };
    line_at(source, place)
}
