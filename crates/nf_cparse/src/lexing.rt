//! The tokens of a whole text.

ghost use Rattle.std.specs.Prelude.{◌+◌, ◌<◌, ◌^◌, length, Ok, Err, IfOk, IfErr};
ghost use Rattle.nf_cparse.specs.Lexing.{Lexes, LexesText};
ghost use Rattle.nf_cparse.specs.inner.Tokens.{AreTokens};

use crate::lexer::Lexer;
use crate::parts::behind;
use crate::words::Words;

/// Reads all tokens of bytes, the first of which stands at the line, and tells how many they are. Keeps
/// none. Else the line of the first fault.
fn count_tokens(bytes: &[u8], line: u64) -> Result<usize, u64>
    requires { line + length bytes.now < 2 ^ 64 }
    ensures tokens { IfOk result (AreTokens line bytes.now) }
    ensures fault { IfErr result (λ at. Lexes line bytes.now (Err at)) }
{
    let mut lexer = Lexer::new(bytes, line);
    let mut count = 0;
    'tokens: while let Some(_token) = lexer.next()? {
        count += 1;
    }
    Ok(count)
}

/// The tokens of what stands behind a manifest, the first byte of which stands at the line. Else the line
/// of the first lexical fault of all of it (`LexesText` in specs/Lexing.antt). The bytes are read once to
/// the end, and no token is kept, so it takes no memory.
pub(crate) fn lex_text(bytes: &[u8], line: u64) -> Result<Words<'_>, u64>
    requires { line + length bytes.now < 2 ^ 64 }
    ensures tokens { IfOk result (λ words. LexesText line bytes.now (Ok words)) }
    ensures fault { IfErr result (λ at. LexesText line bytes.now (Err at)) }
{
    let Some(rest) = behind(bytes, b"#include <stdint.h>\n") else {
        return Err(line);
    };
    let count = count_tokens(rest, line + 1)?;
    Ok(Words::new(Lexer::new(rest, line + 1), count))
}
