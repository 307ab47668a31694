//! Why a source is no specification.

use nf_lex::LexFault;
use thiserror::Error;

/// Why `parse` gives no modules. Lines are counted from 1. When each comes is said by the definitions
/// of specs/Parses.antt.
#[derive(Debug, Clone, Copy, PartialEq, Eq, Error)]
pub enum ParseFault {
    /// The source has no tokens. The fault is never `LexFault::NoMemory`.
    #[error("{0}")]
    Lex(LexFault),
    /// With the token on this line the tokens are no front of a specification, or they end there and are
    /// none.
    #[error("line {0}: grammar")]
    Grammar(u64),
    /// The tokens before the one on this line are a front of a specification, and this one is the 65th
    /// parenthesis that is open at once in an expression, or the 257th operator of one.
    #[error("line {0}: too deep")]
    TooDeep(u64),
    /// No memory was left for the tokens or for the modules.
    #[error("no memory")]
    NoMemory,
}

impl From<LexFault> for ParseFault {
    ghost use Rattle.std.specs.Prelude.{◌≡◌};
    ghost use Rattle.nf_parse.specs.inner.Lexical.{of_lexical};

    ghost from_gives = { λ error fault. fault ≡ of_lexical error };

    fn from(error: LexFault) -> ParseFault {
        match error {
            LexFault::NoMemory => ParseFault::NoMemory,
            fault => ParseFault::Lex(fault),
        }
    }
}
