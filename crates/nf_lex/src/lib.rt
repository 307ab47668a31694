//! The tokens of a specification.
//!
//! The rule is `Divides` in specs/Division.antt: a source is words, one after the other and the longest
//! at each place, which are separators, comments and tokens (specs/Words.antt), up to its end or to its
//! first fault (specs/Faults.antt). `tokens` reads them in one pass and lends each as a span of the
//! source. `is_identifier` says of a text of its own whether a source could have it as an identifier,
//! by the same table of keywords. Keywords and the form of names are those of nf_core, and what a plain
//! text is nf_text says. The parser, the printer and the readers of options stand above it.
#![tactic(auto)]

mod bytes;
mod comments;
mod fault;
mod faulty_words;
mod identifiers;
mod laws;
mod lines;
mod piece;
mod reader;
mod scanning;
mod token;
mod token_list;
mod words;

pub use fault::LexFault;
pub use identifiers::is_identifier;
pub use laws::{division_is_one, tokens_are_written, words_are_read};
pub use lines::line_at;
pub use reader::tokens;
pub use token::{Token, TokenKind};
pub use token_list::Tokens;
