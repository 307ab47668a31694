//! Texts of the C subset, read to programs.
//!
//! `read_c` gives the program of a C text, or why it has none, exactly as `Reads` of specs/Reading.antt says
//! it, and every source has exactly one such answer (`every_source_is_answered`). It goes by what that
//! definition is made of. A source begins with the text of a manifest (`BeginsWith` of specs/Manifests.antt,
//! by the text that nf_cast gives a manifest), and of one alone (`manifest_is_one`). What stands behind it is
//! the include line and tokens (`LexesText` of specs/Lexing.antt, by `piece_of` of specs/Pieces.antt and the
//! tables of specs/Symbols.antt), in one way (`text_is_one`); `tokens_are_read` says which words, literals
//! and marks are tokens. Tokens are the objects and functions of a text by the grammar within the limits
//! (`c_text_grammar` of specs/Grammar.antt, `limits` of specs/Reading.antt), or stop being one at a token
//! (`items_are_one`). Which rule such a text breaks first, and which program it is where it breaks none, is
//! said by nf_cast.
//!
//! `reading` puts the parts together. `manifest` reads the manifest: `parts` reads words and lines at the
//! front of bytes, `manifest_names` and `manifest_texts` its lines, and `distinct` tells whether a text
//! stands twice. `lexing` reads the tokens once to the end and keeps none; `words` then hands them out one by
//! one, by `lexer`; `scanning` finds what stands at the front of bytes, by `comments`, `literals`, `names` and
//! `marks`. `reader` is where a reading of words stands. By it `expressions` reads expressions, with the
//! tables of `operators` and `level` and `values` for what the bytes of tokens stand for, `arguments`
//! arguments and right sides, `loops` the headers of loops, `statements` statements and blocks, and `items`
//! objects, functions and whole texts. The contracts of these say that they are the functions on states of
//! specs/inner/ExpressionReading.antt, StatementReading.antt and ItemReading.antt, and the lemmas of
//! proofs/ExpressionReaderLemmas.antt, StatementReaderLemmas.antt and ItemReaderLemmas.antt that these go by
//! the productions, within all limits.
//!
//! Below stand nf_cast with the trees, the rules and the programs, nf_grammar with the parts of grammars,
//! nf_lex with identifiers and classes of bytes, and nf_text; the meaning of C texts will stand above.
#![tactic(auto)]

mod arguments;
mod comments;
mod distinct;
mod expressions;
mod fault;
mod items;
mod laws;
mod level;
mod lexer;
mod lexing;
mod literals;
mod loops;
mod manifest;
mod manifest_names;
mod manifest_texts;
mod marks;
mod names;
mod operators;
mod parts;
mod piece;
mod reader;
mod reading;
mod scanning;
mod statements;
mod symbol;
mod values;
mod words;

pub use fault::CFault;
pub use laws::{
    every_source_is_answered, items_are_one, manifest_is_one, text_is_one, tokens_are_read,
};
pub use reading::read_c;
