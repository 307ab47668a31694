//! The grammar of specifications, and its parser.
//!
//! The rule is `Spells` in specs/Answers.antt: the tokens of a source, as nf_lex divides it, are a word
//! of `file` in specs/Grammar.antt, which has the grammar production by production over the parts of
//! nf_grammar, within the two limits of an expression. `parse` gives the modules that such a source
//! spells, as trees of nf_core, or the place where its tokens stop being one. Its limits, its keywords and
//! the words of its operators are those of nf_core, its marks those of nf_lex, as the laws say. The
//! printer and the reader of whole specifications stand above it.
#![tactic(auto)]

mod clauses;
mod expressions;
mod fault;
mod laws;
mod level;
mod literals;
mod modules;
mod operators;
mod parsing;
mod places;
mod reader;
mod rules;
mod symbol;
mod token_symbols;

pub use fault::ParseFault;
pub use laws::{
    every_operator_has_its_word, every_source_is_answered, every_word_has_a_kind, one_reading,
};
pub use parsing::parse;
