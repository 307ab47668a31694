//! The canonical text of rules.
//!
//! The rule is `canonical` in specs/Canonical.antt: one line, with parentheses exactly where the levels
//! of operators ask for them (specs/Trees.antt of nf_core). `print` gives that line, and the line spells
//! the rule: by the grammar of nf_parse it is one module without name that holds this rule alone.
//! Below stand nf_parse and nf_lex with what a line spells; above it stand the commands that show rules.
#![tactic(auto)]

mod expressions;
mod laws;
mod printing;
mod words;

pub use laws::canonical_lines_are_read;
pub use printing::print;
