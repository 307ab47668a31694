//! The one front door of specifications: what the sources of one are compiled to, by `Specifies` of
//! specs/Specification.antt.
//!
//! `compile` answers the plan of the selected rules, with these rules and the levels of their names, or
//! the first refusal; `every_specification_has_one_answer` says that there is one such answer, and `limits_in_figures` what its limits are. `sources`
//! holds the bytes, `limits` how many they may be, `parsing` reads them file by file, `selecting` selects
//! and judges the rules, and `compiling` puts the parts together. Below stand the crates of the parts:
//! nf_parse, nf_modules, nf_typing and nf_order; above stands the program, which reads the files.
#![tactic(auto)]

mod compiling;
mod fault;
mod laws;
mod limits;
mod parsing;
mod selecting;
mod sources;

pub use compiling::{Compiled, compile};
pub use fault::SpecFault;
pub use laws::{every_specification_has_one_answer, limits_in_figures};
pub use limits::SPECIFICATION_LIMIT;
pub use sources::SourceList;
