//! The top call: everything that the program does.
//!
//! `run` answers words over the files of a shelf, by `Defines` of specs/Answers.antt: the status, what is
//! written to standard output, and the one line on standard error; and it evaluates no more than the lines are worth,
//! by `EvaluatesWithin` of specs/Evaluating.antt. `words`, `command`, `options` and `line_count` say what the
//! words ask for; `specified` reads a specification (`sources`, `reading`) and has it compiled; `checking` prints it
//! (`listing`, `printing`); `running` runs a session over a trace, and `drilling` a made one; `fault` says what can
//! fail, `status` and `messages` tell how it ended. Below stand nf_session, nf_engine, nf_drill, nf_spec, nf_print,
//! nf_line, nf_model and nf_io; above stands only `main`, which hands in the real files and streams.
#![tactic(auto)]

mod checking;
mod command;
mod drilling;
mod fault;
mod laws;
mod line_count;
mod listing;
mod messages;
mod options;
mod printing;
mod reading;
mod running;
mod sources;
mod specified;
mod status;
mod top_call;
mod words;

pub use laws::{every_question_has_one_answer, words_ask_for_one_thing};
pub use status::Status;
pub use top_call::run;
pub use words::Words;
