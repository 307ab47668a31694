//! Announcement lines: what changed as text, and the text read back.
//!
//! specs/Announcements has the lines of a change and of what is held, with their order; specs/Printed the
//! same without a plan, and specs/Reading what a line announces. `announced` is an announcement before it
//! is text, with `data_text` for its keys and values, over the `keys` of a plan's name or of an item, and
//! `ordered_lines` puts announcements in order and makes them lines. By these `announcements` writes the
//! lines of a change, `held` those of all that is held, and `printed` those of items that carry their names
//! and keys. `read_lines` reads a line back: `line_parts` has its sign and its fields, and `row_texts` the
//! row of its keys and values. `laws` says that a line gives back what it announces. Below stand nf_model
//! with changes and inferers and nf_text with fields, numbers and values; above stand the sessions that
//! write the lines while a trace comes in.
#![tactic(auto)]

mod announced;
mod announcements;
mod data_text;
mod held;
mod keys;
mod laws;
mod line_parts;
mod ordered_lines;
mod printed;
mod read_lines;
mod row_texts;

pub use announcements::write_change;
pub use held::write_held;
pub use laws::{lines_announce_one_thing, lines_give_back_what_they_announce};
pub use printed::{Printed, PrintedList, print_lines};
pub use read_lines::{Signed, read_line};
