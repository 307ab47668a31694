//! Reading of texts that are lent: parts of a source, the fields of a line, times and values.
//!
//! Nothing here takes memory. What a text spells is `spelling_of` in specs/Value.antt, which texts are
//! times is `time_of` in specs/Time.antt, and the fields of a text are `fields_of` in
//! specs/Fields.antt. The lexer and the readers of trace lines and of monitor texts stand on this
//! crate, and it stands on nf_core, whose plain texts are those that it tests.
#![tactic(auto)]

mod cursor;
mod digits;
mod field_list;
mod laws;
mod reading;
mod span;
mod splitting;
mod time;
mod value;

pub use cursor::Cursor;
pub use field_list::Split;
pub use laws::{
    plain_texts, printed_numbers_are_read, printed_times_are_read, spellings_are_apart,
};
pub use reading::{is_plain, read_value};
pub use span::{Span, slice};
pub use splitting::split;
pub use time::read_time;
pub use value::Read;
