//! What the events of a trace hold. Each function does nothing, and its contract is the law.

ghost use Rattle.std.specs.Prelude.{ℕ, List, All};
ghost use Rattle.nf_line.specs.Trace.{trace};
ghost use Rattle.nf_line.specs.ProperEvents.{IsProperEvent};

use nf_text::{plain_texts, printed_numbers_are_read, spellings_are_apart};

/// Whatever the bytes of a trace are, its events are such as intervals may be made of: their names hold
/// no `|`, at which a line is split, they begin and end at numbers that a value may have, and begin no
/// later than they end, and their values are plain and have whole numbers that a value may have.
pub fn events_have_plain_values()
    ensures { (bytes : List ℕ) → All IsProperEvent (trace bytes).events }
{
    plain_texts();
    printed_numbers_are_read();
    spellings_are_apart();
}
