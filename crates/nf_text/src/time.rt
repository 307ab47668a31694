//! Reading a time.

ghost use Rattle.std.specs.Prelude.{◌≡◌};
ghost use Rattle.nf_text.specs.Time.{time_of};

use crate::digits::number_of;

/// The longest spelling of a time, in bytes.
const LONGEST: usize = 19;

/// The time that `text` spells, or None exactly where it isn't 1 to 19 digits with a value of at most
/// 2^63 - 1. Leading zeros are allowed. The rule is `time_of` in specs/Time.antt.
#[tactic(auto, unfolding(crate::specs::Time::time_of))]
pub fn read_time(text: &str) -> Option<i64>
    ensures { result ≡ time_of text.now }
{
    let bytes = text.as_bytes();
    if bytes.is_empty() || bytes.len() > LONGEST {
        return None;
    }
    let number = number_of(bytes)?;
    i64::try_from(number).ok()
}
