//! The word that says how many lines `drill` makes.

ghost use Rattle.std.specs.Prelude.{◌≡◌, bytes_eq, decimal};
ghost use Rattle.nfer_cli.specs.inner.Commands.{count_of};

use itoa::Buffer;

/// The most lines of a made trace.
pub(crate) const MOST_DRILL_LINES: u32 = 1_000_000;

/// The number of lines that a word gives, which is the canonical decimal of a number from 1 to 1,000,000: no sign and
/// no leading zero stands in it (`count_of` of specs/inner/Commands.antt). None exactly where it is none. Takes no
/// memory.
pub(crate) fn parse_lines(word: &str) -> Option<u32>
    ensures { result ≡ count_of word.now }
{
    let lines = word.parse::<u32>().ok()?;
    if lines == 0 || lines > MOST_DRILL_LINES || !is_decimal_of(word, lines) {
        return None;
    }
    Some(lines)
}

// Whether a word is the decimal of a number.
fn is_decimal_of(word: &str, number: u32) -> bool
    ensures { result ≡ bytes_eq (decimal number) word.now }
{
    let mut digits = Buffer::new();
    digits.format(number) == word
}
