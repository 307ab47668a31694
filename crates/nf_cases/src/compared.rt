//! Comparing what came with what must come.

use std::alloc::{AllocError, Global};

// How many bytes of a text are shown, and how many of them stand before the first that differs.
const MOST_SHOWN: usize = 60;

const SHOWN_BEFORE: usize = 20;

/// Bytes in one line of a message: printable ones as they are, an LF as `\n`, others as `\xNN`,
/// and after the first 60 `..`.
pub fn shown(alloc: Global, bytes: &[u8]) -> Result<String, AllocError> {
    let mut text = String::new(alloc);
    for byte in bytes.iter().take(MOST_SHOWN) {
        show(&mut text, *byte)?;
    }
    if bytes.len() > MOST_SHOWN {
        text.push_str("..")?;
    }
    Ok(text)
}

fn show(text: &mut String, byte: u8) -> Result<(), AllocError> {
    match byte {
        b'\n' => text.push_str("\\n"),
        b'\\' => text.push_str("\\\\"),
        b' '..=b'~' => text.push(char::from(byte)),
        _ => write!(text, "\\x{byte:02x}"),
    }
}

/// Where two texts differ, in one line for a message: what they are called, the first byte that
/// differs, counted from 1, and both texts from there on, and a little before. None where they are
/// equal.
pub fn difference(
    alloc: Global,
    what: &str,
    expected: &[u8],
    found: &[u8],
) -> Result<Option<String>, AllocError> {
    if expected == found {
        return Ok(None);
    }
    let same = same_bytes(expected, found);
    let expected = shown_around(alloc, expected, same)?;
    let found = shown_around(alloc, found, same)?;
    let place = same.saturating_add(1);
    let text = format!(in alloc;
        "{what} differs at byte {place}: expected \"{expected}\", found \"{found}\""
    )?;
    Ok(Some(text))
}

// How many bytes two texts begin with alike.
fn same_bytes(one: &[u8], other: &[u8]) -> usize {
    let pairs = one.iter().zip(other);
    pairs.take_while(|(one, other)| one == other).count()
}

// The bytes from a few before a place on.
fn shown_around(alloc: Global, bytes: &[u8], place: usize) -> Result<String, AllocError> {
    let from = place.saturating_sub(SHOWN_BEFORE);
    shown(alloc, bytes.get(from..).unwrap_or(&[]))
}

/// The whole number that a text spells by digits alone; None where it spells none.
pub fn whole_number(text: &str) -> Option<u64> {
    if text.bytes().all(|digit| digit.is_ascii_digit()) {
        text.parse::<u64>().ok()
    } else {
        None
    }
}
