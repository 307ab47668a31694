//! Parts of texts, one a line.

use crate::wrong::Wrong;

/// Adds to a text what a part says, where the line is one; answers whether it is.
///
/// `word` is the line's first word and `rest` what stands behind it and one space.
pub(crate) fn add_part(text: &mut Vec<u8>, word: &str, rest: &str) -> Result<(), Wrong> {
    match word {
        "|" => add_line(text, rest),
        ">" => add_bytes(text, rest.as_bytes()),
        "hex" => add_hex(text, rest),
        _ => add_repeated(text, rest),
    }
}

/// Whether a word begins a part of a text.
///
/// Answers NoSpace where a mark of a part has more behind it than a space.
pub(crate) fn is_part(word: &str) -> Result<bool, Wrong> {
    match word {
        "|" | ">" | "hex" | "repeat" => Ok(true),
        _ if word.starts_with('|') || word.starts_with('>') => Err(Wrong::NoSpace),
        _ => Ok(false),
    }
}

fn add_bytes(text: &mut Vec<u8>, bytes: &[u8]) -> Result<(), Wrong> {
    text.extend_from_slice(bytes)?;
    Ok(())
}

fn add_line(text: &mut Vec<u8>, line: &str) -> Result<(), Wrong> {
    add_bytes(text, line.as_bytes())?;
    add_bytes(text, b"\n")
}

fn add_hex(text: &mut Vec<u8>, digits: &str) -> Result<(), Wrong> {
    for pair in digits.split(' ') {
        text.push(byte_of(pair)?)?;
    }
    Ok(())
}

// The byte that two hexadecimal digits give.
fn byte_of(pair: &str) -> Result<u8, Wrong> {
    if pair.len() != 2 || !pair.bytes().all(|digit| digit.is_ascii_hexdigit()) {
        return Err(Wrong::NotBytes);
    }
    u8::from_str_radix(pair, 16).map_err(|_| Wrong::NotBytes)
}

fn add_repeated(text: &mut Vec<u8>, rest: &str) -> Result<(), Wrong> {
    let (count, what) = rest.split_once(' ').ok_or(Wrong::NotRepeated)?;
    let count = count.parse::<u32>().map_err(|_| Wrong::NotRepeated)?;
    match what.split_once(' ') {
        Some(("hex", digits)) => add_repeated_hex(text, count, digits),
        _ => add_often(text, count, what.as_bytes()),
    }
}

fn add_repeated_hex(text: &mut Vec<u8>, count: u32, digits: &str) -> Result<(), Wrong> {
    let mut bytes = Vec::new(*text.allocator());
    add_hex(&mut bytes, digits)?;
    add_often(text, count, bytes.as_slice())
}

fn add_often(text: &mut Vec<u8>, count: u32, bytes: &[u8]) -> Result<(), Wrong> {
    for _ in 0..count {
        add_bytes(text, bytes)?;
    }
    Ok(())
}
