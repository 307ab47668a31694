//! Runs of bytes of one class, and tables of words.

ghost use Rattle.std.specs.Prelude.{◌≡◌, ◌≤◌, map, length};
ghost use Rattle.std.specs.Char.{is_ascii_digit};
ghost use Rattle.std.specs.List.{prefix_len, position_or_len};
ghost use Rattle.nf_core.specs.Identifiers.{is_letter};
ghost use Rattle.nf_lex.specs.Bytes.{is_blank, is_inner, is_in_line, is_quote};
ghost use Rattle.nf_lex.specs.Words.{is_among};

/// Whether the byte is space, tab, CR or LF.
pub(crate) fn is_blank(byte: u8) -> bool
    ensures { result ≡ is_blank byte }
{
    byte == b' ' || byte == b'\t' || byte == b'\r' || byte == b'\n'
}

/// Whether the byte is a letter or `_`, with which a name may begin.
pub(crate) fn is_letter(byte: u8) -> bool
    ensures { result ≡ is_letter byte }
{
    byte.is_ascii_alphabetic() || byte == b'_'
}

/// Whether a name may go on with the byte.
fn is_inner(byte: u8) -> bool
    ensures { result ≡ is_inner byte }
{
    is_letter(byte) || byte.is_ascii_digit()
}

/// How many bytes at the front a name may go on with.
pub(crate) fn name_len(bytes: &[u8]) -> usize
    ensures len { result ≡ prefix_len is_inner bytes.now }
    ensures within { result ≤ length bytes.now }
{
    bytes.iter().take_while(|byte| is_inner(**byte)).count()
}

/// How many bytes at the front are digits.
pub(crate) fn digits_len(bytes: &[u8]) -> usize
    ensures len { result ≡ prefix_len is_ascii_digit bytes.now }
    ensures within { result ≤ length bytes.now }
{
    bytes
        .iter()
        .take_while(|byte| byte.is_ascii_digit())
        .count()
}

/// How many bytes stand before the first LF, or all where there is none.
pub(crate) fn line_len(bytes: &[u8]) -> usize
    ensures len { result ≡ prefix_len is_in_line bytes.now }
    ensures within { result ≤ length bytes.now }
{
    bytes.iter().take_while(|byte| **byte != b'\n').count()
}

/// How many bytes stand before the first `"`, or all where there is none.
pub(crate) fn text_len(bytes: &[u8]) -> usize
    ensures len { result ≡ position_or_len is_quote bytes.now }
    ensures within { result ≤ length bytes.now }
{
    bytes.iter().take_while(|byte| **byte != b'"').count()
}

/// Whether the word stands in the table.
pub(crate) fn is_among(mut table: &[&[u8]], word: &[u8]) -> bool
    ensures { result ≡ is_among (map (λ entry. entry.now) table.entry.now) word.now }
{
    'entries: while let [entry, rest @ ..] = table {
        if *entry == word {
            return true;
        }
        table = rest;
    }
    false
}
