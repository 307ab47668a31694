//! Announcements as lines, in their order.

ghost use Rattle.std.specs.Prelude.{◌≡◌, ◌++◌, ◌∷◌, [], flat_map, IfOk, OnOk};
ghost use Rattle.std.specs.Fmt.{signed_decimal};
ghost use Rattle.nf_announce.specs.Announcements.{in_order, unsigned_line};
ghost use Rattle.nf_announce.specs.inner.LineTexts.{line_after, sign_text};

use crate::announced::Announced;
use itoa::Buffer;
use nf_core::{Lines, NoMemory};

/// Puts the lines of some announcements at the end of others, in their order, each with the sign where
/// there is one.
pub(crate) fn push_ordered(
    sign: Option<u8>,
    announced: Vec<Announced<'_>>,
    lines: &mut Lines,
) -> Result<(), NoMemory>
    ensures { OnOk result (lines.new
        ≡ lines.old ++ flat_map (line_after sign) (in_order announced.entry.items)) }
{
    for item in ordered(announced)?.as_slice() {
        push_line(sign, item, lines)?;
    }
    Ok(())
}

/// The announcements in their order.
fn ordered<'a>(mut announced: Vec<Announced<'a>>) -> Result<Vec<Announced<'a>>, NoMemory>
    ensures { IfOk result (λ ordered. ordered.items ≡ in_order announced.entry.items) }
{
    announced.sort()?;
    Ok(announced)
}

/// Puts a line at the end of others, after the sign where there is one.
fn push_line(sign: Option<u8>, announced: &Announced<'_>, lines: &mut Lines) -> Result<(), NoMemory>
    ensures { OnOk result (lines.new ≡ lines.old ++ line_after sign announced.now) }
{
    push_sign(sign, lines)?;
    push_unsigned(announced, lines)
}

/// Puts a line without a sign at the end of others: `NAME|begin|end|`, the rest, and LF.
fn push_unsigned(announced: &Announced<'_>, lines: &mut Lines) -> Result<(), NoMemory>
    ensures { OnOk result (lines.new ≡ lines.old ++ (unsigned_line announced.now ++ 10 ∷ [])) }
{
    lines.push(announced.name.as_bytes())?;
    push_number(announced.start, lines)?;
    push_number(announced.stop, lines)?;
    lines.push(b"|")?;
    lines.push(announced.rest.as_slice())?;
    lines.push(b"\n")
}

/// Puts a sign at the end of lines, where there is one.
fn push_sign(sign: Option<u8>, lines: &mut Lines) -> Result<(), NoMemory>
    ensures { OnOk result (lines.new ≡ lines.old ++ sign_text sign) }
{
    match sign {
        None => Ok(()),
        Some(sign) => lines.push(&[sign]),
    }
}

/// Puts `|` and a number in canonical decimals at the end of others.
fn push_number(number: i64, lines: &mut Lines) -> Result<(), NoMemory>
    ensures { OnOk result (lines.new ≡ lines.old ++ 124 ∷ signed_decimal number) }
{
    lines.push(b"|")?;
    lines.push(Buffer::new().format(number).as_bytes())
}
