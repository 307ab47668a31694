//! Lines of items that carry their names and keys.

ghost use Rattle.std.specs.Prelude.{◌≡◌, ◌++◌, map, filter, All, IfOk, OnOk};
ghost use Rattle.nf_announce.specs.Printed.{IsPrintable, printed, lines_of_items, printed_text};
ghost use Rattle.nf_announce.specs.Reading.{sign_of};
ghost use Rattle.nf_announce.specs.inner.LineTexts.{has_sign};

use crate::announced::Announced;
use crate::data_text::data_text;
use crate::ordered_lines::push_ordered;
use nf_core::{Lines, ListOf, NoMemory, Row, Text, TextList};
use std::alloc::Global;

/// A signed interval with its name and its keys, for what prints without a plan.
#[derive(Debug, Drop)]
pub struct Printed {
    /// Whether it is added; else it is withdrawn.
    pub added: bool,
    pub name: Text,
    pub start: i64,
    pub stop: i64,
    /// The keys of the name, ascending.
    pub keys: TextList,
    /// A cell for each key, which may be missing.
    pub row: Row,
}

/// A list of items to print.
pub type PrintedList = ListOf<Printed>;

/// The announcement lines of items that can be printed (`IsPrintable` of specs/Printed): all that is
/// withdrawn with `-`, and then all that is added with `+`, each group in the order of announcements, and
/// equal ones as often as they stand (`printed_text` there). NoMemory comes where memory is wanted.
#[tactic(auto, unfolding(crate::specs::Printed::printed_text))]
pub fn print_lines(alloc: Global, items: &PrintedList) -> Result<Lines, NoMemory>
    requires { All IsPrintable items.now }
    ensures { IfOk result (λ lines. lines ≡ printed_text items.now) }
{
    let mut lines = Lines::new(alloc);
    push_lines(alloc, false, items, &mut lines)?;
    push_lines(alloc, true, items, &mut lines)?;
    Ok(lines)
}

/// Puts the lines of the items that are added, or of those that are withdrawn, at the end of others.
fn push_lines(
    alloc: Global,
    added: bool,
    items: &PrintedList,
    lines: &mut Lines,
) -> Result<(), NoMemory>
    ensures { OnOk result (lines.new ≡ lines.old
        ++ lines_of_items (sign_of added) (filter (has_sign added) items.now)) }
{
    let announced = announced(alloc, added, items)?;
    push_ordered(Some(sign(added)), announced, lines)
}

/// The announcements of the items that are added, or of those that are withdrawn.
fn announced(
    alloc: Global,
    added: bool,
    items: &PrintedList,
) -> Result<Vec<Announced<'_>>, NoMemory>
    ensures { IfOk result (λ announced.
        announced.items ≡ map printed (filter (has_sign added) items.now)) }
{
    let mut announced = Vec::new(alloc);
    for item in items.as_slice() {
        if item.added == added {
            announced.push(announced_of(alloc, item)?)?;
        }
    }
    Ok(announced)
}

/// The announcement of an item.
fn announced_of(alloc: Global, item: &Printed) -> Result<Announced<'_>, NoMemory>
    ensures { IfOk result (λ announced. announced ≡ printed item.now) }
{
    Ok(Announced {
        name: item.name.as_str(),
        start: item.start,
        stop: item.stop,
        rest: data_text(alloc, &item.keys, &item.row)?,
    })
}

/// The sign of what is added, or of what is withdrawn.
fn sign(added: bool) -> u8
    ensures { result ≡ sign_of added }
{
    if added { b'+' } else { b'-' }
}
