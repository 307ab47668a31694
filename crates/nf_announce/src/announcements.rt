//! The announcement lines of a change.

ghost use Rattle.std.specs.Prelude.{◌≡◌, ◌<◌, ◌++◌, length, map, All, IfOk, OnOk};
ghost use Rattle.nf_core.specs.declared.intervals.Named.{Named};
ghost use Rattle.nf_announce.specs.Announcements.{announcement, lines_of, change_text};

use crate::announced::Announced;
use crate::data_text::data_text;
use crate::keys::PlanKeys;
use crate::ordered_lines::push_ordered;
use nf_core::{Change, Interval, Lines, NamedList, NoMemory, Plan};
use std::alloc::Global;

/// The announcement lines of a change: all that is gone with `-`, and then all that comes with `+`,
/// each group ordered by name bytes, then by begin and by end as numbers, then by the bytes of the
/// rest of the line. Each line is `NAME|begin|end|keys|values` after its sign, and ends in LF. The
/// rule is `change_text` of specs/Announcements. NoMemory comes where memory is wanted.
#[tactic(auto, unfolding(crate::specs::Announcements::change_text))]
pub fn write_change(alloc: Global, plan: &Plan, change: &Change) -> Result<Lines, NoMemory>
    requires gone { All (λ (item : Named). item.name < length plan.now.names) change.now.gone }
    requires come { All (λ (item : Named). item.name < length plan.now.names) change.now.come }
    ensures { IfOk result (λ lines. lines ≡ change_text plan.now change.now) }
{
    let mut lines = Lines::new(alloc);
    push_lines(alloc, b'-', plan, &change.gone, &mut lines)?;
    push_lines(alloc, b'+', plan, &change.come, &mut lines)?;
    Ok(lines)
}

/// Puts the lines of some intervals at the end of others, in order, each with the sign.
fn push_lines(
    alloc: Global,
    sign: u8,
    plan: &Plan,
    items: &NamedList,
    lines: &mut Lines,
) -> Result<(), NoMemory>
    requires { All (λ (item : Named). item.name < length plan.now.names) items.now }
    ensures { OnOk result (lines.new ≡ lines.old ++ lines_of sign plan.now items.now) }
{
    let announced = announced(alloc, plan, items)?;
    push_ordered(Some(sign), announced, lines)
}

/// The announcements of some intervals.
fn announced<'a>(
    alloc: Global,
    plan: &'a Plan,
    items: &NamedList,
) -> Result<Vec<Announced<'a>>, NoMemory>
    requires { All (λ (item : Named). item.name < length plan.now.names) items.now }
    ensures { IfOk result (λ announced.
        announced.items ≡ map (announcement plan.now) items.now) }
{
    let mut announced = Vec::new(alloc);
    for item in items.as_slice() {
        announced.push(announced_of(alloc, plan, item.name, &item.interval)?)?;
    }
    Ok(announced)
}

/// The announcement of an interval of a name.
pub(crate) fn announced_of<'a>(
    alloc: Global,
    plan: &'a Plan,
    name: u32,
    interval: &Interval,
) -> Result<Announced<'a>, NoMemory>
    requires { name < length plan.now.names }
    ensures { IfOk result (λ announced.
        announced ≡ announcement plan.now (record { name = name; interval = interval.now })) }
{
    Ok(Announced {
        name: plan.name(name),
        start: interval.start,
        stop: interval.stop,
        rest: data_text(alloc, &PlanKeys::of(plan, name), &interval.row)?,
    })
}
