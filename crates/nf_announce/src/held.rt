//! The lines of all that is held.

ghost use Rattle.std.specs.Prelude.{◌≡◌, ◌<◌, ◌++◌, length, map, IfOk, OnOk};
ghost use Rattle.nf_model.specs.Changes.{named};
ghost use Rattle.nf_announce.specs.Announcements.{announcement, held_text};

use crate::announced::Announced;
use crate::announcements::announced_of;
use crate::ordered_lines::push_ordered;
use nf_core::{Held, Lines, NoMemory, Plan};
use nf_model::Inferer;
use std::alloc::Global;

/// The lines of all held intervals of heads, in the order in which they would be added, each
/// `NAME|begin|end|keys|values` and LF (`held_text` of specs/Announcements). NoMemory comes where memory is
/// wanted.
pub fn write_held<I: Inferer>(alloc: Global, plan: &Plan, inferer: &I) -> Result<Lines, NoMemory>
    requires { (I.content inferer.now).plan ≡ plan.now }
    ensures { IfOk result (λ lines. lines ≡ held_text (I.content inferer.now)) }
{
    let mut announced = Vec::new(alloc);
    for name in 0..plan.names() {
        if plan.is_head(name) {
            announce(alloc, plan, name, inferer.held(name), &mut announced)?;
        }
    }
    let mut lines = Lines::new(alloc);
    push_ordered(None, announced, &mut lines)?;
    Ok(lines)
}

/// Puts the announcements of held intervals of a name at the end of others.
fn announce<'a>(
    alloc: Global,
    plan: &'a Plan,
    name: u32,
    held: Held<'_>,
    announced: &mut Vec<Announced<'a>>,
) -> Result<(), NoMemory>
    requires { name < length plan.now.names }
    ensures { OnOk result (announced.new.items
        ≡ announced.old.items ++ map (announcement plan.now) (named name held.entry)) }
{
    for interval in held {
        announced.push(announced_of(alloc, plan, name, interval)?)?;
    }
    Ok(())
}
