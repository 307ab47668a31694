//! Numbers and levels of names that are there.

ghost use Rattle.std.specs.Prelude.{◌≡◌, ◌<◌, ◌^◌, length, map, Contains, IfOk};
ghost use Rattle.nf_core.specs.Written.{place_of, level_or_zero};

use crate::errors::NoMemory;
use crate::names::Names;
use crate::plan_levels::Levels;
use crate::texts::Text;
use std::alloc::Global;

/// The number of a name that is there, as a plan has it.
pub(crate) fn number_of(names: &Names, name: &Text) -> u32
    requires few { length names.now < 2 ^ 32 }
    requires known { Contains names.now name.now }
    ensures number { result ≡ place_of names.now name.now }
    ensures within { result < length names.now }
{
    names.number(name.as_str()) as u32
}

/// The levels of names, in the order of their numbers. A name without a level has level 0.
pub fn levels_by_number(alloc: Global, names: &Names, levels: &Levels) -> Result<Vec<u32>, NoMemory>
    ensures { IfOk result (λ list. list.items ≡ map (level_or_zero levels.now) names.now) }
{
    let mut list = Vec::new(alloc);
    for number in 0..names.len() {
        let level = levels.of(names.at(number)).unwrap_or(0);
        list.push(level)?;
    }
    Ok(list)
}
