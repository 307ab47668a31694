//! The rules that are selected.

ghost use Rattle.std.specs.Prelude.{◌≡◌, ◌⊎◌, Err, option_to_list};
ghost use Rattle.std.specs.Option.{option_copied};
ghost use Rattle.nf_modules.specs.inner.Places.{number_in, first_missing};
ghost use Rattle.nf_modules.specs.Selection.{Selects};
ghost use Rattle.nf_modules.specs.declared.fault.ModuleFault.TheVariants as fault;

use crate::fault::ModuleFault;
use crate::places::{Places, place_of, places_of};
use crate::reached::{missing_import, rules_of};
use crate::search::reached_modules;
use nf_core::{Module, ModuleList, RuleList, Text, TryCopy};
use std::alloc::Global;

/// The rules that are selected from modules, as copies, in the order of the modules. With a root these
/// are the rules of the module of that name and of each module that a reached one imports; without a root
/// they are those of all modules.
///
/// A fault comes exactly where `Selects` of specs/Selection.antt has it: SameModule at the first module
/// whose name an earlier one has; then NoModule for a root that no module has as its name; then NoModule
/// for the first import of the reached modules, in order, that no module has as its name. NoMemory may
/// come from any call. The time grows with the modules, their imports and the selected rules.
pub fn select(
    alloc: Global,
    modules: &ModuleList,
    root: Option<&str>,
) -> Result<RuleList, ModuleFault>
    ensures selects { (result ≡ Err fault.NoMemory)
        ⊎ Selects modules.now (option_copied root.entry) result }
{
    selected(alloc, modules.as_slice(), root)
}

// The rules that are selected from modules.
fn selected(alloc: Global, modules: &[Module], root: Option<&str>) -> Result<RuleList, ModuleFault>
    ensures { (result ≡ Err fault.NoMemory)
        ⊎ Selects modules.now (option_copied root.entry) result }
{
    let places = places_of(alloc, modules)?;
    if let Some(name) = missing_root(root, &places) {
        return Err(ModuleFault::NoModule(Text::new(alloc, name)?));
    }
    let marks = reached_modules(alloc, modules, &places, root)?;
    let reached = marks.as_slice();
    if let Some(name) = missing_import(modules, reached, &places) {
        return Err(ModuleFault::NoModule(name.copy(alloc)?));
    }
    Ok(rules_of(alloc, modules, reached)?)
}

// The root where it has no place.
fn missing_root<'a>(root: Option<&'a str>, places: &Places<'_>) -> Option<&'a str>
    ensures { option_copied result
        ≡ first_missing (number_in places.now) (option_to_list (option_copied root.entry)) }
{
    match root {
        Some(name) if place_of(places, name).is_none() => Some(name),
        _ => None,
    }
}
