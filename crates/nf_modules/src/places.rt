//! The places of modules by their names.

ghost use Rattle.std.specs.Prelude.{◌≡◌, ◌≢◌, None, IfOk, IfErr, OnOk};
ghost use Rattle.nf_modules.specs.inner.Places.{ArePlaces, IsAdded, IsGiven, IsNameFault, IsNameFaultBehind, OrNoMemory, number_in};
ghost use Rattle.nf_modules.specs.declared.fault.ModuleFault.TheVariants as fault;

use crate::fault::ModuleFault;
use indexmap::IndexMap;
use nf_core::{Module, Text, TryCopy};
use std::alloc::Global;

/// The places of modules, counted from 0, by their names.
pub(crate) type Places<'a> = IndexMap<&'a str, usize>;

/// The places of some modules by their names. SameModule where a name stands twice.
pub(crate) fn places_of<'a>(alloc: Global, modules: &'a [Module]) -> Result<Places<'a>, ModuleFault>
    ensures ok { IfOk result (λ places. ArePlaces (number_in places) modules.now) }
    ensures err { IfErr result (OrNoMemory (IsNameFault modules.now)) }
{
    let mut places = IndexMap::new(alloc);
    for (place, module) in modules.iter().enumerate() {
        add_module(alloc, &mut places, module, place)?;
    }
    Ok(places)
}

// Puts the place of a module in by its name, if it has one. SameModule where an earlier module has the
// name.
fn add_module<'a>(
    alloc: Global,
    places: &mut Places<'a>,
    added: &'a Module,
    place: usize,
) -> Result<(), ModuleFault>
    ensures ok { OnOk result
        (IsAdded (number_in places.old) (number_in places.new) place added.now) }
    ensures err { IfErr result (OrNoMemory (IsNameFaultBehind (number_in places.old) added.now)) }
{
    match &added.name {
        Some(name) => add_name(alloc, places, name, place),
        None => Ok(()),
    }
}

// Puts a place in by a name. SameModule where the name has a place.
fn add_name<'a>(
    alloc: Global,
    places: &mut Places<'a>,
    name: &'a Text,
    place: usize,
) -> Result<(), ModuleFault>
    ensures ok { OnOk result
        (IsGiven (number_in places.old) (number_in places.new) name.now place) }
    ensures absent { OnOk result (number_in places.old name.now ≡ None) }
    ensures err { IfErr result (OrNoMemory
        (λ f. (f ≡ fault.SameModule name.now) × (number_in places.old name.now ≢ None))) }
{
    if places.insert(name.as_str(), place)?.is_some() {
        return Err(ModuleFault::SameModule(name.copy(alloc)?));
    }
    Ok(())
}

/// The place of the module with a name. None exactly where no module has it.
pub(crate) fn place_of(places: &Places<'_>, name: &str) -> Option<usize>
    ensures { result ≡ number_in places.now name.now }
{
    places.get(name).copied()
}
