//! Which modules a root reaches.

ghost use Rattle.std.specs.Prelude.{◌≡◌, ◌<◌, Some, length, IfOk, IfSome, OnOk};
ghost use Rattle.std.specs.Option.{option_copied};
ghost use Rattle.nf_modules.specs.inner.Places.{ArePlaces, number_in};
ghost use Rattle.nf_modules.specs.inner.Search.{AreWithin, IsPlaceOf, Marks, MarksImports};
ghost use Rattle.nf_modules.specs.Selection.{AreReached};

use crate::places::{Places, place_of};
use nf_core::{Module, NoMemory, Text};
use std::alloc::Global;

// For each module whether it is reached so far, and the places of reached ones whose imports aren't
// looked at yet.
#[derive(Drop)]
struct Search {
    reached: Vec<bool>,
    open: Vec<usize>,
}

/// Whether each module is reached, in order: without a root each one is, and with a root those to
/// which a walk of imports leads from the module of that name.
pub(crate) fn reached_modules(
    alloc: Global,
    modules: &[Module],
    places: &Places<'_>,
    root: Option<&str>,
) -> Result<Vec<bool>, NoMemory>
    requires { ArePlaces (number_in places.now) modules.now }
    ensures { IfOk result
        (λ reached. AreReached modules.now (option_copied root.entry) reached.items) }
{
    match root {
        None => Ok(vec![in alloc; true; modules.len()]?),
        Some(name) => reached_from(alloc, modules, places, name),
    }
}

// Whether each module is reached from the one with a name, in order.
fn reached_from(
    alloc: Global,
    modules: &[Module],
    places: &Places<'_>,
    root: &str,
) -> Result<Vec<bool>, NoMemory>
    requires { ArePlaces (number_in places.now) modules.now }
    ensures { IfOk result (λ reached. AreReached modules.now (Some root.now) reached.items) }
{
    let mut search = Search {
        reached: vec![in alloc; false; modules.len()]?,
        open: Vec::new(alloc),
    };
    mark(&mut search, places, root)?;
    'open: while let Some(place) = search.open.pop() {
        mark_imports(&mut search, places, modules, place)?;
    }
    Ok(search.reached)
}

// Marks the modules that the one at a place imports.
fn mark_imports(
    search: &mut Search,
    places: &Places<'_>,
    modules: &[Module],
    place: usize,
) -> Result<(), NoMemory>
    requires place { place < length modules.now }
    requires numbers { AreWithin (number_in places.now) search.old }
    ensures { OnOk result
        (MarksImports (number_in places.now) modules.now place search.old search.new) }
{
    mark_all(search, places, modules[place].imports.as_slice())
}

// Marks the modules with these names.
fn mark_all(search: &mut Search, places: &Places<'_>, names: &[Text]) -> Result<(), NoMemory>
    requires { AreWithin (number_in places.now) search.old }
    ensures { OnOk result
        (Marks search.old search.new (IsPlaceOf (number_in places.now) names.now)) }
{
    for name in names {
        mark(search, places, name.as_str())?;
    }
    Ok(())
}

// Marks the module with a name, if there is one.
fn mark(search: &mut Search, places: &Places<'_>, name: &str) -> Result<(), NoMemory>
    requires { IfSome (number_in places.now name.now)
        (λ place. place < length search.old.reached.items) }
    ensures { OnOk result
        (Marks search.old search.new (λ i. number_in places.now name.now ≡ Some i)) }
{
    match place_of(places, name) {
        Some(place) => mark_place(search, place),
        None => Ok(()),
    }
}

// Marks the module at a place. Where it wasn't marked, its imports are to be looked at.
fn mark_place(search: &mut Search, place: usize) -> Result<(), NoMemory>
    requires { place < length search.old.reached.items }
    ensures { OnOk result (Marks search.old search.new (λ i. place ≡ i)) }
{
    if !search.reached[place] {
        search.reached[place] = true;
        search.open.push(place)?;
    }
    Ok(())
}
