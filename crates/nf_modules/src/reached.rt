//! What is asked of the reached modules.

ghost use Rattle.std.specs.Prelude.{◌≡◌, ◌++◌, [], None, length, IfOk, OnOk, if◌then◌else◌};
ghost use Rattle.std.specs.List.{items_where_true};
ghost use Rattle.std.specs.Option.{option_copied};
ghost use Rattle.nf_modules.specs.Selection.{all_imports, all_rules};
ghost use Rattle.nf_modules.specs.inner.Places.{number_in, first_missing};

use crate::places::{Places, place_of};
use nf_core::{Module, NoMemory, Rule, RuleList, Text, TryCopy};
use std::alloc::Global;

/// The first import of the reached modules, in order, that has no place.
pub(crate) fn missing_import<'a>(
    modules: &'a [Module],
    reached: &[bool],
    places: &Places<'_>,
) -> Option<&'a Text>
    requires { length reached.now ≡ length modules.now }
    ensures { option_copied result
        ≡ first_missing (number_in places.now)
        (all_imports (items_where_true reached.now modules.now)) }
{
    for (place, module) in modules.iter().enumerate() {
        if let Some(name) = missing_in(module, reached[place], places) {
            return Some(name);
        }
    }
    None
}

// The first import of a module that has no place, where the module is reached.
fn missing_in<'a>(importer: &'a Module, is_reached: bool, places: &Places<'_>) -> Option<&'a Text>
    ensures { option_copied result
        ≡ (if is_reached then first_missing (number_in places.now) importer.now.imports else None) }
{
    if is_reached {
        first_missing(importer.imports.as_slice(), places)
    } else {
        None
    }
}

// The first of some names that has no place.
fn first_missing<'a>(names: &'a [Text], places: &Places<'_>) -> Option<&'a Text>
    ensures { option_copied result ≡ first_missing (number_in places.now) names.now }
{
    names
        .iter()
        .find(|name| place_of(places, name.as_str()).is_none())
}

/// The rules of the reached modules, in order.
pub(crate) fn rules_of(
    alloc: Global,
    modules: &[Module],
    reached: &[bool],
) -> Result<RuleList, NoMemory>
    requires { length reached.now ≡ length modules.now }
    ensures { IfOk result (λ rules. rules ≡ all_rules (items_where_true reached.now modules.now)) }
{
    let mut rules = RuleList::new(alloc);
    for (place, module) in modules.iter().enumerate() {
        add_module(alloc, &mut rules, module, reached[place])?;
    }
    Ok(rules)
}

// Puts copies of a module's rules at the end of a list, where the module is reached.
fn add_module(
    alloc: Global,
    rules: &mut RuleList,
    added: &Module,
    is_reached: bool,
) -> Result<(), NoMemory>
    ensures { OnOk result (rules.new ≡ rules.old ++ (if is_reached then added.now.rules else [])) }
{
    if is_reached {
        add_rules(alloc, rules, added.rules.as_slice())
    } else {
        Ok(())
    }
}

// Puts copies of rules at the end of a list.
fn add_rules(alloc: Global, rules: &mut RuleList, more: &[Rule]) -> Result<(), NoMemory>
    ensures { OnOk result (rules.new ≡ rules.old ++ more.now) }
{
    for rule in more {
        rules.push(rule.copy(alloc)?)?;
    }
    Ok(())
}
