//! The rules that are selected, and their kinds.

ghost use Rattle.std.specs.Prelude.{◌≡◌, ◌≤◌, Ok, None, All, IfOk, IfErr, OnOk, length};
ghost use Rattle.std.specs.Option.{option_copied};
ghost use Rattle.nf_core.specs.Kinds.{AreKindsRight};
ghost use Rattle.nf_core.specs.Trees.{IsRule, IsWritten};
ghost use Rattle.nf_modules.specs.Selection.{Selects};
ghost use Rattle.nf_parse.specs.Answers.{rules_in, size_of};
ghost use Rattle.nf_spec.specs.Sources.{specification_limit};
ghost use Rattle.nf_spec.specs.Specification.{kind_fault};
ghost use Rattle.nf_spec.specs.inner.Selecting.{size_of_rules, IsUnselected, IsWrongKind};

use crate::fault::SpecFault;
use nf_core::{ModuleList, RuleList};
use nf_modules::select;
use nf_typing::check_rule;
use std::alloc::Global;

/// The rules that are selected from modules which have at most 1,048,576 rules and entries of maps
/// together, or the fault of the selection.
#[tactic(auto, using(crate::proofs::SelectedRuleLemmas::selected_here, crate::proofs::SelectedRuleLemmas::selected_few, crate::proofs::SelectedRuleLemmas::selected_all, crate::proofs::SelectedRuleLemmas::unselected_here))]
pub(crate) fn select_rules(
    alloc: Global,
    modules: &ModuleList,
    root: Option<&str>,
) -> Result<RuleList, SpecFault>
    requires few { size_of modules.now ≤ specification_limit }
    requires written { All IsWritten (rules_in modules.now) }
    ensures selects { IfOk result (λ rs. Selects modules.now (option_copied root.entry) (Ok rs)) }
    ensures few { IfOk result (λ rules. size_of_rules rules ≤ specification_limit) }
    ensures written { IfOk result (All IsWritten) }
    ensures err { IfErr result (IsUnselected modules.now (option_copied root.entry)) }
{
    Ok(select(alloc, modules, root)?)
}

/// Refuses rules of which one has kinds that aren't right, with the first such rule, counted from 1, and
/// its first fault.
pub(crate) fn check_kinds(rules: &RuleList) -> Result<(), SpecFault>
    requires { length rules.now ≤ specification_limit }
    ensures ok { OnOk result (kind_fault rules.now ≡ None) }
    ensures right { OnOk result (All AreKindsRight rules.now) }
    ensures limits { OnOk result (All IsRule rules.now) }
    ensures err { IfErr result (IsWrongKind rules.now) }
{
    'rules: for (place, rule) in rules.as_slice().iter().enumerate() {
        // A rule's limits are known where one of its fields is read.
        let _head = &rule.head;
        if let Err(why) = check_rule(rule) {
            return Err(SpecFault::Kinds(place as u32 + 1, why));
        }
    }
    Ok(())
}
