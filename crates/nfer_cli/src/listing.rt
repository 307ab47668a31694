//! The canonical lines of rules by level.

ghost use Rattle.std.specs.Prelude.{◌≡◌, All, IfOk, map};
ghost use Rattle.nf_core.specs.Trees.{IsWritten};
ghost use Rattle.nfer_cli.specs.Listing.{by_level, listing};

use nf_core::{Levels, Lines, NoMemory, Rule, RuleList};
use nf_print::print;
use std::alloc::Global;

/// The canonical lines of rules that can be written, by the level of the head, those of one level in the
/// order of the rules (`listing` of specs/Listing.antt). NoMemory comes where memory is wanted.
pub(crate) fn listing(alloc: Global, rules: &RuleList, levels: &Levels) -> Result<Lines, NoMemory>
    requires { All IsWritten rules.now }
    ensures { IfOk result (λ lines. lines ≡ listing levels.now rules.now) }
{
    let ordered = rules_by_level(alloc, rules, levels)?;
    let mut lines = Lines::new(alloc);
    for rule in ordered.as_slice() {
        lines.push(print(alloc, rule)?.as_slice())?;
    }
    Ok(lines)
}

/// Rules by the level of the head, those of one level in their order.
fn rules_by_level<'a>(
    alloc: Global,
    rules: &'a RuleList,
    levels: &Levels,
) -> Result<Vec<&'a Rule>, NoMemory>
    ensures { IfOk result (λ ordered.
        map (λ rule. rule.now) ordered.items ≡ by_level levels.now rules.now) }
{
    let mut ordered = Vec::new(alloc);
    for rule in rules.as_slice() {
        ordered.push(rule)?;
    }
    ordered.sort_by_cached_key(|rule| levels.of(rule.head.as_str()).unwrap_or(0))?;
    Ok(ordered)
}
