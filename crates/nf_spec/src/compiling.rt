//! What a specification is compiled to.

ghost use Rattle.std.specs.Prelude.{◌<◌, ◌≤◌, ◌^◌, All, IfOk, length};
ghost use Rattle.std.specs.Option.{option_copied};
ghost use Rattle.nf_core.specs.Trees.{IsWritten};
ghost use Rattle.nf_parse.specs.Answers.{rules_in, size_of};
ghost use Rattle.nf_spec.specs.Sources.{specification_limit};
ghost use Rattle.nf_spec.specs.Specification.{HasIdentifiers, OrNoMemory, Specifies, SpecifiesFrom};

use crate::fault::SpecFault;
use crate::parsing::parse_sources;
use crate::selecting::{check_kinds, select_rules};
use crate::sources::SourceList;
use nf_core::{Levels, ModuleList, Plan, RuleList, trees_are_expressions};
use nf_order::levels;
use std::alloc::Global;

/// What a specification is compiled to (`IsCompiled` of specs/Specification.antt): the selected rules in
/// order, the levels of their names, and the plan of the rules of the plan, which are the selected ones.
#[derive(Drop)]
pub struct Compiled {
    pub plan: Plan,
    pub rules: RuleList,
    pub levels: Levels,
}

/// What the files of a specification are compiled to, under a root or without one: with a root the rules
/// of the module of that name and of those to which imports lead from it are selected, and without a
/// root all rules. There may be fewer than 2^32 files.
///
/// A refusal comes exactly where `Specifies` of specs/Specification.antt has it, in this order: TooLong
/// where all files together have more than 1,048,576 bytes; file by file, by its place counted from 0,
/// Lex, or else Grammar or TooDeep, with the line of the token where the file stops being one or of its end
/// (`IsRefused` of nf_parse); SameModule and NoModule; Kinds at the first selected rule, counted from 1,
/// whose kinds aren't right; Cycle at the first head that depends on itself. NoMemory may come from any
/// call. Every rule that is answered can be written, so that it can be printed, and every name of the
/// plan is an identifier, so none is wide.
#[tactic(auto, using(crate::proofs::SpecifiedLemmas::past_limit, crate::proofs::SpecifiedLemmas::no_modules, crate::proofs::SpecifiedLemmas::from_modules))]
pub fn compile(alloc: Global, files: &SourceList, root: Option<&str>) -> Result<Compiled, SpecFault>
    requires { length files.now < 2 ^ 32 }
    ensures specifies { OrNoMemory (Specifies files.now (option_copied root.entry)) result }
    ensures written { IfOk result (λ compiled. All IsWritten compiled.rules) }
    ensures identifiers { IfOk result (λ compiled. HasIdentifiers compiled.plan) }
{
    if files.are_too_long() {
        return Err(SpecFault::TooLong);
    }
    let modules = parse_sources(alloc, files.as_slice())?;
    compile_modules(alloc, &modules, root)
}

/// What modules are compiled to that have at most 1,048,576 rules and entries of maps together.
#[tactic(auto, using(crate::proofs::PlannedRuleLemmas::can_be_planned, crate::proofs::SpecifiedLemmas::no_selection, crate::proofs::SpecifiedLemmas::wrong_kinds, crate::proofs::SpecifiedLemmas::no_levels, crate::proofs::SpecifiedLemmas::all_compiled))]
fn compile_modules(
    alloc: Global,
    modules: &ModuleList,
    root: Option<&str>,
) -> Result<Compiled, SpecFault>
    requires few { size_of modules.now ≤ specification_limit }
    requires written { All IsWritten (rules_in modules.now) }
    ensures specifies { OrNoMemory (SpecifiesFrom modules.now (option_copied root.entry)) result }
    ensures written { IfOk result (λ compiled. All IsWritten compiled.rules) }
    ensures identifiers { IfOk result (λ compiled. HasIdentifiers compiled.plan) }
{
    trees_are_expressions();
    let rules = select_rules(alloc, modules, root)?;
    check_kinds(&rules)?;
    let levels = levels(alloc, &rules)?;
    let plan = Plan::build(alloc, &rules, &levels)?;
    Ok(Compiled {
        plan,
        rules,
        levels,
    })
}
