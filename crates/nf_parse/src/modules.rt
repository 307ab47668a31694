//! The reader of modules and of files.

ghost use Rattle.std.specs.Prelude.{◌≤◌, OnOk};
ghost use Rattle.nf_parse.specs.declared.symbol.Sym.TheVariants as sym;
ghost use Rattle.nf_grammar.specs.inner.Parsers.{Reads};
ghost use Rattle.nf_parse.specs.inner.Parsers.{TookWord, IsWithin, token};
ghost use Rattle.nf_parse.specs.inner.RuleReading as spec;

use crate::clauses::or_empty;
use crate::literals::name_of;
use crate::reader::Reader;
use crate::rules::{rules, run_of_rules};
use crate::symbol::Sym;
use nf_core::{MOST_OPERATORS, Module, ModuleList, Text, TextList};
use nf_grammar::Halt;
use std::alloc::Global;

/// A name.
fn name(alloc: Global, reader: &mut Reader<'_>) -> Result<Text, Halt>
    ensures reads { Reads (token sym.Ident reader.old) result reader.new }
    ensures within { IsWithin reader.old reader.new }
    ensures shorter { OnOk result (TookWord reader.old reader.new) }
{
    let word = reader.take(Sym::Ident)?;
    Ok(name_of(alloc, word)?)
}

/// A name behind a comma.
fn next_name(alloc: Global, reader: &mut Reader<'_>) -> Result<Text, Halt>
    ensures reads { Reads (spec.next_name reader.old) result reader.new }
    ensures within { IsWithin reader.old reader.new }
    ensures shorter { OnOk result (TookWord reader.old reader.new) }
{
    reader.skip(Sym::Comma)?;
    name(alloc, reader)
}

/// Names with commas between them.
fn name_list(alloc: Global, reader: &mut Reader<'_>) -> Result<TextList, Halt>
    ensures reads { Reads (spec.name_list reader.old) result reader.new }
    ensures within { IsWithin reader.old reader.new }
{
    let first = name(alloc, reader)?;
    let mut names = TextList::new(alloc);
    names.push(first)?;
    'names: while reader.is_at(Sym::Comma) {
        let name = next_name(alloc, reader)?;
        names.push(name)?;
    }
    Ok(names)
}

/// The names that a module imports.
#[tactic(auto, unfolding(crate::specs::inner::RuleReading::imports))]
fn imports(alloc: Global, reader: &mut Reader<'_>) -> Result<TextList, Halt>
    ensures reads { Reads (spec.imports reader.old) result reader.new }
    ensures within { IsWithin reader.old reader.new }
{
    reader.skip(Sym::Import)?;
    let names = name_list(alloc, reader)?;
    reader.skip(Sym::Semicolon)?;
    Ok(names)
}

/// The names that a module imports, where `import` comes next.
#[tactic(auto, unfolding(nf_grammar::specs::inner::Parsers::choose))]
fn optional_imports(alloc: Global, reader: &mut Reader<'_>) -> Result<Option<TextList>, Halt>
    ensures reads { Reads (spec.optional_imports reader.old) result reader.new }
    ensures within { IsWithin reader.old reader.new }
{
    if reader.is_at(Sym::Import) {
        Ok(Some(imports(alloc, reader)?))
    } else {
        Ok(None)
    }
}

/// A module with a name.
#[tactic(auto, unfolding(crate::specs::inner::RuleReading::module_word))]
fn module(alloc: Global, reader: &mut Reader<'_>) -> Result<Module, Halt>
    requires { reader.old.room ≤ MOST_OPERATORS }
    ensures reads { Reads (spec.module_word spec.limited reader.old) result reader.new }
    ensures within { IsWithin reader.old reader.new }
    ensures shorter { OnOk result (TookWord reader.old reader.new) }
{
    reader.skip(Sym::Module)?;
    let name = name(alloc, reader)?;
    reader.skip(Sym::OpenBrace)?;
    let imports = optional_imports(alloc, reader)?;
    let rules = rules(alloc, reader)?;
    reader.skip(Sym::CloseBrace)?;
    Ok(Module {
        name: Some(name),
        imports: or_empty(alloc, imports),
        rules,
    })
}

/// A module: the one that stands here, or the run of rules here.
#[tactic(auto, unfolding(nf_grammar::specs::inner::Parsers::choose, crate::specs::inner::RuleReading::part))]
fn part(alloc: Global, reader: &mut Reader<'_>) -> Result<Module, Halt>
    requires { reader.old.room ≤ MOST_OPERATORS }
    ensures reads { Reads (spec.part spec.limited reader.old) result reader.new }
    ensures within { IsWithin reader.old reader.new }
    ensures shorter { OnOk result (TookWord reader.old reader.new) }
{
    if reader.is_at(Sym::Ident) {
        run_of_rules(alloc, reader)
    } else {
        module(alloc, reader)
    }
}

/// The modules of a file, up to the end of the words.
pub(crate) fn file(alloc: Global, reader: &mut Reader<'_>) -> Result<ModuleList, Halt>
    requires { reader.old.room ≤ MOST_OPERATORS }
    ensures reads { Reads (spec.file spec.limited reader.old) result reader.new }
{
    let mut modules = ModuleList::new(alloc);
    'modules: while reader.next().is_some() {
        let module = part(alloc, reader)?;
        modules.push(module)?;
    }
    Ok(modules)
}
