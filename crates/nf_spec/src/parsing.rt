//! The modules of a specification.

ghost use Rattle.std.specs.Prelude.{◌≡◌, ◌+◌, ◌≤◌, ◌<◌, ◌^◌, Ok, All, IfOk, IfErr, OnOk, length, take};
ghost use Rattle.nf_core.specs.Trees.{IsWritten};
ghost use Rattle.nf_parse.specs.Answers.{rules_in, size_of};
ghost use Rattle.nf_spec.specs.Sources.{AreParsed, total};
ghost use Rattle.nf_spec.specs.Specification.{refused_at};
ghost use Rattle.nf_spec.specs.inner.Parsing.{AreParsedTo, IsRefusal};

use crate::fault::SpecFault;
use nf_core::{Lines, Module, ModuleList};
use nf_parse::{ParseFault, parse};
use std::alloc::Global;

/// The modules of some sources, each parsed in turn, in order. The fault of the first source that is
/// refused, by its place, counted from 0 (`AreParsed` of specs/Sources.antt, `refused_at` of
/// specs/Specification.antt), or want of memory.
pub(crate) fn parse_sources(alloc: Global, sources: &[Lines]) -> Result<ModuleList, SpecFault>
    requires { length sources.now < 2 ^ 32 }
    ensures parsed { IfOk result (λ modules. AreParsed sources.now (Ok modules)) }
    ensures few { IfOk result (λ modules. size_of modules ≤ total sources.now) }
    ensures written { IfOk result (λ modules. All IsWritten (rules_in modules)) }
    ensures refused { IfErr result (IsRefusal sources.now) }
{
    let mut modules = Vec::new(alloc);
    'sources: for place in 0..sources.len() {
        add_modules(alloc, sources, place, &mut modules)?;
    }
    Ok(ModuleList::from_vec(modules))
}

/// Parses the source at a place, and puts its modules behind those of the sources before it.
fn add_modules(
    alloc: Global,
    sources: &[Lines],
    place: usize,
    modules: &mut Vec<Module>,
) -> Result<(), SpecFault>
    requires place { place < length sources.now }
    requires small { place < 2 ^ 32 }
    requires parsed { AreParsedTo sources.now place modules.old.items }
    requires few { size_of modules.old.items ≤ total (take place sources.now) }
    requires written { All IsWritten (rules_in modules.old.items) }
    ensures parsed { OnOk result (AreParsedTo sources.now (place + 1) modules.new.items) }
    ensures few { OnOk result (size_of modules.new.items ≤ total (take (place + 1) sources.now)) }
    ensures written { OnOk result (All IsWritten (rules_in modules.new.items)) }
    ensures refused { IfErr result (IsRefusal sources.now) }
{
    match parse(alloc, sources[place].as_slice()) {
        Ok(parsed) => {
            modules.append(&mut parsed.into_vec())?;
            Ok(())
        }
        Err(fault) => Err(refused_at(place as u32, fault)),
    }
}

/// The fault of a refused source, by its place among the sources.
fn refused_at(place: u32, fault: ParseFault) -> SpecFault
    ensures { result ≡ refused_at place fault }
{
    match fault {
        ParseFault::Lex(lexical) => SpecFault::Lex(place, lexical),
        ParseFault::Grammar(line) => SpecFault::Grammar(place, line),
        ParseFault::TooDeep(line) => SpecFault::TooDeep(place, line),
        ParseFault::NoMemory => SpecFault::NoMemory,
    }
}
