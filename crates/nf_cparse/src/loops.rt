//! The reader of the headers of loops.

ghost use Rattle.std.specs.Prelude.{OnOk};
ghost use Rattle.nf_grammar.specs.inner.Parsers.{Reads};
ghost use Rattle.nf_cparse.specs.inner.Parsers.{TookWord, IsWithin};
ghost use Rattle.nf_cparse.specs.inner.StatementReading as spec;

use crate::expressions::named;
use crate::reader::Reader;
use crate::symbol::Sym;
use crate::values::literal_of;
use nf_cast::{PlacedBound, PlacedName};
use nf_grammar::Halt;
use std::alloc::Global;

/// A name behind `int64_t`.
#[tactic(auto, unfolding(crate::specs::inner::StatementReading::declared))]
pub(crate) fn declared(alloc: Global, reader: &mut Reader<'_>) -> Result<PlacedName, Halt>
    ensures reads { Reads (spec.declared reader.old) result reader.new }
    ensures within { IsWithin reader.old reader.new }
    ensures shorter { OnOk result (TookWord reader.old reader.new) }
{
    reader.skip(Sym::Int64)?;
    named(alloc, reader)
}

/// The bound of a loop: a literal or a name.
#[tactic(auto, unfolding(crate::specs::inner::StatementReading::bound_of, nf_grammar::specs::inner::Parsers::choose))]
fn bound_of(alloc: Global, reader: &mut Reader<'_>) -> Result<PlacedBound, Halt>
    ensures reads { Reads (spec.bound_of reader.old) result reader.new }
    ensures within { IsWithin reader.old reader.new }
{
    if reader.is_at(Sym::Lit) {
        let token = reader.take(Sym::Lit)?;
        Ok(PlacedBound::Lit(literal_of(token.text)))
    } else {
        Ok(PlacedBound::Name(named(alloc, reader)?))
    }
}

/// The first part of a header, which declares the loop's name.
#[tactic(auto, unfolding(crate::specs::inner::StatementReading::header_start))]
pub(crate) fn header_start(alloc: Global, reader: &mut Reader<'_>) -> Result<PlacedName, Halt>
    ensures reads { Reads (spec.header_start reader.old) result reader.new }
    ensures within { IsWithin reader.old reader.new }
{
    let name = declared(alloc, reader)?;
    reader.skip(Sym::Equal)?;
    reader.skip_value(0)?;
    reader.skip(Sym::Semicolon)?;
    Ok(name)
}

/// The second part of a header: the name that is compared, and the bound.
#[tactic(auto, unfolding(crate::specs::inner::StatementReading::header_test))]
pub(crate) fn header_test(
    alloc: Global,
    reader: &mut Reader<'_>,
) -> Result<(PlacedName, PlacedBound), Halt>
    ensures reads { Reads (spec.header_test reader.old) result reader.new }
    ensures within { IsWithin reader.old reader.new }
{
    let tested = named(alloc, reader)?;
    reader.skip(Sym::Less)?;
    let bound = bound_of(alloc, reader)?;
    reader.skip(Sym::Semicolon)?;
    Ok((tested, bound))
}

/// The third part of a header: the name that is set, and the one that is counted up.
#[tactic(auto, unfolding(crate::specs::inner::StatementReading::header_step))]
pub(crate) fn header_step(
    alloc: Global,
    reader: &mut Reader<'_>,
) -> Result<(PlacedName, PlacedName), Halt>
    ensures reads { Reads (spec.header_step reader.old) result reader.new }
    ensures within { IsWithin reader.old reader.new }
{
    let set = named(alloc, reader)?;
    reader.skip(Sym::Equal)?;
    let counted = named(alloc, reader)?;
    reader.skip(Sym::Plus)?;
    reader.skip_value(1)?;
    Ok((set, counted))
}
