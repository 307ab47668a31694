//! The reader of objects, of functions and of whole texts.

ghost use Rattle.std.specs.Prelude.{◌≡◌, OnOk, IfOk, Ok, Err};
ghost use Rattle.nf_grammar.specs.Places.{Answers};
ghost use Rattle.nf_grammar.specs.declared.fault.Fault.{Fault};
ghost use Rattle.nf_grammar.specs.declared.fault.Halt.TheVariants as halt;
ghost use Rattle.nf_grammar.specs.inner.Parsers.{Reads};
ghost use Rattle.nf_cparse.specs.Grammar.{c_text_grammar};
ghost use Rattle.nf_cparse.specs.Reading.{limits};
ghost use Rattle.nf_cparse.specs.inner.Parsers.{TookWord, IsWithin};
ghost use Rattle.nf_cparse.specs.inner.ItemReading as spec;

use crate::expressions::named;
use crate::loops::declared;
use crate::reader::Reader;
use crate::statements::block;
use crate::symbol::Sym;
use crate::values::literal_of;
use crate::words::Words;
use nf_cast::{
    CForm, MOST_OPEN, MOST_OPERATORS, PlacedCells, PlacedFunc, PlacedItem, PlacedItemList,
    PlacedName, PlacedObject,
};
use nf_core::ListOf;
use nf_grammar::Halt;
use std::alloc::Global;

/// A parameter behind a comma.
fn next_param(alloc: Global, reader: &mut Reader<'_>) -> Result<PlacedName, Halt>
    ensures reads { Reads (spec.next_param reader.old) result reader.new }
    ensures within { IsWithin reader.old reader.new }
    ensures shorter { OnOk result (TookWord reader.old reader.new) }
{
    reader.skip(Sym::Comma)?;
    declared(alloc, reader)
}

/// Parameters with commas between them.
fn param_list(alloc: Global, reader: &mut Reader<'_>) -> Result<ListOf<PlacedName>, Halt>
    ensures reads { Reads (spec.param_list reader.old) result reader.new }
    ensures within { IsWithin reader.old reader.new }
{
    let first = declared(alloc, reader)?;
    let mut params = ListOf::new(alloc);
    params.push(first)?;
    'params: while reader.is_at(Sym::Comma) {
        let param = next_param(alloc, reader)?;
        params.push(param)?;
    }
    Ok(params)
}

/// The parameters of a function: `void`, where there are none.
#[tactic(auto, unfolding(crate::specs::inner::ItemReading::params, nf_grammar::specs::inner::Parsers::choose))]
fn params(alloc: Global, reader: &mut Reader<'_>) -> Result<ListOf<PlacedName>, Halt>
    ensures reads { Reads (spec.params reader.old) result reader.new }
    ensures within { IsWithin reader.old reader.new }
{
    if reader.is_at(Sym::Void) {
        reader.skip(Sym::Void)?;
        Ok(ListOf::new(alloc))
    } else {
        param_list(alloc, reader)
    }
}

/// The parameters of a function, between parentheses.
#[tactic(auto, unfolding(crate::specs::inner::ItemReading::closed_params))]
fn closed_params(alloc: Global, reader: &mut Reader<'_>) -> Result<ListOf<PlacedName>, Halt>
    ensures reads { Reads (spec.closed_params reader.old) result reader.new }
    ensures within { IsWithin reader.old reader.new }
{
    reader.skip(Sym::Open)?;
    let params = params(alloc, reader)?;
    reader.skip(Sym::Close)?;
    Ok(params)
}

/// The parameters and the body of a function, behind its name.
#[tactic(auto, unfolding(crate::specs::inner::ItemReading::func_behind))]
fn func_behind(
    alloc: Global,
    form: CForm,
    name: PlacedName,
    depth: usize,
    reader: &mut Reader<'_>,
) -> Result<PlacedItem, Halt>
    ensures reads { Reads (spec.func_behind depth form name reader.old) result reader.new }
    ensures within { IsWithin reader.old reader.new }
{
    let params = closed_params(alloc, reader)?;
    let (body, end) = block(alloc, depth, depth, reader)?;
    Ok(PlacedItem::Func(PlacedFunc {
        form,
        name,
        params,
        body,
        end,
    }))
}

/// A function, behind the words of its form.
#[tactic(auto, unfolding(crate::specs::inner::ItemReading::func))]
fn func(
    alloc: Global,
    form: CForm,
    depth: usize,
    reader: &mut Reader<'_>,
) -> Result<PlacedItem, Halt>
    ensures reads { Reads (spec.func depth form reader.old) result reader.new }
    ensures within { IsWithin reader.old reader.new }
{
    let name = named(alloc, reader)?;
    func_behind(alloc, form, name, depth, reader)
}

/// The number of an array's cells, between brackets.
#[tactic(auto, unfolding(crate::specs::inner::ItemReading::size))]
fn size(reader: &mut Reader<'_>) -> Result<PlacedCells, Halt>
    ensures reads { Reads (spec.size reader.old) result reader.new }
    ensures within { IsWithin reader.old reader.new }
{
    reader.skip(Sym::OpenBracket)?;
    let token = reader.take(Sym::Lit)?;
    reader.skip(Sym::CloseBracket)?;
    Ok(PlacedCells {
        line: token.line,
        count: literal_of(token.text),
    })
}

/// The number of an array's cells, where a bracket opens.
#[tactic(auto, unfolding(nf_grammar::specs::inner::Parsers::choose))]
fn cells(reader: &mut Reader<'_>) -> Result<Option<PlacedCells>, Halt>
    ensures reads { Reads (spec.cells reader.old) result reader.new }
    ensures within { IsWithin reader.old reader.new }
{
    if reader.is_at(Sym::OpenBracket) {
        Ok(Some(size(reader)?))
    } else {
        Ok(None)
    }
}

/// What stands behind the name of an object.
#[tactic(auto, unfolding(crate::specs::inner::ItemReading::object_behind))]
fn object_behind(name: PlacedName, reader: &mut Reader<'_>) -> Result<PlacedItem, Halt>
    ensures reads { Reads (spec.object_behind name reader.old) result reader.new }
    ensures within { IsWithin reader.old reader.new }
{
    let cells = cells(reader)?;
    reader.skip(Sym::Semicolon)?;
    Ok(PlacedItem::Object(PlacedObject { name, cells }))
}

/// What stands behind `static int64_t` and a name: a function where a parenthesis opens, else an object.
#[tactic(auto, unfolding(crate::specs::inner::ItemReading::behind_declared, nf_grammar::specs::inner::Parsers::choose))]
fn behind_declared(
    alloc: Global,
    name: PlacedName,
    depth: usize,
    reader: &mut Reader<'_>,
) -> Result<PlacedItem, Halt>
    ensures reads { Reads (spec.behind_declared depth name reader.old) result reader.new }
    ensures within { IsWithin reader.old reader.new }
{
    if reader.is_at(Sym::Open) {
        func_behind(alloc, CForm::StaticInt, name, depth, reader)
    } else {
        object_behind(name, reader)
    }
}

/// What stands behind `static`: a function where `void` comes next, else an object or a function.
#[tactic(auto, unfolding(crate::specs::inner::ItemReading::behind_static, nf_grammar::specs::inner::Parsers::choose))]
fn behind_static(alloc: Global, depth: usize, reader: &mut Reader<'_>) -> Result<PlacedItem, Halt>
    ensures reads { Reads (spec.behind_static depth reader.old) result reader.new }
    ensures within { IsWithin reader.old reader.new }
{
    if reader.is_at(Sym::Void) {
        reader.skip(Sym::Void)?;
        func(alloc, CForm::StaticVoid, depth, reader)
    } else {
        let name = declared(alloc, reader)?;
        behind_declared(alloc, name, depth, reader)
    }
}

/// An object or a function.
#[tactic(auto, unfolding(crate::specs::inner::ItemReading::item, nf_grammar::specs::inner::Parsers::choose))]
fn item(alloc: Global, depth: usize, reader: &mut Reader<'_>) -> Result<PlacedItem, Halt>
    ensures reads { Reads (spec.item depth reader.old) result reader.new }
    ensures within { IsWithin reader.old reader.new }
    ensures shorter { OnOk result (TookWord reader.old reader.new) }
{
    if reader.is_at(Sym::Static) {
        reader.skip(Sym::Static)?;
        behind_static(alloc, depth, reader)
    } else {
        reader.skip(Sym::Int64)?;
        func(alloc, CForm::Int, depth, reader)
    }
}

/// Objects and functions, up to the end of the words.
fn items(alloc: Global, depth: usize, reader: &mut Reader<'_>) -> Result<PlacedItemList, Halt>
    ensures reads { Reads (spec.items depth reader.old) result reader.new }
{
    let mut items = ListOf::new(alloc);
    'items: while reader.next().is_some() {
        let item = item(alloc, depth, reader)?;
        items.push(item)?;
    }
    Ok(items)
}

/// A parameter with this name.
#[tactic(auto, unfolding(crate::specs::inner::ItemReading::parameter))]
fn parameter(name: &[u8], reader: &mut Reader<'_>) -> Result<(), Halt>
    ensures reads { Reads (spec.parameter name.now reader.old) result reader.new }
    ensures within { IsWithin reader.old reader.new }
{
    reader.skip(Sym::Int64)?;
    reader.skip_name(name)
}

/// A parameter with this name, behind a comma.
#[tactic(auto, unfolding(crate::specs::inner::ItemReading::next_parameter))]
fn next_parameter(name: &[u8], reader: &mut Reader<'_>) -> Result<(), Halt>
    ensures reads { Reads (spec.next_parameter name.now reader.old) result reader.new }
    ensures within { IsWithin reader.old reader.new }
{
    reader.skip(Sym::Comma)?;
    parameter(name, reader)
}

/// The declaration of `nf_emit`, with which a text begins.
#[tactic(auto, unfolding(crate::specs::inner::ItemReading::declaration))]
fn declaration(reader: &mut Reader<'_>) -> Result<(), Halt>
    ensures reads { Reads (spec.declaration reader.old) result reader.new }
{
    reader.skip(Sym::Void)?;
    reader.skip_name(b"nf_emit")?;
    reader.skip(Sym::Open)?;
    parameter(b"sign", reader)?;
    next_parameter(b"name", reader)?;
    next_parameter(b"begin", reader)?;
    next_parameter(b"end", reader)?;
    reader.skip(Sym::Close)?;
    reader.skip(Sym::Semicolon)
}

/// A whole text.
#[tactic(auto, unfolding(crate::specs::inner::ItemReading::text))]
fn text(alloc: Global, depth: usize, reader: &mut Reader<'_>) -> Result<PlacedItemList, Halt>
    ensures reads { Reads (spec.text depth reader.old) result reader.new }
{
    declaration(reader)?;
    items(alloc, depth, reader)
}

/// The objects and functions of words that are a text (`c_text_grammar` in specs/Grammar.antt) within the
/// limits. Else the fault of the first word with which the words up to it are no front of a text within
/// them, told by how many words are left, that one counted: TooDeep where more words are a front under other
/// limits, else Grammar, which also comes, with 0 words left, where all words are a front and no text
/// (`Answers` in specs/Places.antt of nf_grammar). NoMemory comes where memory is wanted; then nothing is
/// left of the text. The stack is as deep as the blocks and the expressions of the text, which the limits
/// bound.
pub(crate) fn read_items(alloc: Global, words: Words<'_>) -> Result<PlacedItemList, Halt>
    ensures items { IfOk result (λ items. Answers c_text_grammar limits words.entry (Ok items)) }
    ensures refused { (at : Fault) → result ≡ Err (halt.At at)
        → Answers c_text_grammar limits words.entry (Err at) }
{
    let mut reader = Reader::new(words, MOST_OPERATORS);
    text(alloc, MOST_OPEN, &mut reader)
}
