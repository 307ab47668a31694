//! The first breach of a C text: what its objects and functions ask (specs/Rules.antt).

ghost use Rattle.std.specs.Prelude.{◌≡◌, nat_abs, length, map, IfOk, OnOk};
ghost use Rattle.nf_cast.specs.Book.{steps, has_interface};
ghost use Rattle.nf_cast.specs.Rules.{object_rules, param_rules, is_static, is_void, fits_outside, brace_rules, func_rules, item_rules, breach_of};

use crate::book::Book;
use crate::objects::CForm;
use crate::placed::{PlacedFunc, PlacedItem, PlacedName, PlacedObject};
use crate::rules::{Breach, CRule, Global, Local, Needs};
use crate::seen::{has_cells, has_func};
use nf_core::{NoMemory, Text};
use std::alloc::Global as Memory;

/// Whether a function is static.
#[tactic(auto, unfolding(crate::specs::Rules::is_static))]
fn is_static(form: CForm) -> bool
    ensures { result ≡ is_static form }
{
    match form {
        CForm::StaticVoid | CForm::StaticInt => true,
        CForm::Int => false,
    }
}

/// Whether a function gives no value.
#[tactic(auto, unfolding(crate::specs::Rules::is_void))]
fn is_void(form: CForm) -> bool
    ensures { result ≡ is_void form }
{
    match form {
        CForm::StaticVoid => true,
        CForm::StaticInt | CForm::Int => false,
    }
}

/// Whether a function of this name may stand outside as it does: `nf_event` isn't static and has its
/// number of parameters, and every other function is static.
#[tactic(auto, unfolding(crate::specs::Rules::fits_outside))]
fn fits_outside(needs: &Needs, form: CForm, name: &Text, params: u64) -> bool
    ensures { result ≡ fits_outside needs.now form name.now params }
{
    if name.as_str() == "nf_event" {
        !is_static(form) && params == needs.params
    } else {
        is_static(form)
    }
}

impl Book {
    /// Asks what an object asks, and makes it visible.
    #[tactic(auto, unfolding(crate::specs::Rules::object_rules))]
    fn object(&mut self, memory: Memory, object: &PlacedObject) -> Result<(), NoMemory>
        ensures { OnOk result (self.new ≡ object_rules object.now.name object.now.cells self.old) }
    {
        self.fresh(&object.name);
        match object.cells {
            None => {
                self.take_room(object.name.line, 1);
                self.publish(memory, &object.name.name, Global::Scalar)
            }
            Some(cells) => {
                let count = cells.count.unsigned_abs();
                self.take_room(cells.line, count);
                self.publish(memory, &object.name.name, Global::Array(count))
            }
        }
    }

    /// Asks what parameters ask, and makes them visible.
    fn params(&mut self, memory: Memory, params: &[PlacedName]) -> Result<(), NoMemory>
        ensures { OnOk result (self.new ≡ steps (map param_rules params.now) self.old) }
    {
        for param in params {
            self.fresh(param);
            self.declare(memory, &param.name, Local::Plain)?;
        }
        Ok(())
    }

    /// Asks that a function that gives a value ends with a return.
    fn brace(&mut self, line: u64)
        ensures { self.new ≡ brace_rules line self.old }
    {
        let met = self.is_void() || self.is_ended();
        self.demand(line, CRule::Return, met);
    }

    /// Asks what a function asks, and makes it visible.
    #[tactic(auto, unfolding(crate::specs::Rules::func_rules))]
    fn func(&mut self, memory: Memory, needs: &Needs, func: &PlacedFunc) -> Result<(), NoMemory>
        ensures { OnOk result (self.new ≡ func_rules needs.now func.now self.old) }
    {
        let count = func.params.len() as u64;
        self.fresh(&func.name);
        let met = fits_outside(needs, func.form, &func.name.name, count);
        self.demand(func.name.line, CRule::Interface, met);
        self.enter(is_void(func.form));
        self.params(memory, func.params.as_slice())?;
        self.block(memory, &func.body)?;
        self.brace(func.end);
        self.leave(memory, &func.name.name, count)
    }

    /// Asks what an object or a function asks.
    #[tactic(auto, unfolding(crate::specs::Rules::item_rules))]
    fn item(&mut self, memory: Memory, needs: &Needs, item: &PlacedItem) -> Result<(), NoMemory>
        ensures { OnOk result (self.new ≡ item_rules needs.now item.now self.old) }
    {
        match item {
            PlacedItem::Object(object) => self.object(memory, object),
            PlacedItem::Func(func) => self.func(memory, needs, func),
        }
    }

    /// Asks what objects and functions ask, one after the other.
    fn items(&mut self, memory: Memory, needs: &Needs, items: &[PlacedItem]) -> Result<(), NoMemory>
        ensures { OnOk result (self.new ≡ steps (map (item_rules needs.now) items.now) self.old) }
    {
        for item in items {
            self.item(memory, needs, item)?;
        }
        Ok(())
    }

    /// Whether `nf_event` is a function, and `nf_in` and `nf_out` are arrays that are large enough.
    #[tactic(auto, unfolding(crate::specs::Book::has_interface))]
    fn has_interface(&self, memory: Memory, needs: &Needs) -> Result<bool, NoMemory>
        ensures { IfOk result (λ has. has ≡ has_interface needs.now self.now) }
    {
        let event = self.global(&Text::new(memory, "nf_event")?);
        let input = self.global(&Text::new(memory, "nf_in")?);
        let output = self.global(&Text::new(memory, "nf_out")?);
        let arrays = has_cells(needs.input, input) && has_cells(needs.output, output);
        Ok(has_func(event) && arrays)
    }
}

/// The first rule that a text breaks, and the line of the token where it is (`breach_of` in
/// specs/Rules.antt). `last` is the line on which the text ends, counted from 1. It is one pass over the
/// trees, and each name is looked up a few times, whatever the number of names. NoMemory comes where memory
/// is wanted, which holds the names that are visible; then nothing is left. The stack that it takes is as
/// deep as the blocks and the expressions of the text.
#[tactic(auto, unfolding(crate::specs::Rules::breach_of))]
pub fn first_breach(
    alloc: Memory,
    needs: Needs,
    last: u64,
    items: &[PlacedItem],
) -> Result<Option<Breach>, NoMemory>
    ensures { IfOk result (λ breach. breach ≡ breach_of needs last items.now) }
{
    let mut book = Book::new(alloc)?;
    book.items(alloc, &needs, items)?;
    let met = book.has_interface(alloc, &needs)?;
    book.demand(last, CRule::Interface, met);
    Ok(book.first())
}
