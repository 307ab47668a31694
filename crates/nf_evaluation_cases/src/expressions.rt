//! Values of expressions over one or two members.

ghost use Rattle.std.specs.Prelude.{◌≡◌, ◌+◌, OnOk};
ghost use Rattle.std.specs.Option.{option_copied};
ghost use Rattle.nf_core.specs.Expressions as spec;

use crate::intervals::{KEYS, interval_of};
use crate::stopped::{FORM, Stopped};
use nf_core::{Expr, Interval, NoMemory, Steps, Term, Text, TryCopy};
use nf_expr::{Seen, eval};
use nf_parse::parse;
use sqlite_items::Boxed;
use std::alloc::{AllocError, Global};
use std::marker::Brand;
use std::sync::ledger::{Blank, Ledger};

/// The value of the expression that a text spells, over the members `a` and `b`, of which the second
/// one may be missing; `none` where it is Undefined.
pub fn value_answer(
    alloc: Global,
    first: &str,
    second: &str,
    text: &str,
) -> Result<String, Stopped> {
    let first = interval_of(alloc, first)?;
    let source = format!(in alloc; "w :- a before b where {text}")?;
    let term = term_spelled(alloc, source.as_bytes())?;
    if second.is_empty() {
        return value_shown(alloc, &term, &first, None);
    }
    let second = interval_of(alloc, second)?;
    value_shown(alloc, &term, &first, Some(&second))
}

// The `where` of the first rule of a source, as a term.
fn term_spelled(alloc: Global, source: &[u8]) -> Result<Term, Stopped> {
    let modules = parse(alloc, source).map_err(|_| FORM)?;
    let rule = modules.get(0).and_then(|module| module.rules.get(0));
    let filter = rule.and_then(|rule| rule.filter.as_ref()).ok_or(FORM)?;
    term_of(alloc, filter)
}

// An expression over the labels `a` and `b` and the keys of cells, by number.
fn term_of(alloc: Global, x: &Expr) -> Result<Term, Stopped> {
    match x {
        Expr::Bool(b) => Ok(Term::Bool(*b)),
        Expr::Int(n) => Ok(Term::Int(*n)),
        Expr::Text(text) => Ok(Term::Text(text.copy(alloc)?)),
        Expr::Start(label) => Ok(Term::Start(member_of(label)?)),
        Expr::Stop(label) => Ok(Term::Stop(member_of(label)?)),
        Expr::Key(label, key) => Ok(Term::Key(member_of(label)?, place_of(key)?)),
        Expr::Neg(inner) => Ok(Term::Neg(Boxed::new(alloc, term_of(alloc, inner.get())?)?)),
        Expr::Not(inner) => Ok(Term::Not(Boxed::new(alloc, term_of(alloc, inner.get())?)?)),
        Expr::Bin(op, left, right) => {
            let left = Boxed::new(alloc, term_of(alloc, left.get())?)?;
            let right = Boxed::new(alloc, term_of(alloc, right.get())?)?;
            Ok(Term::Bin(*op, left, right))
        }
    }
}

fn member_of(label: &Text) -> Result<u8, Stopped> {
    match label.as_str() {
        "a" => Ok(0),
        "b" => Ok(1),
        _ => Err(FORM),
    }
}

fn place_of(key: &Text) -> Result<u32, Stopped> {
    let mut place = 0;
    for name in KEYS {
        if name == key.as_str() {
            return Ok(place);
        }
        place = place.saturating_add(1);
    }
    Err(FORM)
}

// The value of a term, with a counter that nobody else has.
fn value_shown(
    alloc: Global,
    term: &Term,
    first: &Interval,
    second: Option<&Interval>,
) -> Result<String, Stopped> {
    counted::<Brand>(alloc, term, first, second, Blank::new(1))
}

// The same, with the ledger of the counter.
fn counted<L: Ledger>(
    alloc: Global,
    term: &Term,
    first: &Interval,
    second: Option<&Interval>,
    blank: Blank,
) -> Result<String, Stopped>
    requires name { blank.name ≡ L.name }
    requires parts { blank.parts ≡ L.parts }
    requires one { L.parts ≡ 1 }
{
    let mut steps = Steps::<L>::new(blank);
    let seen = evaluated(term, first, second, &mut steps)?;
    Ok(seen_shown(alloc, seen)?)
}

// The value of a term that reads what is there, which raises the counter by one.
fn evaluated<'a, L: Ledger>(
    term: &'a Term,
    first: &'a Interval,
    second: Option<&'a Interval>,
    steps: &mut Steps<L>,
) -> Result<Option<Seen<'a>>, Stopped>
    ensures { OnOk result (steps.new ≡ steps.old + 1) }
{
    if !may_be_read(term, first, second) {
        return Err(FORM);
    }
    Ok(eval(term, first, second, steps))
}

/// Whether a term reads members that are there, and cells that they have.
#[tactic(auto, unfolding(nf_core::specs::Expressions::reads_within, nf_core::specs::Expressions::reads_within_node, nf_core::specs::Expressions::member))]
pub fn may_be_read(term: &Term, first: &Interval, second: Option<&Interval>) -> bool
    ensures { result
        ≡ spec.reads_within (spec.widths_of first.now (option_copied second.entry)) term.now }
{
    match term {
        Term::Bool(_) | Term::Int(_) | Term::Text(_) => true,
        Term::Start(number) | Term::Stop(number) => member(first, second, *number).is_some(),
        Term::Key(number, place) => match member(first, second, *number) {
            Some(interval) => (*place as usize) < interval.row.len(),
            None => false,
        },
        Term::Neg(operand) | Term::Not(operand) => may_be_read(operand.get(), first, second),
        Term::Bin(_, left, right) => {
            may_be_read(left.get(), first, second) && may_be_read(right.get(), first, second)
        }
    }
}

// The member with a number.
#[tactic(auto, unfolding(nf_core::specs::Expressions::member))]
fn member<'a>(first: &'a Interval, second: Option<&'a Interval>, number: u8) -> Option<&'a Interval>
    ensures { option_copied result
        ≡ spec.member first.now (option_copied second.entry) number }
{
    match number {
        0 => Some(first),
        1 => second,
        _ => None,
    }
}

fn seen_shown(alloc: Global, seen: Option<Seen<'_>>) -> Result<String, AllocError> {
    match seen {
        None => format!(in alloc; "none"),
        Some(Seen::Bool(b)) => format!(in alloc; "{b}"),
        Some(Seen::Int(n)) => format!(in alloc; "{n}"),
        Some(Seen::Text(text)) => format!(in alloc; "'{}'", text.as_str()),
    }
}
