//! Calls of collections, one after the other.

use crate::answers::push_item;
use crate::given::number_of;
use crate::intervals::{cell_spelled, interval_of, interval_shown, push_interval, push_value};
use crate::stopped::{FORM, Stopped};
use nf_core::{Interval, IntervalList, IntervalSet, Levels, Lines, Row, TryCopy};
use std::alloc::Global;
use std::cmp::Ordering;

/// A collection whose calls rows ask for, each by its word and what it is called with.
pub trait Called {
    /// What comes of a call.
    fn answer(&mut self, alloc: Global, word: &str, text: &str) -> Result<String, Stopped>;
}

/// What comes of calls of a collection, one after the other.
pub fn call_answers<C: Called + Drop>(
    alloc: Global,
    collection: C,
    rows: &[&str],
) -> Result<Vec<String>, Stopped> {
    let mut collection = collection;
    let mut found = Vec::new(alloc);
    for row in rows {
        let (word, text) = row.split_once(' ').unwrap_or((row, ""));
        found.push(collection.answer(alloc, word, text)?)?;
    }
    Ok(found)
}

fn told(alloc: Global, word: &str) -> Result<String, Stopped> {
    Ok(String::from_str(alloc, word)?)
}

fn truth(alloc: Global, is_so: bool) -> Result<String, Stopped> {
    told(alloc, if is_so { "yes" } else { "no" })
}

/// `insert`, `remove` and `has` with an interval, and `walk`.
impl Called for IntervalSet {
    fn answer(&mut self, alloc: Global, word: &str, text: &str) -> Result<String, Stopped> {
        match word {
            "insert" => truth(alloc, self.insert(interval_of(alloc, text)?)?),
            "remove" => truth(alloc, self.remove(&interval_of(alloc, text)?)),
            "has" => truth(alloc, self.has(&interval_of(alloc, text)?)),
            "walk" => set_shown(alloc, self),
            _ => Err(FORM),
        }
    }
}

fn set_shown(alloc: Global, set: &IntervalSet) -> Result<String, Stopped> {
    let mut out = String::new(alloc);
    for interval in set.walk() {
        push_interval(alloc, &mut out, interval)?;
    }
    Ok(out)
}

/// `push` with an interval, `get` with a place, `len`, `empty`, and `copy`.
impl Called for IntervalList {
    fn answer(&mut self, alloc: Global, word: &str, text: &str) -> Result<String, Stopped> {
        match word {
            "push" => {
                self.push(interval_of(alloc, text)?)?;
                told(alloc, "ok")
            }
            "get" => match self.get(number_of(text)?) {
                Some(interval) => interval_shown(alloc, interval),
                None => told(alloc, "none"),
            },
            "len" => Ok(format!(in alloc; "{}", self.len())?),
            "empty" => truth(alloc, self.is_empty()),
            "copy" => list_shown(alloc, self.copy(alloc)?.as_slice()),
            _ => Err(FORM),
        }
    }
}

fn list_shown(alloc: Global, list: &[Interval]) -> Result<String, Stopped> {
    let mut out = String::new(alloc);
    for interval in list {
        push_interval(alloc, &mut out, interval)?;
    }
    Ok(out)
}

/// `push` with a cell, `get` with a place, `len`, and `copy`.
impl Called for Row {
    fn answer(&mut self, alloc: Global, word: &str, text: &str) -> Result<String, Stopped> {
        match word {
            "push" => {
                self.push(cell_spelled(alloc, text)?)?;
                told(alloc, "ok")
            }
            "get" => cell_shown(alloc, self, number_of(text)?),
            "len" => Ok(format!(in alloc; "{}", self.len())?),
            "copy" => cells_shown(alloc, &self.copy(alloc)?),
            _ => Err(FORM),
        }
    }
}

fn cell_shown(alloc: Global, cells: &Row, place: usize) -> Result<String, Stopped> {
    if place >= cells.len() {
        return Err(FORM);
    }
    let mut out = String::new(alloc);
    match cells.get(place) {
        Some(value) => push_value(&mut out, value)?,
        None => out.push_str("-")?,
    }
    Ok(out)
}

fn cells_shown(alloc: Global, cells: &Row) -> Result<String, Stopped> {
    let mut out = String::new(alloc);
    for place in 0..cells.len() {
        let cell = cell_shown(alloc, cells, place)?;
        push_item(&mut out, " ", cell.as_str())?;
    }
    Ok(out)
}

/// `add NAME LEVEL`, which answers `there` where the name has one, and `of NAME`.
impl Called for Levels {
    fn answer(&mut self, alloc: Global, word: &str, text: &str) -> Result<String, Stopped> {
        match word {
            "add" => add_level(alloc, self, text),
            "of" => match self.of(text) {
                Some(level) => Ok(format!(in alloc; "{level}")?),
                None => told(alloc, "none"),
            },
            _ => Err(FORM),
        }
    }
}

fn add_level(alloc: Global, levels: &mut Levels, text: &str) -> Result<String, Stopped> {
    let (name, level) = text.split_once(' ').ok_or(FORM)?;
    let level = level.parse::<u32>().map_err(|_| FORM)?;
    if levels.of(name).is_some() {
        return told(alloc, "there");
    }
    levels.add(name, level)?;
    told(alloc, "ok")
}

/// `push TEXT`, which answers all bytes that are there then.
impl Called for Lines {
    fn answer(&mut self, alloc: Global, word: &str, text: &str) -> Result<String, Stopped> {
        if word != "push" {
            return Err(FORM);
        }
        self.push(text.as_bytes())?;
        let all = str::from_utf8(self.as_slice()).map_err(|_| FORM)?;
        told(alloc, all)
    }
}

/// How two intervals, between ` & `, are ordered: `less`, `equal` or `greater`; and whether a copy of
/// the first one is equal to it.
pub fn order_answer(alloc: Global, row: &str) -> Result<String, Stopped> {
    let (first, second) = row.split_once(" & ").ok_or(FORM)?;
    let first = interval_of(alloc, first)?;
    let second = interval_of(alloc, second)?;
    if first.copy(alloc)? != first {
        return told(alloc, "another copy");
    }
    match first.cmp(&second) {
        Ordering::Less => told(alloc, "less"),
        Ordering::Equal if first == second => told(alloc, "equal"),
        Ordering::Equal => told(alloc, "equal, but other"),
        Ordering::Greater => told(alloc, "greater"),
    }
}
