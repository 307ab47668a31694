//! Made specifications: rules of all operators, with clauses, over names of several levels.

use crate::random::Random;
use crate::stopped::Stopped;
use std::alloc::Global;

// The names: three without rules, and then heads, whose bodies read names in front of them alone.
const NAMES: [&str; 8] = ["a", "b", "c", "h0", "h1", "h2", "h3", "h4"];

const WITHOUT_RULES: u32 = 3;

const HEADS: u32 = 5;

const OPERATORS: [&str; 8] = [
    "before", "meet", "during", "coincide", "start", "finish", "overlap", "slice",
];

const EXCLUSIVE: [&str; 3] = ["after", "follow", "contain"];

// What is asked of both members, and of one.
const OF_BOTH: [&str; 7] = [
    "",
    " where x.k = y.k",
    " where x.k < y.k",
    " where x.begin + 1 < y.end & x.j != y.j",
    " where !(x.j & y.j)",
    " where x.k = y.j | x.j = y.k",
    " where x.k + y.k > 0",
];

const OF_ONE: [&str; 4] = [
    "",
    " where x.k > 0",
    " where x.j",
    " where x.end - x.begin < 3",
];

// What is made of both members, and of one.
const MADE_OF_BOTH: [&str; 5] = [
    "",
    " map { k -> x.k, j -> y.j }",
    " map { k -> x.k + y.k }",
    " map { j -> y.begin - x.begin } end y.end + 2",
    " map { k -> y.k } begin x.begin - x.k",
];

const MADE_OF_ONE: [&str; 5] = [
    "",
    " map { k -> x.k }",
    " map { k -> x.j, j -> x.k }",
    " map { k -> x.k * 2 } end x.end + 2",
    " begin x.begin - x.k end x.end + 1",
];

/// A made specification of two to six rules.
pub fn made_rules(alloc: Global, random: &mut Random) -> Result<String, Stopped> {
    let mut text = String::new(alloc);
    for _ in 0..random.below(5).saturating_add(2) {
        text.push_str(made_rule(alloc, random)?.as_str())?;
    }
    Ok(text)
}

// A rule of some head, with a line's end behind it.
fn made_rule(alloc: Global, random: &mut Random) -> Result<String, Stopped> {
    let level = random.below(HEADS);
    let (head, first) = (head_of(level), body_name(level, random));
    match random.below(4) {
        0 => {
            let (asks, makes) = (one_of(&OF_ONE, random), one_of(&MADE_OF_ONE, random));
            Ok(format!(in alloc; "{head} :- x:{first}{asks}{makes}\n")?)
        }
        1 => {
            let (op, second) = (one_of(&EXCLUSIVE, random), body_name(level, random));
            let (asks, makes) = (one_of(&OF_BOTH, random), one_of(&MADE_OF_ONE, random));
            Ok(format!(in alloc; "{head} :- x:{first} unless {op} y:{second}{asks}{makes}\n")?)
        }
        _ => {
            let (op, second) = (one_of(&OPERATORS, random), body_name(level, random));
            let (asks, makes) = (one_of(&OF_BOTH, random), one_of(&MADE_OF_BOTH, random));
            Ok(format!(in alloc; "{head} :- x:{first} {op} y:{second}{asks}{makes}\n")?)
        }
    }
}

// The name of a head.
fn head_of(level: u32) -> &'static str {
    at(&NAMES, WITHOUT_RULES + level % HEADS)
}

// A name in front of a head.
fn body_name(level: u32, random: &mut Random) -> &'static str {
    at(&NAMES, random.below(WITHOUT_RULES + level % HEADS))
}

fn one_of(texts: &[&'static str], random: &mut Random) -> &'static str {
    let count = u32::try_from(texts.len()).unwrap_or(u32::MAX);
    at(texts, random.below(count))
}

// The text at a place, and the empty text past the last one.
fn at(texts: &[&'static str], place: u32) -> &'static str {
    texts.get(place as usize).copied().unwrap_or("")
}
