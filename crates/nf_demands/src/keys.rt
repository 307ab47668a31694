//! Equal keys of the two members.

ghost use Rattle.std.specs.Prelude.{◌≡◌, Option};
ghost use Rattle.std.specs.Option.{option_copied};
ghost use Rattle.nf_demands.specs.Keys.{cell_of, key_of, same_keys, keys_of_sides, keys_of};

use nf_core::{BinOp, Interval, Term, Value};

/// The cell of the first member at one place of its row and that of the second at another, places
/// counted from 0, are both there and are equal values (`AreSameKeys` of specs/Keys).
#[derive(Debug, Clone, Copy, PartialEq, Eq)]
pub struct SameKeys {
    pub first: u32,
    pub second: u32,
}

impl SameKeys {
    /// The value of the first member that has to be equal. None where it is missing.
    pub fn first_cell<'a>(&self, first: &'a Interval) -> Option<&'a Value>
        ensures { option_copied result ≡ cell_of first.now self.now.first }
    {
        cell(first, self.first)
    }

    /// The value of the second member that has to be equal. None where it is missing.
    pub fn second_cell<'a>(&self, second: &'a Interval) -> Option<&'a Value>
        ensures { option_copied result ≡ cell_of second.now self.now.second }
    {
        cell(second, self.second)
    }
}

// The value of a member at a place of its row. None where it is missing, and past the end.
fn cell(member: &Interval, place: u32) -> Option<&Value>
    ensures { option_copied result ≡ cell_of member.now place }
{
    let place = place as usize;
    if place < member.row.len() {
        member.row.get(place)
    } else {
        None
    }
}

/// The keys of the two members that a part says are equal (`keys_of` of specs/Keys).
#[tactic(auto, unfolding(crate::specs::Keys::keys_of, crate::specs::Keys::keys_at_node))]
pub(crate) fn same_keys(part: &Term) -> Option<SameKeys>
    ensures { result ≡ keys_of part.now }
{
    match part {
        Term::Bin(op, left, right) => of_sides(*op, key(left.get()), key(right.get())),
        _ => None,
    }
}

// The keys that an operator says are equal, from the keys that its sides are.
#[tactic(auto, unfolding(crate::specs::Keys::keys_of_sides))]
fn of_sides(op: BinOp, left: Option<(u8, u32)>, right: Option<(u8, u32)>) -> Option<SameKeys>
    ensures { result ≡ keys_of_sides op left right }
{
    match op {
        BinOp::Eq => of_keys(left?, right?),
        _ => None,
    }
}

// Two keys that are equal, where one is of the first member and the other of the second.
#[tactic(auto, unfolding(crate::specs::Keys::same_keys))]
fn of_keys(left: (u8, u32), right: (u8, u32)) -> Option<SameKeys>
    ensures { result ≡ same_keys left right }
{
    if left.0 == 0 && right.0 == 1 {
        Some(SameKeys {
            first: left.1,
            second: right.1,
        })
    } else if left.0 == 1 && right.0 == 0 {
        Some(SameKeys {
            first: right.1,
            second: left.1,
        })
    } else {
        None
    }
}

// The key that an expression is, where it is one: its member and its place.
#[tactic(auto, unfolding(crate::specs::Keys::key_of, crate::specs::Keys::key_at_node))]
fn key(term: &Term) -> Option<(u8, u32)>
    ensures { result ≡ key_of term.now }
{
    match term {
        Term::Key(member, place) => Some((*member, *place)),
        _ => None,
    }
}
