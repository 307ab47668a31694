//! Walks over a set.

ghost use Rattle.std.specs.Prelude.{◌≡◌, ◌++◌};
ghost use Rattle.nf_blocks.specs.inner.Flat.{flat};
ghost use Rattle.std.specs.Iterator.{YieldsFirstRef, YieldsLastRef, item_count};

use std::marker::Model;
use std::slice;

/// Walks a part of a sorted list as borrows, ascending, from either end. Contracts see the elements
/// that are left.
#[derive(Drop)]
pub struct Walk<'a, T> {
    front: slice::Iter<'a, T>,
    blocks: slice::Iter<'a, Vec<T>>,
    back: slice::Iter<'a, T>,
}

impl<'a, T> Model for Walk<'a, T> {
    ghost use Rattle.std.specs.Prelude.{List};

    ghost Value = { List T };

    ghost use Rattle.std.specs.Prelude.{◌++◌};
    ghost use Rattle.std.specs.Slice.Iter.{iter_rest};
    ghost use Rattle.nf_blocks.specs.inner.Flat.{flat};

    ghost view = { λ w. iter_rest w.front ++ (flat (iter_rest w.blocks) ++ iter_rest w.back) };
}

impl<'a, T> Walk<'a, T> {
    // The elements of a block's end, of whole blocks, and of a block's start.
    pub(crate) fn of(front: &'a [T], blocks: &'a [Vec<T>], back: &'a [T]) -> Walk<'a, T>
        ensures { result ≡ front.now ++ (flat blocks.now ++ back.now) }
    {
        Walk {
            front: front.iter(),
            blocks: blocks.iter(),
            back: back.iter(),
        }
    }
}

impl<'a, T> Iterator for Walk<'a, T> {
    type Item = &'a T;

    ghost next_gives = { YieldsFirstRef (λ w. w) };

    ghost remaining = { item_count (λ w. w) };

    fn next(&mut self) -> Option<&'a T> {
        loop {
            if let Some(item) = self.front.next() {
                return Some(item);
            }
            match self.blocks.next() {
                Some(block) => self.front = block.iter(),
                None => return self.back.next(),
            }
        }
    }
}

impl<'a, T> DoubleEndedIterator for Walk<'a, T> {
    ghost next_back_gives = { YieldsLastRef (λ w. w) };

    fn next_back(&mut self) -> Option<&'a T> {
        loop {
            if let Some(item) = self.back.next_back() {
                return Some(item);
            }
            match self.blocks.next_back() {
                Some(block) => self.back = block.iter(),
                None => return self.front.next_back(),
            }
        }
    }
}
