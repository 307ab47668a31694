//! The set.

ghost use Rattle.std.specs.Prelude.{◌≡◌, [], ◌∷◌, length, not, filter, IfSome, IfNone, IfOk, IfErr, OnOk, OnErr};
ghost use Rattle.std.specs.declared.cmp.Ordering.TheVariants.{Equal};
ghost use Rattle.std.specs.Option.{is_some};
ghost use Rattle.std.specs.List.Sorted.{IsStrictlySortedBy};
ghost use Rattle.std.specs.BTreeSet.{insert_key};
ghost use Rattle.std.specs.BTreeMap.Range.{range_contains};
ghost use Rattle.nf_blocks.specs.Blocks.{has, removed};

use crate::cuts::{Cut, block_at, place_of};
use crate::parts::between;
use crate::walk::Walk;
use crate::{filling, removing};
use std::alloc::{AllocFailed, Global};
use std::marker::Model;
use std::ops::RangeBounds;

/// A sorted list, each element once. Contracts see that list.
#[derive(Debug, Drop)]
pub struct BlockSet<T: Ord> {
    alloc: Global,
    blocks: Vec<Vec<T>>,
    len: usize,
}

impl<T: Ord> Model for BlockSet<T> {
    ghost use Rattle.std.specs.Prelude.{List};

    ghost Value = { List T };

    ghost use Rattle.nf_blocks.specs.inner.Flat.{flat, AreBlocks};

    ghost view = { λ s. flat s.blocks.items };

    ghost invariant = { λ s. AreBlocks T.cmp s.blocks.items s.len };
}

impl<T: Ord> BlockSet<T> {
    /// The set without elements. Takes no memory.
    pub fn new(alloc: Global) -> BlockSet<T>
        ensures { result ≡ [] }
    {
        BlockSet {
            alloc,
            blocks: Vec::new(alloc),
            len: 0,
        }
    }

    /// How many elements there are. Takes no memory.
    pub fn len(&self) -> usize
        ensures { result ≡ length self.now }
    {
        self.len
    }

    /// Adds an element, and answers whether it wasn't there. Where memory is wanted the set stays
    /// as it was, and the element comes back.
    pub fn insert(&mut self, value: T) -> Result<bool, AllocFailed<T>>
    where
        T: Drop,
        ensures added { IfOk result (λ added. added ≡ not (has T.cmp self.old value)) }
        ensures ok { OnOk result (self.new ≡ insert_key T.cmp self.old value) }
        ensures err { OnErr result (self.new ≡ self.old) }
        ensures back { IfErr result (λ failed. failed.value ≡ value) }
        ensures sorted { IsStrictlySortedBy T.cmp self.new }
        ensures was_sorted { IsStrictlySortedBy T.cmp self.old }
    {
        if self.len == usize::MAX {
            return Err(AllocFailed { value });
        }
        let added = filling::add(self.alloc, &mut self.blocks, value)?;
        if added {
            self.len += 1;
        }
        Ok(added)
    }

    /// Takes an element away and answers it, None where it wasn't there. Takes no memory.
    pub fn take(&mut self, value: &T) -> Option<T>
        ensures found { is_some result ≡ has T.cmp self.old value.now }
        ensures itself { IfSome result (λ taken. T.cmp value.now taken ≡ Equal) }
        ensures rest { self.new ≡ removed T.cmp value.now self.old }
        ensures sorted { IsStrictlySortedBy T.cmp self.new }
        ensures was_sorted { IsStrictlySortedBy T.cmp self.old }
    {
        let taken = removing::take(&mut self.blocks, value);
        if taken.is_some() {
            self.len -= 1;
        }
        taken
    }

    /// Takes an element away, and answers whether it was there. Takes no memory.
    pub fn remove(&mut self, value: &T) -> bool
    where
        T: Drop,
        ensures found { result ≡ has T.cmp self.old value.now }
        ensures rest { self.new ≡ removed T.cmp value.now self.old }
        ensures sorted { IsStrictlySortedBy T.cmp self.new }
        ensures was_sorted { IsStrictlySortedBy T.cmp self.old }
    {
        self.take(value).is_some()
    }

    /// Takes the first element away and answers it, None where there is none. Takes no memory.
    pub fn pop_first(&mut self) -> Option<T>
        ensures first { IfSome result (λ x. self.old ≡ x ∷ self.new) }
        ensures none { IfNone result (self.old ≡ []) }
        ensures empty { IfNone result (self.new ≡ []) }
        ensures sorted { IsStrictlySortedBy T.cmp self.new }
        ensures was_sorted { IsStrictlySortedBy T.cmp self.old }
    {
        if self.blocks.is_empty() {
            return None;
        }
        self.len -= 1;
        Some(removing::take_at(&mut self.blocks, 0, 0))
    }

    /// Whether an element is in the set. Takes no memory.
    pub fn contains(&self, value: &T) -> bool
        ensures { result ≡ has T.cmp self.now value.now }
    {
        let at = place_of(&self.blocks, &Cut::Before(value));
        match block_at(&self.blocks, at.block).get(at.within) {
            Some(found) => value.cmp(found).is_eq(),
            None => false,
        }
    }

    /// The elements, as borrowed, ascending, from either end. Takes no memory.
    pub fn iter(&self) -> Walk<'_, T>
        ensures items { result ≡ self.now }
        ensures sorted { IsStrictlySortedBy T.cmp self.now }
    {
        Walk::of(&[], &self.blocks, &[])
    }

    /// The elements between two bounds, as borrowed, ascending, from either end. Takes no memory.
    pub fn range<R: RangeBounds<T> + Drop>(&self, range: R) -> Walk<'_, T>
        ensures between { R.has_bounds range → result ≡ filter
            (range_contains T.cmp (R.start_bound range) (R.end_bound range)) self.now }
        ensures sorted { IsStrictlySortedBy T.cmp self.now }
    {
        let start = place_of(&self.blocks, &Cut::at_start(range.start_bound()));
        let end = place_of(&self.blocks, &Cut::at_end(range.end_bound()));
        between(&self.blocks, start, end)
    }
}
