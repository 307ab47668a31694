//! Cuts between the elements, and where they stand in the blocks.

ghost use Rattle.std.specs.Prelude.{◌≡◌, ◌≤◌, ℕ, true, false, not, length};
ghost use Rattle.std.specs.List.Sorted.{IsPartitionPoint};
ghost use Rattle.std.specs.declared.cmp.Ordering.{Ordering};
ghost use Rattle.std.specs.Range.Bound.{bound_map};
ghost use Rattle.std.specs.BTreeMap.Range.{is_from_start, is_past_end};
ghost use Rattle.nf_blocks.specs.inner.Flat.{AreBlocks};
ghost use Rattle.nf_blocks.specs.inner.Places.{last_passes, items_at};
ghost use Rattle.nf_blocks.specs.inner.Cuts.{is_left, IsPlace};

use std::ops::Bound;

/// A cut between the elements of a sorted list.
#[derive(Clone, Copy)]
pub(crate) enum Cut<'a, T> {
    First,
    Before(&'a T),
    Behind(&'a T),
    Last,
}

/// Where the first element behind a cut stands.
#[derive(Clone, Copy)]
pub(crate) struct Place {
    pub(crate) block: usize,
    pub(crate) within: usize,
}

impl<'a, T> Cut<'a, T> {
    /// The cut at which a range starts.
    pub(crate) fn at_start(bound: Bound<&'a T>) -> Cut<'a, T>
        ensures { (order : T → T → Ordering) (x : T) → is_left order result x
            ≡ not (is_from_start order (bound_map (λ v. v.now) bound.entry) x) }
    {
        match bound {
            Bound::Included(value) => Cut::Before(value),
            Bound::Excluded(value) => Cut::Behind(value),
            Bound::Unbounded => Cut::First,
        }
    }

    /// The cut at which a range ends.
    pub(crate) fn at_end(bound: Bound<&'a T>) -> Cut<'a, T>
        ensures { (order : T → T → Ordering) (x : T) → is_left order result x
            ≡ not (is_past_end order (bound_map (λ v. v.now) bound.entry) x) }
    {
        match bound {
            Bound::Included(value) => Cut::Behind(value),
            Bound::Excluded(value) => Cut::Before(value),
            Bound::Unbounded => Cut::Last,
        }
    }
}

/// The elements of a block, none where there is no such block.
pub(crate) fn block_at<T>(blocks: &[Vec<T>], block: usize) -> &[T]
    ensures { result.now ≡ items_at blocks.now block }
{
    match blocks.get(block) {
        Some(items) => items,
        None => &[],
    }
}

fn is_left<T: Ord>(cut: &Cut<'_, T>, item: &T) -> bool
    ensures { result ≡ is_left T.cmp cut.now item.now }
{
    match cut {
        Cut::First => false,
        Cut::Before(value) => T::cmp(value, item).is_gt(),
        Cut::Behind(value) => !T::cmp(value, item).is_lt(),
        Cut::Last => true,
    }
}

fn ends_left<T: Ord>(cut: &Cut<'_, T>, block: &[T]) -> bool
    ensures { result ≡ last_passes (is_left T.cmp cut.now) block.now }
{
    match block.last() {
        Some(last) => is_left(cut, last),
        None => true,
    }
}

/// The place of the first element behind a cut.
pub(crate) fn place_of<T: Ord>(blocks: &[Vec<T>], cut: &Cut<'_, T>) -> Place
    ensures in_blocks { result.block ≤ length blocks.now }
    ensures in_block { result.within ≤ length (items_at blocks.now result.block) }
    ensures place { (count : ℕ) → AreBlocks T.cmp blocks.now count
        → IsPlace (is_left T.cmp cut.now) blocks.now result }
{
    let block = block_behind(blocks, cut);
    let within = block_at(blocks, block).partition_point(
        |item: &T| -> bool
            ensures { result ≡ is_left T.cmp cut.entry.now item.now }
        { is_left(cut, item) },
    );
    Place { block, within }
}

/// The first block that doesn't end before a cut, as many as there are where each one does. The
/// last two are asked first: what comes in order of time mostly looks there.
fn block_behind<T: Ord>(blocks: &[Vec<T>], cut: &Cut<'_, T>) -> usize
    ensures bound { result ≤ length blocks.now }
    ensures parts { (count : ℕ) → AreBlocks T.cmp blocks.now count
        → IsPartitionPoint (λ b. last_passes (is_left T.cmp cut.now) b.items ≡ true)
        (λ b. last_passes (is_left T.cmp cut.now) b.items ≡ false) blocks.now result }
{
    let count = blocks.len();
    if count < 2 || !ends_left(cut, &blocks[count - 2]) {
        first_not_left(blocks, cut)
    } else if ends_left(cut, &blocks[count - 1]) {
        count
    } else {
        count - 1
    }
}

/// The first block that doesn't end before a cut, by a search of them all.
fn first_not_left<T: Ord>(blocks: &[Vec<T>], cut: &Cut<'_, T>) -> usize
    ensures bound { result ≤ length blocks.now }
    ensures parts { (count : ℕ) → AreBlocks T.cmp blocks.now count
        → IsPartitionPoint (λ b. last_passes (is_left T.cmp cut.now) b.items ≡ true)
        (λ b. last_passes (is_left T.cmp cut.now) b.items ≡ false) blocks.now result }
{
    blocks.partition_point(
        |block: &Vec<T>| -> bool
            ensures { result ≡ last_passes (is_left T.cmp cut.entry.now) block.now.items }
        { ends_left(cut, block) },
    )
}
