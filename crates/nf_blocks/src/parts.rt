//! Parts of the blocks.

ghost use Rattle.std.specs.Prelude.{◌≡◌, ◌≤◌, length, take, drop};
ghost use Rattle.nf_blocks.specs.inner.Flat.{flat};
ghost use Rattle.nf_blocks.specs.inner.Places.{items_at};
ghost use Rattle.nf_blocks.specs.inner.Cuts.{index_of};

use crate::cuts::{Place, block_at};
use crate::walk::Walk;

/// The elements from a place up to another, none where that isn't behind it.
pub(crate) fn between<'a, T>(blocks: &'a [Vec<T>], start: Place, end: Place) -> Walk<'a, T>
    requires in_blocks { end.block ≤ length blocks.now }
    requires in_start { start.within ≤ length (items_at blocks.now start.block) }
    requires in_end { end.within ≤ length (items_at blocks.now end.block) }
    ensures { result
        ≡ drop (index_of blocks.now start) (take (index_of blocks.now end) (flat blocks.now)) }
{
    let first = block_at(blocks, start.block);
    let last = block_at(blocks, end.block);
    if start.block < end.block {
        let whole = &blocks[start.block + 1..end.block];
        Walk::of(&first[start.within..], whole, &last[..end.within])
    } else if start.block == end.block && start.within < end.within {
        Walk::of(&first[start.within..end.within], &[], &[])
    } else {
        Walk::of(&[], &[], &[])
    }
}
