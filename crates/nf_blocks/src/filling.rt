//! New elements in the blocks.

ghost use Rattle.std.specs.Prelude.{◌≡◌, ◌+◌, ◌<◌, ◌≤◌, [], ◌∷◌, ◌++◌, not, length, IfOk, IfErr, OnOk, OnErr, if◌then◌else◌};
ghost use Rattle.std.specs.List.{insert};
ghost use Rattle.std.specs.BTreeSet.{insert_key};
ghost use Rattle.std.specs.Vec.{vec_len};
ghost use Rattle.nf_blocks.specs.Blocks.{has};
ghost use Rattle.nf_blocks.specs.inner.Flat.{flat};
ghost use Rattle.nf_blocks.specs.inner.Places.{items_at, start_of, AreFilled, AreSorted};

use crate::search::block_of;
use std::alloc::{AllocError, AllocFailed, Global};

/// How many elements a block has at most.
const MOST: usize = 64;

/// For how many elements the first block has room at first.
const FEW: usize = 4;

/// Adds an element, and answers whether it wasn't there.
pub(crate) fn add<T: Ord + Drop>(
    alloc: Global,
    blocks: &mut Vec<Vec<T>>,
    value: T,
) -> Result<bool, AllocFailed<T>>
    requires { AreSorted T.cmp blocks.old.items }
    ensures added { IfOk result (λ added. added ≡ not (has T.cmp (flat blocks.old.items) value)) }
    ensures ok { OnOk result (flat blocks.new.items
        ≡ insert_key T.cmp (flat blocks.old.items) value) }
    ensures err { OnErr result (flat blocks.new.items ≡ flat blocks.old.items) }
    ensures back { IfErr result (λ failed. failed.value ≡ value) }
    ensures filled { AreFilled blocks.new.items }
    ensures grown { IfOk result (λ added. length (flat blocks.new.items)
        ≡ length (flat blocks.old.items) + (if added then 1 else 0)) }
{
    if blocks.is_empty() {
        add_block(alloc, blocks, FEW, value)?;
        return Ok(true);
    }
    let at = block_of(blocks, &value);
    match blocks[at].binary_search(&value) {
        Ok(_) => Ok(false),
        Err(place) => {
            put(alloc, blocks, at, place, value)?;
            Ok(true)
        }
    }
}

/// Puts an element at a place of a block, or into a block of its own behind the last one.
fn put<T: Drop>(
    alloc: Global,
    blocks: &mut Vec<Vec<T>>,
    at: usize,
    place: usize,
    value: T,
) -> Result<(), AllocFailed<T>>
    requires in_blocks { at < vec_len blocks.old }
    requires in_block { place ≤ length (items_at blocks.old.items at) }
    requires filled { AreFilled blocks.old.items }
    ensures ok { OnOk result (flat blocks.new.items
        ≡ insert (flat blocks.old.items) (start_of blocks.old.items at + place) value) }
    ensures err { OnErr result (flat blocks.new.items ≡ flat blocks.old.items) }
    ensures back { IfErr result (λ failed. failed.value ≡ value) }
    ensures filled { AreFilled blocks.new.items }
{
    let count = blocks[at].len();
    if count < MOST {
        return put_in(blocks, at, place, value);
    }
    if at + 1 == blocks.len() && place == count {
        return add_block(alloc, blocks, MOST, value);
    }
    if split(blocks, at).is_err() {
        return Err(AllocFailed { value });
    }
    put_in_half(blocks, at, place, value)
}

/// Puts an element at a place of two blocks, the second of which goes on where the first ends.
fn put_in_half<T>(
    blocks: &mut Vec<Vec<T>>,
    at: usize,
    place: usize,
    value: T,
) -> Result<(), AllocFailed<T>>
    requires in_blocks { at + 1 < vec_len blocks.old }
    requires in_block { place ≤ length (items_at blocks.old.items at)
        + length (items_at blocks.old.items (at + 1)) }
    requires filled { AreFilled blocks.old.items }
    ensures ok { OnOk result (flat blocks.new.items
        ≡ insert (flat blocks.old.items) (start_of blocks.old.items at + place) value) }
    ensures err { OnErr result (flat blocks.new.items ≡ flat blocks.old.items) }
    ensures back { IfErr result (λ failed. failed.value ≡ value) }
    ensures filled { AreFilled blocks.new.items }
{
    let half = blocks[at].len();
    if place <= half {
        put_in(blocks, at, place, value)
    } else {
        put_in(blocks, at + 1, place - half, value)
    }
}

/// Puts an element at a place of a block.
fn put_in<T>(
    blocks: &mut Vec<Vec<T>>,
    at: usize,
    place: usize,
    value: T,
) -> Result<(), AllocFailed<T>>
    requires in_blocks { at < vec_len blocks.old }
    requires in_block { place ≤ length (items_at blocks.old.items at) }
    requires filled { AreFilled blocks.old.items }
    ensures ok { OnOk result (flat blocks.new.items
        ≡ insert (flat blocks.old.items) (start_of blocks.old.items at + place) value) }
    ensures err { OnErr result (flat blocks.new.items ≡ flat blocks.old.items) }
    ensures back { IfErr result (λ failed. failed.value ≡ value) }
    ensures filled { AreFilled blocks.new.items }
{
    blocks[at].insert(place, value)
}

/// Puts an element into a block of its own behind the last one.
fn add_block<T: Drop>(
    alloc: Global,
    blocks: &mut Vec<Vec<T>>,
    room: usize,
    value: T,
) -> Result<(), AllocFailed<T>>
    requires room { 0 < room }
    requires filled { AreFilled blocks.old.items }
    ensures ok { OnOk result (flat blocks.new.items ≡ flat blocks.old.items ++ value ∷ []) }
    ensures err { OnErr result (flat blocks.new.items ≡ flat blocks.old.items) }
    ensures back { IfErr result (λ failed. failed.value ≡ value) }
    ensures filled { AreFilled blocks.new.items }
{
    if blocks.reserve(1).is_err() {
        return Err(AllocFailed { value });
    }
    match Vec::with_capacity(alloc, room) {
        Ok(mut block) => {
            block.push_reserved(value);
            blocks.push_reserved(block);
            Ok(())
        }
        Err(_) => Err(AllocFailed { value }),
    }
}

/// Makes two blocks of one. Where memory is wanted the blocks stay as they were.
fn split<T: Drop>(blocks: &mut Vec<Vec<T>>, at: usize) -> Result<(), AllocError>
    requires in_blocks { at < vec_len blocks.old }
    requires two { 1 < length (items_at blocks.old.items at) }
    requires filled { AreFilled blocks.old.items }
    ensures flat { flat blocks.new.items ≡ flat blocks.old.items }
    ensures start { start_of blocks.new.items at ≡ start_of blocks.old.items at }
    ensures more { OnOk result (vec_len blocks.new ≡ vec_len blocks.old + 1) }
    ensures parts { OnOk result (length (items_at blocks.new.items at)
        + length (items_at blocks.new.items (at + 1)) ≡ length (items_at blocks.old.items at)) }
    ensures filled { AreFilled blocks.new.items }
{
    blocks.reserve(1)?;
    let half = blocks[at].len() / 2;
    let back = blocks[at].split_off(half)?;
    match blocks.insert(at + 1, back) {
        Ok(()) => Ok(()),
        Err(_) => Err(AllocError),
    }
}
