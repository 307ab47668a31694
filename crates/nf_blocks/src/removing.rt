//! Elements that leave the blocks.

ghost use Rattle.std.specs.Prelude.{◌≡◌, ◌+◌, ◌<◌, length, IfSome, slice_index_or};
ghost use Rattle.std.specs.declared.cmp.Ordering.TheVariants.{Equal};
ghost use Rattle.std.specs.Option.{is_some};
ghost use Rattle.std.specs.List.{remove};
ghost use Rattle.std.specs.Vec.{vec_len};
ghost use Rattle.nf_blocks.specs.Blocks.{has, removed};
ghost use Rattle.nf_blocks.specs.inner.Flat.{flat};
ghost use Rattle.nf_blocks.specs.inner.Places.{items_at, start_of, AreFilled, AreSorted};

use crate::search::block_of;

/// Takes an element away and answers it, None where it wasn't there.
pub(crate) fn take<T: Ord>(blocks: &mut Vec<Vec<T>>, value: &T) -> Option<T>
    requires { AreSorted T.cmp blocks.old.items }
    ensures found { is_some result ≡ has T.cmp (flat blocks.old.items) value.now }
    ensures itself { IfSome result (λ taken. T.cmp value.now taken ≡ Equal) }
    ensures rest { flat blocks.new.items ≡ removed T.cmp value.now (flat blocks.old.items) }
    ensures filled { AreFilled blocks.new.items }
{
    if blocks.is_empty() {
        return None;
    }
    let at = block_of(blocks, value);
    match blocks[at].binary_search(value) {
        Ok(place) => Some(take_at(blocks, at, place)),
        Err(_) => None,
    }
}

/// Takes the element at a place of a block away, and the block too where it was its last one.
pub(crate) fn take_at<T>(blocks: &mut Vec<Vec<T>>, at: usize, place: usize) -> T
    requires in_blocks { at < vec_len blocks.old }
    requires in_block { place < length (items_at blocks.old.items at) }
    requires filled { AreFilled blocks.old.items }
    ensures itself { result
        ≡ slice_index_or (flat blocks.old.items) (start_of blocks.old.items at + place) result }
    ensures rest { flat blocks.new.items
        ≡ remove (flat blocks.old.items) (start_of blocks.old.items at + place) }
    ensures filled { AreFilled blocks.new.items }
{
    let taken = blocks[at].remove(place);
    if blocks[at].is_empty() {
        blocks.remove(at).destroy_empty();
    }
    taken
}
