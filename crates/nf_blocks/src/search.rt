//! Where an element stands in the blocks.

ghost use Rattle.std.specs.Prelude.{◌≡◌, ◌<◌, ◌≤◌, true, false, length};
ghost use Rattle.std.specs.List.Sorted.{IsPartitionPoint};
ghost use Rattle.nf_blocks.specs.inner.Places.{AreSorted};
ghost use Rattle.nf_blocks.specs.inner.Gaps.{ends_before, IsBlockOf};

/// The block in which an element stands, or would stand: of those whose last element isn't smaller
/// the first, else the last one. The last one is asked first.
pub(crate) fn block_of<T: Ord>(blocks: &[Vec<T>], value: &T) -> usize
    requires some { 0 < length blocks.now }
    requires sorted { AreSorted T.cmp blocks.now }
    ensures in_blocks { result < length blocks.now }
    ensures place { IsBlockOf T.cmp blocks.now value.now result }
{
    let last = blocks.len() - 1;
    if ends_before(&blocks[last], value) {
        return last;
    }
    first_not_before(blocks, value)
}

/// The first block whose last element isn't smaller.
fn first_not_before<T: Ord>(blocks: &[Vec<T>], value: &T) -> usize
    requires { AreSorted T.cmp blocks.now }
    ensures bound { result ≤ length blocks.now }
    ensures parts { IsPartitionPoint (λ b. ends_before T.cmp value.now b.items ≡ true)
        (λ b. ends_before T.cmp value.now b.items ≡ false) blocks.now result }
{
    blocks.partition_point(
        |block: &Vec<T>| -> bool
            ensures { result ≡ ends_before T.cmp value.entry.now block.now.items }
        { ends_before(block, value) },
    )
}

fn ends_before<T: Ord>(block: &[T], value: &T) -> bool
    ensures { result ≡ ends_before T.cmp value.now block.now }
{
    match block.last() {
        Some(last) => last.cmp(value).is_lt(),
        None => true,
    }
}
