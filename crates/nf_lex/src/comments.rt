//! Comments.

ghost use Rattle.std.specs.Prelude.{◌≡◌, ◌≤◌, length, true};
ghost use Rattle.nf_lex.specs.Words.{opens_line, opens_block, before_close};
ghost use Rattle.nf_lex.specs.inner.Pieces.{FindsGap};

/// Whether the bytes begin with `//` or `--`.
pub(crate) fn opens_line(bytes: &[u8]) -> bool
    ensures { result ≡ opens_line bytes.now }
{
    bytes.starts_with(b"//") || bytes.starts_with(b"--")
}

/// Whether the bytes begin with `/*`.
pub(crate) fn opens_block(bytes: &[u8]) -> bool
    ensures { result ≡ opens_block bytes.now }
{
    bytes.starts_with(b"/*")
}

/// How many bytes stand before the first `*/`, or all where there is none.
#[tactic(auto, using(crate::proofs::CommentLemmas::close_more, crate::proofs::CommentLemmas::close_here))]
pub(crate) fn before_close(bytes: &[u8]) -> usize
    ensures before { result ≡ before_close bytes.now }
    ensures within { result ≤ length bytes.now }
{
    let mut place = 0;
    while place < bytes.len() {
        if bytes[place..].starts_with(b"*/") {
            break;
        }
        place += 1;
    }
    place
}

/// The length of the comment that opens with `/*` at the front of the bytes, or None exactly where it
/// has no end.
#[tactic(auto, using(crate::proofs::PlaceLemmas::block_long, crate::proofs::PlaceLemmas::block_word, crate::proofs::PlaceLemmas::block_none))]
pub(crate) fn block_len(bytes: &[u8]) -> Option<usize>
    requires { opens_block bytes.now ≡ true }
    ensures { FindsGap bytes.now result }
{
    let (_, inside) = bytes.split_at(2);
    let before = before_close(inside);
    if before < inside.len() {
        Some(before + 4)
    } else {
        None
    }
}
