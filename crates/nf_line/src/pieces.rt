//! Pieces of bytes.

ghost use Rattle.std.specs.Prelude.{◌≡◌, ◌<◌, ◌==◌, false, true, length, position};
ghost use Rattle.nf_line.specs.Lines.{without_return};
ghost use Rattle.nf_line.specs.Cutting.{before_feed, has_feed};

use memchr::memchr;

/// The bytes of a piece before its first LF, or all where it has none, and whether it has one.
#[derive(Debug, Clone, Copy)]
pub(crate) struct Cut<'a> {
    pub(crate) before: &'a [u8],
    pub(crate) has_feed: bool,
}

/// Cuts a piece at its first LF.
#[tactic(auto, using(crate::proofs::LineFeedLemmas::none_before))]
pub(crate) fn cut_piece(piece: &[u8]) -> Cut<'_>
    ensures before { result.before.now ≡ before_feed piece.now }
    ensures has_feed { result.has_feed ≡ has_feed piece.now }
    ensures none { has_feed result.before.now ≡ false }
    ensures whole { result.has_feed ≡ false → result.before.now ≡ piece.now }
    ensures shorter { result.has_feed ≡ true → length result.before.now < length piece.now }
{
    match feed_place(piece) {
        Some(place) => Cut {
            before: &piece[..place],
            has_feed: true,
        },
        None => Cut {
            before: piece,
            has_feed: false,
        },
    }
}

/// The place of the first LF, counted from 0. None exactly where no byte is one.
#[tactic(auto, using(crate::proofs::LineFeedLemmas::first_place))]
fn feed_place(piece: &[u8]) -> Option<usize>
    ensures { result ≡ position (λ byte. byte == 10) piece.now }
{
    memchr(b'\n', piece)
}

/// The piece without one CR at its end.
pub(crate) fn without_return(piece: &[u8]) -> &[u8]
    ensures { result.now ≡ without_return piece.now }
{
    match piece.strip_suffix(b"\r") {
        Some(line) => line,
        None => piece,
    }
}
