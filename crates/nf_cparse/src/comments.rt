//! Comments.

ghost use Rattle.std.specs.Prelude.{◌≡◌, ◌<◌, ◌≤◌, nat_eq, codes, length, true};
ghost use Rattle.std.specs.List.{prefix_len, starts_with};
ghost use Rattle.nf_lex.specs.Words.{before_close};
ghost use Rattle.nf_cparse.specs.Pieces.{may_stand, comment_piece, line_piece, block_piece};

use crate::parts::line_len;
use crate::piece::Piece;

/// Whether the byte may stand in a text, also in its comments: ASCII, but no `\` and no `?`.
fn may_stand(byte: u8) -> bool
    ensures { result ≡ may_stand byte }
{
    byte < 128 && byte != b'\\' && byte != b'?'
}

/// How many bytes at the front may stand in a text.
fn sound_len(bytes: &[u8]) -> usize
    ensures { result ≡ prefix_len may_stand bytes.now }
{
    bytes.iter().take_while(|byte| may_stand(**byte)).count()
}

/// A comment of so many bytes: a gap, or a fault at its first byte that may not stand.
#[tactic(auto, unfolding(crate::specs::Pieces::comment_piece))]
fn comment_piece(count: usize, bytes: &[u8]) -> Piece
    requires { count ≤ length bytes.now }
    ensures { result ≡ comment_piece count bytes.now }
{
    let (comment, _) = bytes.split_at(count);
    let sound = sound_len(comment);
    if sound < count {
        Piece::Fault(sound)
    } else {
        Piece::Gap(count)
    }
}

/// A comment up to the next LF, or to the end.
pub(crate) fn line_piece(bytes: &[u8]) -> Piece
    ensures { result ≡ line_piece bytes.now }
{
    comment_piece(line_len(bytes), bytes)
}

/// How many bytes stand before the first `*/`, or all where there is none.
#[tactic(auto, using(crate::proofs::CommentLemmas::close_more, crate::proofs::CommentLemmas::close_here))]
fn before_close(bytes: &[u8]) -> usize
    ensures before { result ≡ before_close bytes.now }
    ensures within { result ≤ length bytes.now }
{
    let mut place = 0;
    while place < bytes.len() {
        if bytes[place..].starts_with(b"*/") {
            break;
        }
        place += 1;
    }
    place
}

/// A comment up to the next `*/`, or a fault at its first byte where there is none.
#[tactic(auto, using(crate::proofs::CommentLemmas::block_long, crate::proofs::CommentLemmas::close_fits), unfolding(crate::specs::Pieces::block_piece))]
pub(crate) fn block_piece(bytes: &[u8]) -> Piece
    requires { starts_with nat_eq bytes.now (codes "/*") ≡ true }
    ensures { result ≡ block_piece bytes.now }
{
    let (_, inside) = bytes.split_at(2);
    let before = before_close(inside);
    if before < inside.len() {
        comment_piece(before + 4, bytes)
    } else {
        Piece::Fault(0)
    }
}
