//! What stands at the front of bytes.

ghost use Rattle.std.specs.Prelude.{◌≡◌, ◌<◌, length};
ghost use Rattle.nf_cparse.specs.Pieces.{run_piece, piece_of};
ghost use Rattle.nf_cparse.specs.inner.Fitting.{FitsIn};

use crate::comments::{block_piece, line_piece};
use crate::literals::{is_blank, literal_piece};
use crate::marks::{mark_at, token_or_fault};
use crate::names::word_symbol;
use crate::parts::{is_inner, name_len};
use crate::piece::Piece;

/// What a longest run of letters, digits and `_` at the front of the bytes is.
#[tactic(auto, using(crate::proofs::PieceLemmas::literal_long), unfolding(crate::specs::Pieces::run_piece))]
fn run_piece(bytes: &[u8]) -> Piece
    ensures { result ≡ run_piece bytes.now }
{
    let (run, _) = bytes.split_at(name_len(bytes));
    if run == b"INT64_C".as_slice() {
        return literal_piece(bytes);
    }
    token_or_fault(word_symbol(run), run.len())
}

/// What stands at the front of the bytes, which aren't empty (`piece_of` in specs/Pieces.antt).
#[tactic(auto, using(crate::proofs::PieceLemmas::piece_fits), unfolding(crate::specs::Pieces::piece_of))]
fn piece_of(bytes: &[u8]) -> Piece
    requires { 0 < length bytes.now }
    ensures { result ≡ piece_of bytes.now }
{
    if bytes.starts_with(b"//") {
        return line_piece(bytes);
    }
    if bytes.starts_with(b"/*") {
        return block_piece(bytes);
    }
    if is_blank(bytes[0]) {
        return Piece::Gap(1);
    }
    if is_inner(bytes[0]) {
        return run_piece(bytes);
    }
    mark_at(bytes)
}

/// What stands at the front of the bytes, which aren't empty, and that it stands within them.
#[tactic(auto, using(crate::proofs::PieceLemmas::piece_fits))]
pub(crate) fn piece_at(bytes: &[u8]) -> Piece
    requires { 0 < length bytes.now }
    ensures piece { result ≡ piece_of bytes.now }
    ensures fits { FitsIn bytes.now result }
{
    piece_of(bytes)
}
