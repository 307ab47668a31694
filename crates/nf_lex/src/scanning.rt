//! What stands at a place of a source: a word, or a fault.

ghost use Rattle.std.specs.Prelude.{◌≡◌, ◌+◌, ◌<◌, ◌≤◌, length, drop, IfOk, slice_index, false};
ghost use Rattle.nf_lex.specs.Bytes.{is_blank};
ghost use Rattle.nf_lex.specs.Words.{opens_line, opens_block};
ghost use Rattle.nf_lex.specs.Faults.{line_at};
ghost use Rattle.nf_lex.specs.inner.Pieces.{FindsPiece, piece_len};

use crate::bytes::{is_blank, line_len};
use crate::comments::{block_len, opens_block, opens_line};
use crate::fault::LexFault;
use crate::faulty_words::{fault_of, missing_at};
use crate::piece::Piece;
use crate::words::token_at;

/// The longest word at a place of the source, or the fault that stands there.
#[tactic(auto, using(crate::proofs::PlaceLemmas::line_comment, crate::proofs::PlaceLemmas::blank_word, crate::proofs::WordFormLemmas::word_some, crate::proofs::WordFormLemmas::missing_word))]
pub(crate) fn piece_at(source: &[u8], place: usize) -> Result<Piece, LexFault>
    requires { place < length source.now }
    ensures piece { FindsPiece (drop place source.now) (line_at source.now place) result }
    ensures some { IfOk result (λ piece. 0 < piece_len piece) }
    ensures within { IfOk result (λ piece. place + piece_len piece ≤ length source.now) }
{
    let (_, bytes) = source.split_at(place);
    if opens_line(bytes) {
        return Ok(Piece::Gap(line_len(bytes)));
    }
    if opens_block(bytes) {
        return match block_len(bytes) {
            Some(length) => Ok(Piece::Gap(length)),
            None => Err(missing_at(bytes, source, place)),
        };
    }
    if is_blank(bytes[0]) {
        return Ok(Piece::Gap(1));
    }
    token_piece(bytes, source, place)
}

/// The token at the front of the bytes, which stand at the place, or the fault there. No comment opens
/// at their front, and no separator stands there.
#[tactic(auto, using(crate::proofs::PlaceLemmas::token_word, crate::proofs::PlaceLemmas::token_none, crate::proofs::WordFormLemmas::word_some, crate::proofs::WordFormLemmas::faulty_word, crate::proofs::WordFormLemmas::missing_word))]
fn token_piece(bytes: &[u8], source: &[u8], place: usize) -> Result<Piece, LexFault>
    requires place { place ≤ length source.now }
    requires some { 0 < length bytes.now }
    requires no_line { opens_line bytes.now ≡ false }
    requires no_block { opens_block bytes.now ≡ false }
    requires no_blank { is_blank (slice_index bytes.now 0) ≡ false }
    ensures piece { FindsPiece bytes.now (line_at source.now place) result }
    ensures some { IfOk result (λ piece. 0 < piece_len piece) }
    ensures within { IfOk result (λ piece. piece_len piece ≤ length bytes.now) }
{
    let Some((kind, length)) = token_at(bytes) else {
        return Err(missing_at(bytes, source, place));
    };
    match fault_of(kind, &bytes[..length], source, place) {
        Some(fault) => Err(fault),
        None => Ok(Piece::Token(kind, length)),
    }
}
