//! The pieces in which a file is read.

ghost use Rattle.std.specs.Prelude.{◌≡◌, ◌<◌, length, vec_len, IfOk};
ghost use Rattle.nf_session.specs.inner.Reads.{ReadsPiece};

use crate::fault::SessionEnd;
use nf_io::{Failed, Shelf};
use std::alloc::{AllocError, Global};

/// The most bytes of one read.
pub const PIECE_LIMIT: usize = 65_536;

/// A buffer for one piece, of 65,536 bytes. AllocError comes where memory is wanted.
pub fn new_buffer(alloc: Global) -> Result<Vec<u8>, AllocError>
    ensures { IfOk result (λ bytes. vec_len bytes ≡ PIECE_LIMIT) }
{
    vec![in alloc; 0; PIECE_LIMIT]
}

// Reads the next piece of the picked file, of at most `most` bytes, into the first places of the buffer. Answers
// how many bytes it has, which is 0 at the end of the file.
pub(crate) fn read_piece<F: Shelf>(
    shelf: &mut F,
    buffer: &mut [u8],
    most: usize,
) -> Result<usize, SessionEnd>
    requires room { length buffer.old ≡ PIECE_LIMIT }
    requires some { 0 < most }
    ensures room { length buffer.new ≡ PIECE_LIMIT }
    ensures reads { ReadsPiece buffer.new most result (F.tells shelf.old) (F.tells shelf.new) }
{
    let places = buffer.len().min(most);
    match shelf.read(&mut buffer[..places]) {
        Ok(count) => Ok(count),
        Err(Failed) => Err(SessionEnd::ReadFault),
    }
}
