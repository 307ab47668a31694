//! Files read whole, in pieces.

ghost use Rattle.std.specs.Prelude.{◌≡◌, ◌≢◌, ◌+◌, ◌<◌, ◌≤◌, [], length, false, IsTrue, IfOk, OnOk};
ghost use Rattle.nf_io.specs.Causes.{Rose};
ghost use Rattle.nf_session.specs.Sessions.{piece_limit};
ghost use Rattle.nfer_cli.specs.inner.Reading.{AsksFor, EndsIn, IsFile, IsLonger, PassesIn, ReadsOn, ReadsPast, ReadsShort, ReadsToEnd, StopsIn, is_unreadable};
ghost use Rattle.nfer_cli.specs.declared.reading.Unread.TheVariants.{NoMemory as no_memory, Unreadable as unreadable};

use nf_core::{Lines, NoMemory};
use nf_io::{Failed, Shelf};
use nf_session::new_buffer;
use std::alloc::{AllocError, Global};

/// Why a file wasn't read whole.
#[derive(Debug, Clone, Copy, PartialEq, Eq)]
pub enum Unread {
    /// It has more bytes than are allowed.
    TooLong,
    /// It couldn't be picked or read.
    Unreadable,
    /// No memory was left.
    NoMemory,
}

impl From<Failed> for Unread {
    ghost from_gives = { λ _ e. e ≡ unreadable };

    fn from(_failed: Failed) -> Unread {
        Unread::Unreadable
    }
}

impl From<AllocError> for Unread {
    ghost from_gives = { λ _ e. e ≡ no_memory };

    fn from(_error: AllocError) -> Unread {
        Unread::NoMemory
    }
}

impl From<NoMemory> for Unread {
    ghost from_gives = { λ _ e. e ≡ no_memory };

    fn from(_error: NoMemory) -> Unread {
        Unread::NoMemory
    }
}

/// The bytes of a file that has at most `most` of them.
///
/// Unreadable comes only where the shelf failed in this call, at its last call, before which at most
/// `most` bytes were read. TooLong comes exactly where the file has more than `most` bytes; then at
/// most one piece of 65,536 bytes was read past them.
pub fn read_file<F: Shelf>(
    alloc: Global,
    shelf: &mut F,
    name: &str,
    most: usize,
) -> Result<Lines, Unread>
    ensures files { (F.tells shelf.new).files ≡ (F.tells shelf.old).files }
    ensures never_falls { (F.tells shelf.old).faults ≤ (F.tells shelf.new).faults }
    ensures bytes { IfOk result (IsFile (F.tells shelf.old) name.now) }
    ensures fits { IfOk result (λ bytes. length bytes ≤ most) }
    ensures end { OnOk result (EndsIn name.now (F.tells shelf.old) (F.tells shelf.new)) }
    ensures too_long { result ≡ Err Unread.TooLong → IsLonger (F.tells shelf.old) name.now most }
    ensures stopped { result ≡ Err Unread.TooLong
        → PassesIn name.now most (F.tells shelf.old) (F.tells shelf.new) }
    ensures unread { result ≡ Err Unread.Unreadable
        → StopsIn name.now most (F.tells shelf.old) (F.tells shelf.new) }
    ensures cause { result ≡ Err Unread.Unreadable
        → Rose (F.tells shelf.old).faults (F.tells shelf.new).faults }
    ensures failed { (F.tells shelf.new).failed ≡ is_unreadable result }
    ensures asked { AsksFor name.now (F.tells shelf.old) (F.tells shelf.new) }
{
    shelf.pick(name)?;
    let mut buffer = new_buffer(alloc)?;
    let mut bytes = Lines::new(alloc);
    read_rest(shelf, buffer.as_mut_slice(), most, &mut bytes)?;
    Ok(bytes)
}

// Reads the current file to its end, and puts what is read behind the bytes.
fn read_rest<F: Shelf>(
    shelf: &mut F,
    buffer: &mut [u8],
    most: usize,
    bytes: &mut Lines,
) -> Result<(), Unread>
    requires room { length buffer.old ≡ piece_limit }
    requires within { length bytes.old ≤ most }
    ensures files { (F.tells shelf.new).files ≡ (F.tells shelf.old).files }
    ensures asked { (F.tells shelf.new).asked ≡ (F.tells shelf.old).asked }
    ensures never_falls { (F.tells shelf.old).faults ≤ (F.tells shelf.new).faults }
    ensures fits { OnOk result (length bytes.new ≤ most) }
    ensures end { OnOk result
        (ReadsToEnd (F.tells shelf.old) bytes.old (F.tells shelf.new) bytes.new) }
    ensures too_long { result ≡ Err Unread.TooLong
        → ReadsPast most (F.tells shelf.old) bytes.old (F.tells shelf.new) }
    ensures unread { result ≡ Err Unread.Unreadable
        → ReadsShort most (F.tells shelf.old) bytes.old (F.tells shelf.new) }
    ensures cause { result ≡ Err Unread.Unreadable
        → Rose (F.tells shelf.old).faults (F.tells shelf.new).faults }
    ensures failed { (F.tells shelf.new).failed ≡ is_unreadable result }
{
    'pieces: while read_within(shelf, buffer, most, bytes)? {}
    Ok(())
}

// Reads one piece of the current file that leaves the bytes within the limit. Answers whether
// there was one.
fn read_within<F: Shelf>(
    shelf: &mut F,
    buffer: &mut [u8],
    most: usize,
    bytes: &mut Lines,
) -> Result<bool, Unread>
    requires room { length buffer.old ≡ piece_limit }
    requires within { length bytes.old ≤ most }
    ensures files { (F.tells shelf.new).files ≡ (F.tells shelf.old).files }
    ensures asked { (F.tells shelf.new).asked ≡ (F.tells shelf.old).asked }
    ensures never_falls { (F.tells shelf.old).faults ≤ (F.tells shelf.new).faults }
    ensures more { IfOk result (λ more. IsTrue more → length bytes.old < length bytes.new) }
    ensures fits { OnOk result (length bytes.new ≤ most) }
    ensures reads { OnOk result
        (ReadsOn (F.tells shelf.old) bytes.old (F.tells shelf.new) bytes.new) }
    ensures end { IfOk result (λ more. more ≡ false
        → ReadsToEnd (F.tells shelf.old) bytes.old (F.tells shelf.new) bytes.new) }
    ensures too_long { result ≡ Err Unread.TooLong
        → ReadsPast most (F.tells shelf.old) bytes.old (F.tells shelf.new) }
    ensures unread { result ≡ Err Unread.Unreadable
        → (F.tells shelf.new).rest ≡ (F.tells shelf.old).rest }
    ensures cause { result ≡ Err Unread.Unreadable
        → Rose (F.tells shelf.old).faults (F.tells shelf.new).faults }
    ensures failed { (F.tells shelf.new).failed ≡ is_unreadable result }
{
    let more = read_piece(shelf, buffer, bytes)?;
    if bytes.as_slice().len() > most {
        return Err(Unread::TooLong);
    }
    Ok(more)
}

// Reads one piece of the current file, and puts it behind the bytes. Answers whether there was one.
fn read_piece<F: Shelf>(shelf: &mut F, buffer: &mut [u8], bytes: &mut Lines) -> Result<bool, Unread>
    requires { length buffer.old ≡ piece_limit }
    ensures files { (F.tells shelf.new).files ≡ (F.tells shelf.old).files }
    ensures asked { (F.tells shelf.new).asked ≡ (F.tells shelf.old).asked }
    ensures never_falls { (F.tells shelf.old).faults ≤ (F.tells shelf.new).faults }
    ensures more { IfOk result (λ more. IsTrue more → length bytes.old < length bytes.new) }
    ensures piece { OnOk result (length bytes.new ≤ length bytes.old + piece_limit) }
    ensures reads { OnOk result
        (ReadsOn (F.tells shelf.old) bytes.old (F.tells shelf.new) bytes.new) }
    ensures end { IfOk result (λ more. more ≡ false
        → ReadsToEnd (F.tells shelf.old) bytes.old (F.tells shelf.new) bytes.new) }
    ensures within { result ≢ Err Unread.TooLong }
    ensures unread { result ≡ Err Unread.Unreadable
        → (F.tells shelf.new).rest ≡ (F.tells shelf.old).rest }
    ensures cause { result ≡ Err Unread.Unreadable
        → Rose (F.tells shelf.old).faults (F.tells shelf.new).faults }
    ensures failed { (F.tells shelf.new).failed ≡ is_unreadable result }
{
    let count = shelf.read(buffer)?;
    bytes.push(&buffer[..count])?;
    Ok(count > 0)
}
