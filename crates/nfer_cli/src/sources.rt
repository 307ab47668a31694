//! The files of a specification, read in turn.

ghost use Rattle.std.specs.Prelude.{◌≡◌, ◌<◌, ◌≤◌, [], length, slice_index_or, IfOk, IfErr, OnOk};
ghost use Rattle.nf_spec.specs.Sources.{specification_limit, total};
ghost use Rattle.nfer_cli.specs.inner.Failures.{ends_unread};
ghost use Rattle.nfer_cli.specs.inner.Reading.{AsksFor, EndsIn, IsFile};
ghost use Rattle.nfer_cli.specs.inner.Specified.{AreSources, AsksOne, EndsBehind, SourceFails, SourcesFail};

use crate::fault::Failure;
use crate::reading::{Unread, read_file};
use nf_core::{Lines, Text};
use nf_io::Shelf;
use nf_spec::{SPECIFICATION_LIMIT, SourceList, SpecFault};
use std::alloc::Global;

/// The bytes of the files of a specification, read in turn (`sources_of` of specs/Sources).
///
/// The files are too long exactly where they have more than 1,048,576 bytes together, which is known
/// with the file that passes that limit (`IsPassedAt` of nf_spec): at most one piece of 65,536 bytes was read past
/// it, and later files aren't picked. A read fault comes only where the shelf failed in this call, at
/// its last call, before which the limit wasn't passed, and names the place, counted from 0, of the
/// file.
pub fn read_sources<F: Shelf>(
    alloc: Global,
    shelf: &mut F,
    names: &[Text],
) -> Result<SourceList, Failure>
    requires { 0 < length names.now }
    ensures files { (F.tells shelf.new).files ≡ (F.tells shelf.old).files }
    ensures never_falls { (F.tells shelf.old).faults ≤ (F.tells shelf.new).faults }
    ensures count { IfOk result (λ sources. length sources ≡ length names.now) }
    ensures sources { IfOk result (AreSources (F.tells shelf.old) names.now) }
    ensures fits { IfOk result (λ sources. total sources ≤ specification_limit) }
    ensures end { OnOk result (EndsBehind names.now (F.tells shelf.old) (F.tells shelf.new)) }
    ensures fails { IfErr result (λ failure.
        SourcesFail names.now failure (F.tells shelf.old) (F.tells shelf.new)) }
    ensures failed { (F.tells shelf.new).failed ≡ ends_unread result }
    ensures asks { AsksOne names.now (F.tells shelf.old) (F.tells shelf.new) }
{
    let mut sources = SourceList::new(alloc);
    let mut room = SPECIFICATION_LIMIT;
    'names: for place in 0..names.len() {
        let source = read_source(alloc, shelf, names, place, room)?;
        room -= source.as_slice().len();
        sources.push(source)?;
    }
    Ok(sources)
}

// The bytes of the file at a place, where it has at most `room` of them.
fn read_source<F: Shelf>(
    alloc: Global,
    shelf: &mut F,
    names: &[Text],
    place: usize,
    room: usize,
) -> Result<Lines, Failure>
    requires { place < length names.now }
    ensures files { (F.tells shelf.new).files ≡ (F.tells shelf.old).files }
    ensures never_falls { (F.tells shelf.old).faults ≤ (F.tells shelf.new).faults }
    ensures bytes { IfOk result (IsFile (F.tells shelf.old) (slice_index_or names.now place [])) }
    ensures fits { IfOk result (λ bytes. length bytes ≤ room) }
    ensures end { OnOk result
        (EndsIn (slice_index_or names.now place []) (F.tells shelf.old) (F.tells shelf.new)) }
    ensures fails { IfErr result (λ failure.
        SourceFails names.now place room failure (F.tells shelf.old) (F.tells shelf.new)) }
    ensures failed { (F.tells shelf.new).failed ≡ ends_unread result }
    ensures asked { AsksFor (slice_index_or names.now place [])
        (F.tells shelf.old) (F.tells shelf.new) }
{
    match read_file(alloc, shelf, names[place].as_str(), room) {
        Ok(bytes) => Ok(bytes),
        Err(Unread::TooLong) => Err(Failure::Specification(SpecFault::TooLong)),
        Err(Unread::Unreadable) => Err(Failure::Read(place)),
        Err(Unread::NoMemory) => Err(Failure::NoMemory),
    }
}
