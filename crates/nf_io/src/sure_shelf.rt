//! A shelf in memory that never fails.
ghost use Rattle.std.specs.Prelude.{◌≡◌, ℕ, ◌<◌, ◌≤◌, List, [], length, take, drop, false, None, Some, IsOk, IfSome, IfOk, option_map, is_some, if◌then◌else◌, max, refl};
ghost use Rattle.nf_io.specs.Files.{Files, file_of, asked_of, bytes_of};
ghost use Rattle.nf_io.specs.Bytes.{Gives};
ghost use Rattle.nf_io.specs.Memory.{left_of, read_count, sure_shelf_tells};
ghost use Rattle.nf_io.specs.inner.Places.{entry_at};

use crate::copied::copy_some;
use crate::failure::Failed;
use crate::file_map::FileMap;
use crate::shelves::Shelf;
use std::marker::Model;

/// A shelf in memory that never fails, tells everything, and takes an unknown name for an empty
/// file.
///
/// A contract sees its files, the most bytes of one read, the name asked for, and what is left of
/// the current file (`SureShelfState` in specs/Memory.antt).
#[derive(Drop)]
pub struct SureShelf {
    files: FileMap,
    most: usize,
    place: Option<usize>,
    from: Option<usize>,
}

impl Model for SureShelf {
    ghost use Rattle.std.specs.Prelude.{option_map, drop};
    ghost use Rattle.nf_io.specs.Memory.{SureShelfState};
    ghost use Rattle.nf_io.specs.inner.Places.{IsReading, entry_at};

    ghost Value = { SureShelfState };

    ghost view = { λ s. record {
      files = s.files;
      most = s.most;
      asked = (entry_at s.files s.place).0;
      rest = option_map (λ start. drop start (entry_at s.files s.place).1) s.from;
    } };

    ghost invariant = { λ s. IsReading s.files s.most s.place s.from };
}

impl SureShelf {
    /// The shelf of these files, of which a read gives at most `most` bytes, and at least one
    /// where there is one. No file is current yet.
    pub fn new(files: FileMap, most: usize) -> SureShelf
        ensures files { result.files ≡ files }
        ensures most { result.most ≡ max most 1 }
        ensures asked { result.asked ≡ [] }
        ensures rest { result.rest ≡ None }
    {
        SureShelf {
            files,
            most: most.max(1),
            place: None,
            from: None,
        }
    }

    // The place of the file of this name.
    pub(crate) fn find(&self, name: &str) -> Option<usize>
        ensures known { is_some result ≡ is_some (file_of self.now.files name.now) }
        ensures asked { (entry_at self.now.files result).0 ≡ asked_of self.now.files name.now }
        ensures bytes { (entry_at self.now.files result).1 ≡ bytes_of self.now.files name.now }
    {
        self.files.find(name)
    }

    // Asks for the file at this place; it becomes the current one where it is opened.
    pub(crate) fn go_to(&mut self, place: Option<usize>, is_opened: bool)
        ensures files { self.new.files ≡ self.old.files }
        ensures most { self.new.most ≡ self.old.most }
        ensures asked { self.new.asked ≡ (entry_at self.old.files place).0 }
        ensures rest { self.new.rest
            ≡ (if is_opened then Some (entry_at self.old.files place).1 else None) }
    {
        self.place = place;
        self.from = if is_opened { Some(0) } else { None };
    }

    // Reads the next bytes, and answers how many.
    pub(crate) fn read_some(&mut self, buf: &mut [u8]) -> usize
        requires { 0 < length buf.old }
        ensures files { self.new.files ≡ self.old.files }
        ensures most { self.new.most ≡ self.old.most }
        ensures asked { self.new.asked ≡ self.old.asked }
        ensures rest { self.new.rest ≡ option_map (drop result) self.old.rest }
        ensures count { result ≡ read_count self.old.most (length buf.old) (left_of self.old.rest) }
        ensures bytes { take result buf.new ≡ take result (left_of self.old.rest) }
        ensures others { drop result buf.new ≡ drop result buf.old }
        ensures gives { IfSome self.old.rest (Gives buf.new result) }
    {
        let Some(from) = self.from else {
            return 0;
        };
        let left = &self.files.bytes_at(self.place)[from..];
        let count = copy_some(buf, left, self.most);
        self.from = Some(from + count);
        count
    }
}

impl Shelf for SureShelf {
    ghost tells = { sure_shelf_tells };

    /// Makes the file of this name the current one, and an empty file where there is none. Never
    /// fails.
    fn pick(&mut self, name: &str) -> Result<(), Failed>
        ensures always { IsOk result }
        ensures files { self.new.files ≡ self.old.files }
        ensures most { self.new.most ≡ self.old.most }
        ensures asked { self.new.asked ≡ asked_of self.old.files name.now }
        ensures rest { self.new.rest ≡ Some (bytes_of self.old.files name.now) }
    {
        let place = self.find(name);
        self.go_to(place, true);
        Ok(())
    }

    /// Reads the next bytes of the current file into the first places of the buffer, and answers
    /// how many bytes these are: the least of the most of one read, the buffer's length and the
    /// bytes left (`read_count` in specs/Memory.antt). Never fails; where no file is current, 0.
    fn read(&mut self, buf: &mut [u8]) -> Result<usize, Failed>
        requires { 0 < length buf.old }
        ensures always { IsOk result }
        ensures files { self.new.files ≡ self.old.files }
        ensures most { self.new.most ≡ self.old.most }
        ensures asked { self.new.asked ≡ self.old.asked }
        ensures count { IfOk result (λ n.
            n ≡ read_count self.old.most (length buf.old) (left_of self.old.rest)) }
        ensures bytes { IfOk result (λ n. take n buf.new ≡ take n (left_of self.old.rest)) }
        ensures others { IfOk result (λ n. drop n buf.new ≡ drop n buf.old) }
        ensures rest { IfOk result (λ n. self.new.rest ≡ option_map (drop n) self.old.rest) }
        ensures gives { IfOk result (λ n. IfSome self.old.rest (Gives buf.new n)) }
    {
        Ok(self.read_some(buf))
    }

    ghost asked_told = { λ _ _. refl };
}
