//! Sources of named files.
ghost use Rattle.std.specs.Prelude.{◌≡◌, ◌<◌, ◌≤◌, length, drop, option_map, IsSome, IfSome, IfOk, OnOk, OnErr, Some, None, is_err};
ghost use Rattle.nf_io.specs.Files.{asked_of, bytes_of};
ghost use Rattle.nf_io.specs.Tells.{ShelfTells};
ghost use Rattle.nf_io.specs.Bytes.{Gives};
ghost use Rattle.nf_io.specs.Causes.{HasCause};

use crate::failure::Failed;

/// A source of named files, of which one at a time is the current one.
///
/// All that a contract sees of it is what it tells (`ShelfTells` in specs/Tells.antt): its files,
/// the name given to the last `pick`, or the empty text where no file has that name, the bytes left
/// of the current file, whether the last call failed, and a count of faults, which never falls.
pub trait Shelf {
    ghost tells: { Self → ShelfTells };

    /// Makes the file of this name the current one; `-` is standard input.
    ///
    /// Answers Failed only where the count of faults rose; then `rest` isn't told until the next
    /// Ok. `asked` becomes the name or the empty text on both answers (`asked_of` in
    /// specs/Files.antt).
    fn pick(&mut self, name: &str) -> Result<(), Failed>
        ensures files { (tells self.new).files ≡ (tells self.old).files }
        ensures asked { IfSome (tells self.old).files (λ files.
            (tells self.new).asked ≡ Some (asked_of files name.now)) }

        // The bytes of the file are left, and none where there is no such file.
        ensures rest { OnOk result (IfSome (tells self.old).files (λ files.
            (tells self.new).rest ≡ Some (bytes_of files name.now))) }
        ensures untold { OnErr result ((tells self.new).rest ≡ None) }

        ensures failed { (tells self.new).failed ≡ is_err result }
        ensures cause { HasCause (tells self.old).faults (tells self.new).faults result }
        ensures never_falls { (tells self.old).faults ≤ (tells self.new).faults };

    /// Reads the next bytes of the current file into the first places of the buffer, and answers
    /// how many bytes these are; 0 is the end of the file.
    ///
    /// Answers Failed only where the count of faults rose; then `rest` stays.
    fn read(&mut self, buf: &mut [u8]) -> Result<usize, Failed>
        requires { 0 < length buf.old }

        ensures files { (tells self.new).files ≡ (tells self.old).files }
        ensures asked { (tells self.new).asked ≡ (tells self.old).asked }

        ensures within { IfOk result (λ n. n ≤ length buf.new) }
        ensures bytes { IfOk result (λ n. IfSome (tells self.old).rest (Gives buf.new n)) }
        ensures others { IfOk result (λ n. drop n buf.new ≡ drop n buf.old) }

        // What is left stays told where it was told.
        ensures rest { IfOk result (λ n.
            (tells self.new).rest ≡ option_map (drop n) (tells self.old).rest) }
        ensures err { OnErr result ((tells self.new).rest ≡ (tells self.old).rest) }

        ensures failed { (tells self.new).failed ≡ is_err result }
        ensures cause { HasCause (tells self.old).faults (tells self.new).faults result }
        ensures never_falls { (tells self.old).faults ≤ (tells self.new).faults };

    // The name asked for is told wherever the files are, from the start.
    ghost asked_told: { (shelf : Self) → IsSome (tells shelf).files → IsSome (tells shelf).asked };
}
