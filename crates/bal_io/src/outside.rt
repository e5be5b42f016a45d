//! The traits of the outside.
ghost use Rattle.std.specs.Prelude.{◌≡◌, ◌+◌, ◌≤◌, ℕ, List, Option, IfOk, OnOk, OnErr, IfSome, length, vec_len};
ghost use Rattle.bal_io.specs.Content.{Told, CanOpen, IsNameAt, IsFrontAt, Appends, AppendsFront, ReadsLine, LosesFront};
ghost use Rattle.bal_io.specs.Faults.{CountsFaults};

use bal_base::{Bytes, Failed, Name, Stop};
use std::alloc::Global;

/// A list of files, each a name and bytes. No call changes the list.
pub trait Folder {
    /// How many calls have failed.
    ghost faults: { Self → ℕ };

    /// The files, each with the code points of its name and its bytes, where the object tells them.
    ghost files: { Self → Option (List (List ℕ × List ℕ)) };

    /// How many files there are.
    fn count(&mut self, alloc: Global) -> Result<u32, Stop<Failed>>
        ensures faults { CountsFaults (faults self.old) (faults self.new) result }
        ensures unchanged { files self.new ≡ files self.old }
        ensures count { IfOk result (λ n. IfSome (files self.old) (λ all. n ≡ length all)) };

    /// The name of the file with the number `i`, from 0.
    fn name(&mut self, alloc: Global, i: u32) -> Result<Name, Stop<Failed>>
        requires { CanOpen (files self.old) i }
        ensures faults { CountsFaults (faults self.old) (faults self.new) result }
        ensures unchanged { files self.new ≡ files self.old }
        ensures name { IfOk result (λ n. IfSome (files self.old) (λ all. IsNameAt all i n)) };

    /// The first `max + 1` bytes of the file with the number `i`, or all its bytes where there are fewer.
    fn read(&mut self, alloc: Global, i: u32, max: u64) -> Result<Vec<u8>, Stop<Failed>>
        requires { CanOpen (files self.old) i }
        ensures faults { CountsFaults (faults self.old) (faults self.new) result }
        ensures unchanged { files self.new ≡ files self.old }
        ensures bytes { IfOk result (λ v. IfSome (files self.old) (λ all. IsFrontAt all i (max + 1) v.items)) }
        ensures bound { IfOk result (λ v. vec_len v ≤ max + 1) };
}

/// A line of input.
#[derive(Drop)]
pub struct Line {
    /// The line without its line feed and without a carriage return just before that.
    pub bytes: Bytes,
    /// Whether the whole line stands in `bytes`.
    pub whole: bool,
}

/// The rest of an input.
pub trait Source {
    /// How many calls have failed.
    ghost faults: { Self → ℕ };

    /// The bytes that are still to be read, where the object tells them.
    ghost rest: { Self → Option (List ℕ) };

    /// The next line, or `None` exactly where nothing is left. A line ends with a line feed, which the last
    /// one may lack. Of a line of more than `max` bytes it takes the first `max` bytes, which are not whole.
    fn read_line(&mut self, alloc: Global, max: u64) -> Result<Option<Line>, Stop<Failed>>
        ensures faults { CountsFaults (faults self.old) (faults self.new) result }
        ensures line { IfOk result (λ line. Told (ReadsLine max line) (rest self.old) (rest self.new)) }
        ensures bound { IfOk result (λ line. IfSome line (λ l. length l.bytes ≤ max)) }
        ensures err { OnErr result (Told LosesFront (rest self.old) (rest self.new)) };
}

/// An output.
pub trait Sink {
    /// How many calls have failed.
    ghost faults: { Self → ℕ };

    /// The bytes that were written, where the object tells them.
    ghost written: { Self → Option (List ℕ) };

    /// Writes all of `bytes`, or, where the call does not succeed, a first part of them.
    fn write(&mut self, bytes: &[u8]) -> Result<(), Stop<Failed>>
        ensures faults { CountsFaults (faults self.old) (faults self.new) result }
        ensures ok { OnOk result (Told (Appends bytes.now) (written self.old) (written self.new)) }
        ensures err { OnErr result (Told (AppendsFront bytes.now) (written self.old) (written self.new)) };
}
