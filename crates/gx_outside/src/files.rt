//! The trait of a source of files.

ghost use Rattle.std.specs.Prelude.{◌≡◌, ◌≤◌, ℕ, Bool, true, false, List, Option, length, IsSome, IfOk, OnOk, OnErr};
ghost use Rattle.std.specs.Io.KnownBytes.{ReadConsumes};
ghost use Rattle.gx_outside.specs.Faults.{HasCause};
ghost use Rattle.gx_outside.specs.Contents.{Contents, Opens, HasOpenCause};

use crate::Failed;

/// A source of named files. At most one of them is open.
pub trait Files {
    // the names and the bytes of the files, if they are known
    ghost contents: { Self → Option Contents };

    // the bytes of the open file that are still to be read, if they are known
    ghost rest: { Self → Option (List ℕ) };

    // whether a file is open
    ghost is_open: { Self → Bool };

    // how many faults the source has met, up to the last number of `u64`
    ghost faults: { Self → ℕ };

    /// Opens the file of this name, to be read from its start.
    ///
    /// # Errors
    ///
    /// `Failed` if the source met a fault, which it counts, or if its contents are known and have
    /// no such name. No file is open then.
    fn open(&mut self, name: &str) -> Result<(), Failed>
        ensures contents_kept { contents self.new ≡ contents self.old }
        ensures faults_only_rise { faults self.old ≤ faults self.new }
        ensures open_if_ok { OnOk result (is_open self.new ≡ true) }
        ensures rest_is_whole_file { OnOk result
            (Opens (contents self.old) name.now (rest self.new)) }
        ensures closed_if_err { OnErr result (is_open self.new ≡ false) }
        ensures err_has_cause { HasOpenCause (faults self.old) (faults self.new) (contents self.old)
            name.now result };

    /// Moves the next bytes of the open file to the start of `buf` and returns how many: at least
    /// one if `buf` has room and the file is not at its end.
    ///
    /// # Errors
    ///
    /// `Failed` if the source met a fault, which it counts. No byte is lost then.
    fn read(&mut self, buf: &mut [u8]) -> Result<usize, Failed>
        requires { is_open self.old ≡ true }
        ensures contents_kept { contents self.new ≡ contents self.old }
        ensures faults_only_rise { faults self.old ≤ faults self.new }
        ensures stays_open { is_open self.new ≡ true }
        ensures within_buf { IfOk result (λ n. n ≤ length buf.old) }
        ensures rest_consumed { ReadConsumes (rest self.old) (rest self.new) result buf.new }
        ensures err_has_cause { HasCause (faults self.old) (faults self.new) result };

    // if the contents are known and a file is open, its rest is known
    ghost knows_rest: { (s : Self) → IsSome (contents s) → is_open s ≡ true → IsSome (rest s) };
}
