//! The trait of a sink of bytes.

ghost use Rattle.std.specs.Prelude.{◌≤◌, ◌<◌, ◌↔◌, ℕ, List, Option, length, IfOk, IsSome};
ghost use Rattle.std.specs.Io.KnownBytes.{WriteAppends};
ghost use Rattle.gx_outside.specs.Faults.{HasCause};

use crate::Failed;

/// A sink of bytes.
pub trait Sink {
    // the bytes written so far, if they are known
    ghost written: { Self → Option (List ℕ) };

    // how many faults the sink has met, up to the last number of `u64`
    ghost faults: { Self → ℕ };

    /// Takes bytes from the start of `piece` and returns how many: at least one if it is not empty.
    ///
    /// # Errors
    ///
    /// `Failed` if the sink met a fault, which it counts. A device that takes nothing of a piece
    /// that is not empty has failed. Nothing was written then.
    fn write(&mut self, piece: &[u8]) -> Result<usize, Failed>
        ensures known_stays_known { IsSome (written self.new) ↔ IsSome (written self.old) }
        ensures faults_only_rise { faults self.old ≤ faults self.new }
        ensures within_piece { IfOk result (λ n. n ≤ length piece.now) }
        ensures takes_some { IfOk result (λ n. 0 < length piece.now → 0 < n) }
        ensures piece_appended { WriteAppends (written self.old) (written self.new) result
            piece.now }
        ensures err_has_cause { HasCause (faults self.old) (faults self.new) result };
}
