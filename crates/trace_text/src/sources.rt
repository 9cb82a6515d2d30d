//! Where input comes from.

ghost use Rattle.std.specs.Prelude.{◌≡◌, ◌<◌, ◌≤◌, ℕ, List, [], length, Option, IfOk, OnOk, OnErr, IfSome};
ghost use Rattle.trace_text.specs.Faults.{Rose};
ghost use Rattle.trace_text.specs.Streams.{GivesFirst, TookAtMost};

use crate::Failed;

/// A stream of bytes that is read in pieces.
pub trait Source {
    /// The bytes that are left, where the source tells them.
    ghost left: { Self → Option (List ℕ) };

    /// How many faults the source has counted. The count never falls, and is still at 2^64 - 1.
    ghost faults: { Self → ℕ };

    /// Reads into the front of a piece, and says how many bytes. For a piece that is not empty, 0
    /// is the end of the input. At `Failed` some bytes may have been taken, no more than fit.
    fn take(&mut self, piece: &mut [u8]) -> Result<usize, Failed>
        ensures within { IfOk result (λ k. k ≤ length piece.old) }
        ensures given { IfOk result (λ k. IfSome (left self.old) (λ bytes.
            GivesFirst k piece.new bytes (left self.new))) }
        ensures end { IfOk result (λ k. k ≡ 0 → 0 < length piece.old
            → IfSome (left self.old) (λ bytes. bytes ≡ [])) }
        ensures few { OnErr result (TookAtMost (length piece.old) (left self.old) (left self.new)) }
        ensures rose { OnErr result (Rose (faults self.old) (faults self.new)) }
        ensures still { OnOk result (faults self.new ≡ faults self.old) };
}
