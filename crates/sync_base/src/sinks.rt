//! Where printed text goes.
ghost use Rattle.std.specs.Prelude.{◌≡◌, ℕ, ◌<◌, ◌≤◌, List, length, take, Option, IfOk, OnOk, OnErr};
ghost use Rattle.sync_base.specs.Outside.{Rose, gained};

use crate::stops::Failed;

/// A sink of bytes.
///
/// It tells the bytes that it got, or tells nothing of them, and counts its faults. The count never falls, and
/// ends at 2^64 - 1.
pub trait Sink {
    ghost got: { Self → Option (List ℕ) };

    ghost faults: { Self → ℕ };

    /// Takes bytes from the front of the piece, at least one, and says how many.
    fn write(&mut self, piece: &[u8]) -> Result<usize, Failed>
        requires { 0 < length piece.now }
        ensures some { IfOk result (λ n. 0 < n) }
        ensures within { IfOk result (λ n. n ≤ length piece.now) }
        ensures taken { IfOk result (λ n. got self.new ≡ gained (got self.old) (take n piece.now)) }
        ensures sound { OnOk result (faults self.new ≡ faults self.old) }
        ensures kept { OnErr result (got self.new ≡ got self.old) }
        ensures failed { OnErr result (Rose (faults self.old) (faults self.new)) };
}
