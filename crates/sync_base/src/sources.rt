//! Where a text comes from.
ghost use Rattle.std.specs.Prelude.{◌≡◌, ℕ, ◌<◌, ◌≤◌, List, length, take, Option, IfOk, OnOk, OnErr};
ghost use Rattle.sync_base.specs.Outside.{Rose, GivesFront, EndsAt, TellsAlike};

use crate::stops::Failed;

/// A source of bytes.
///
/// It tells the bytes that are still to come, or tells nothing of them, and counts its faults. The count never
/// falls, and ends at 2^64 - 1.
pub trait Source {
    ghost left: { Self → Option (List ℕ) };

    ghost faults: { Self → ℕ };

    /// Puts the next bytes into the front of the buffer, and says how many.
    ///
    /// `Ok(0)` is the end of the input. A call that fails gives nothing.
    fn read(&mut self, buf: &mut [u8]) -> Result<usize, Failed>
        requires { 0 < length buf.old }
        ensures within { IfOk result (λ n. n ≤ length buf.new) }
        ensures given { IfOk result (λ n. GivesFront (left self.old) (left self.new) (take n buf.new)) }
        ensures ended { IfOk result (λ n. EndsAt (left self.old) n) }
        ensures sound { OnOk result (faults self.new ≡ faults self.old) }
        ensures kept { OnErr result (left self.new ≡ left self.old) }
        ensures failed { OnErr result (Rose (faults self.old) (faults self.new)) }
        ensures told { TellsAlike (left self.old) (left self.new) };
}
