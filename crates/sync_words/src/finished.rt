//! The words of a table that has ended.
ghost use Rattle.std.specs.Prelude.{◌≡◌};
ghost use Rattle.core.specs.Mem.Slots.{slots_len, IsFull};

use atomic_table::Closed;
use std::alloc::Global;

/// The words that a table ended with.
pub struct Finished {
    pub(crate) closed: Closed<u8, Global>,
    ghost full: { IsFull closed.words },
    ghost bare: { slots_len closed.slots ≡ 0 },
}

impl Drop for Finished {
    fn drop(self) {
        let Finished { closed } = self;
        closed.free();
    }
}
