//! How code ends that gives no answer.

ghost use Rattle.std.specs.Prelude.{◌≡◌};
ghost use Rattle.sync_thread_events.specs.declared.endings.Halted.TheVariants.{Memory};

use std::alloc::AllocError;

/// Why there is no answer.
#[derive(Clone, Copy, PartialEq, Eq, Debug)]
pub enum Halted {
    /// The code cannot go on.
    Stuck,
    Memory,
}

impl From<AllocError> for Halted {
    ghost from_gives = { λ _ halted. halted ≡ Memory };

    fn from(_error: AllocError) -> Halted {
        Halted::Memory
    }
}
