//! Why reading stops.
ghost use Rattle.std.specs.Prelude.{◌≡◌};
ghost use Rattle.sync_parse_exprs.specs.declared.faults.Halt.TheVariants.{Memory};

use std::alloc::{AllocError, AllocFailed};

/// The first broken rule of the grammar, with the line of its lexeme.
#[derive(Clone, Copy, PartialEq, Eq, Debug)]
pub enum Fault {
    /// The text ended where a lexeme was wanted.
    Ended,
    /// Another lexeme was wanted here.
    Wanted(u32),
    /// More than 64 brackets are open before this lexeme, or it is the 65th operator of a chain or sign of a run.
    Deep(u32),
    /// A version other than 1.
    Version(u32),
    /// A form that is not built yet.
    Unbuilt(u32),
}

/// A fault, or want of memory.
#[derive(Clone, Copy, PartialEq, Eq, Debug)]
pub enum Halt {
    Memory,
    Fault(Fault),
}

impl From<AllocError> for Halt {
    ghost from_gives = { λ _ e. e ≡ Memory };

    fn from(_e: AllocError) -> Halt {
        Halt::Memory
    }
}

impl<T: Drop> From<AllocFailed<T>> for Halt {
    ghost from_gives = { λ _ e. e ≡ Memory };

    fn from(_e: AllocFailed<T>) -> Halt {
        Halt::Memory
    }
}
