//! Why a line could not be made.
ghost use Rattle.std.specs.Prelude.{◌≡◌};
ghost use Rattle.sync_linear.specs.declared.stops.LinearStop.TheVariants.{Memory};

use std::alloc::{AllocError, AllocFailed};
use thiserror::Error;

/// A number left signed 128 bits, or memory is wanting.
#[derive(Clone, Copy, PartialEq, Eq, Debug, Error)]
pub enum LinearStop {
    #[error("a number outside signed 128 bits")]
    Width,
    #[error("no memory")]
    Memory,
}

impl From<AllocError> for LinearStop {
    ghost from_gives = { λ _ e. e ≡ Memory };

    fn from(_e: AllocError) -> LinearStop {
        LinearStop::Memory
    }
}

impl<T: Drop> From<AllocFailed<T>> for LinearStop {
    ghost from_gives = { λ _ e. e ≡ Memory };

    fn from(_e: AllocFailed<T>) -> LinearStop {
        LinearStop::Memory
    }
}
