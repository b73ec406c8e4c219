//! Why a term or a formula has no value here.
ghost use Rattle.std.specs.Prelude.{◌≡◌};
ghost use Rattle.sync_exchange_values.specs.declared.stops.EvalStop.TheVariants.{Memory};

use std::alloc::{AllocError, AllocFailed};
use sync_base::NoMemory;
use thiserror::Error;

/// A number left signed 128 bits, or memory is wanting.
#[derive(Clone, Copy, PartialEq, Eq, Debug, Error)]
pub enum EvalStop {
    #[error("a number outside signed 128 bits")]
    Width,
    #[error("no memory")]
    Memory,
}

impl From<AllocError> for EvalStop {
    ghost from_gives = { λ _ e. e ≡ Memory };

    fn from(_e: AllocError) -> EvalStop {
        EvalStop::Memory
    }
}

impl<T: Drop> From<AllocFailed<T>> for EvalStop {
    ghost from_gives = { λ _ e. e ≡ Memory };

    fn from(_e: AllocFailed<T>) -> EvalStop {
        EvalStop::Memory
    }
}

impl From<NoMemory> for EvalStop {
    ghost from_gives = { λ _ e. e ≡ Memory };

    fn from(_e: NoMemory) -> EvalStop {
        EvalStop::Memory
    }
}
