//! Sums of amounts, and why a join stops.
ghost use Rattle.std.specs.Prelude.{◌≡◌, pos, IfSome, IfNone};
ghost use Rattle.sync_join.specs.declared.sums.JoinStop.TheVariants.{Memory};
ghost use Rattle.sync_join.specs.Join as shards;
ghost use Rattle.sync_join.specs.Widths.{SumsFit};

use crate::tokens::Token;
use std::alloc::{AllocError, AllocFailed};
use sync_base::NoMemory;
use thiserror::Error;

/// A sum left signed 128 bits, or memory is wanting.
#[derive(Clone, Copy, PartialEq, Eq, Debug, Error)]
pub enum JoinStop {
    #[error("a sum outside signed 128 bits")]
    Width,
    #[error("no memory")]
    Memory,
}

impl From<AllocError> for JoinStop {
    ghost from_gives = { λ _ e. e ≡ Memory };

    fn from(_e: AllocError) -> JoinStop {
        JoinStop::Memory
    }
}

impl<T: Drop> From<AllocFailed<T>> for JoinStop {
    ghost from_gives = { λ _ e. e ≡ Memory };

    fn from(_e: AllocFailed<T>) -> JoinStop {
        JoinStop::Memory
    }
}

impl From<NoMemory> for JoinStop {
    ghost from_gives = { λ _ e. e ≡ Memory };

    fn from(_e: NoMemory) -> JoinStop {
        JoinStop::Memory
    }
}

/// The sum of a field's tokens, none where a partial sum leaves signed 128 bits.
pub(crate) fn sum_of(tokens: &[Token], field: u32) -> Option<i128>
    ensures sum { IfSome result (λ n. n ≡ shards.sum_of (shards.tokens_of field tokens.now)) }
    ensures fits { IfSome result (λ _. SumsFit (pos 0) (shards.tokens_of field tokens.now)) }
    ensures wide { IfNone result (SumsFit (pos 0) (shards.tokens_of field tokens.now) → ⊥) }
{
    let mut sum = 0_i128;
    for token in tokens {
        if token.field == field {
            sum = sum.checked_add(token.value)?;
        }
    }
    Some(sum)
}
