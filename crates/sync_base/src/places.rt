//! Places in lists, as numbers of 32 bits.
ghost use Rattle.std.specs.Prelude.{◌≡◌, IfOk};

use crate::stops::NoMemory;

/// The number of a place in a list. `NoMemory` where it does not fit 32 bits: no list is as long as that.
pub fn place_number(place: usize) -> Result<u32, NoMemory>
    ensures { IfOk result (λ n. n ≡ place) }
{
    u32::try_from(place).map_err(|_| NoMemory)
}
