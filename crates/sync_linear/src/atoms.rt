//! Numbers of times of atoms, by their ids.
ghost use Rattle.std.specs.Prelude.{◌≡◌, ◌≢◌, ℕ, ℤ, pos, Err, OnOk, IfOk, nat_eq, if◌then◌else◌, IsTrue, ◌↔◌, ◌*ℤ◌, FitsSigned, map};
ghost use Rattle.std.specs.Int.{w128, int_wrapping_mul};
ghost use Rattle.sync_linear.specs.Changes.{changed, ChangeFits};
ghost use Rattle.sync_linear.specs.Lines.{times, HasNoZero};
ghost use Rattle.sync_linear.specs.declared.stops.LinearStop.TheVariants.{Width};

use crate::changes::{Change, Pair};
use crate::stops::LinearStop;
use std::collections::BTreeMap;
use std::collections::btree_map::Entry;

/// How many times each atom stands in a line, none of them 0.
pub(crate) type Atoms = BTreeMap<u32, i128>;

/// Changes how many times one atom stands there.
pub(crate) fn change_at(
    atoms: &mut Atoms,
    how: Change,
    id: u32,
    by: &i128,
) -> Result<(), LinearStop>
    ensures fits { OnOk result (ChangeFits how (times atoms.old.entries id) by.now) }
    ensures width { result ≡ Err Width → ChangeFits how (times atoms.old.entries id) by.now → ⊥ }
    ensures others { OnOk result ((q : ℕ) → times atoms.new.entries q
        ≡ (if nat_eq id q then changed how (times atoms.old.entries q) by.now else times atoms.old.entries q)) }
    ensures no_zero { OnOk result (HasNoZero atoms.old.entries → HasNoZero atoms.new.entries) }
{
    match atoms.entry(id)? {
        Entry::Vacant(place) => match how.of(Pair { old: 0, by: *by }) {
            None => Err(LinearStop::Width),
            Some(0) => Ok(()),
            Some(new) => {
                place.insert(new);
                Ok(())
            }
        },
        Entry::Occupied(mut place) => match how.of(Pair {
            old: *place.get(),
            by: *by,
        }) {
            None => Err(LinearStop::Width),
            Some(0) => {
                place.remove();
                Ok(())
            }
            Some(new) => {
                place.insert(new);
                Ok(())
            }
        },
    }
}

/// All the atoms of `by` change those of `atoms`, which are given back.
pub(crate) fn change_all(atoms: Atoms, how: Change, by: &Atoms) -> Result<Atoms, LinearStop>
    requires { HasNoZero by.now.entries }
    ensures changed { IfOk result (λ new. (q : ℕ) → times new.entries q
        ≡ changed how (times atoms.entries q) (times by.now.entries q)) }
    ensures fits { OnOk result ((q : ℕ) → times by.now.entries q ≢ pos 0
        → ChangeFits how (times atoms.entries q) (times by.now.entries q)) }
    ensures width { result ≡ Err Width → ((q : ℕ) → ChangeFits how (times atoms.entries q) (times by.now.entries q))
        → ⊥ }
    ensures no_zero { IfOk result (λ new. HasNoZero atoms.entries → HasNoZero new.entries) }
{
    let mut sum = atoms;
    for (id, times) in by {
        change_at(&mut sum, how, *id, times)?;
    }
    Ok(sum)
}

/// Whether each number of times, multiplied, stays within signed 128 bits.
pub(crate) fn all_fit(atoms: &Atoms, factor: i128) -> bool
    ensures { IsTrue result ↔ ((q : ℕ) → FitsSigned w128 (factor *ℤ times atoms.now.entries q)) }
{
    atoms
        .values()
        .all(|number| factor.checked_mul(*number).is_some())
}

/// Multiplies each number of times in place. A product that leaves signed 128 bits wraps.
///
/// `retain` keeps them all: its contract says what is written to each number, that of `values_mut` does not.
pub(crate) fn scale_all(atoms: &mut Atoms, factor: i128)
    ensures { atoms.new.entries ≡ map (λ e. (e.0, int_wrapping_mul w128 factor e.1)) atoms.old.entries }
{
    atoms.retain(|_, number| {
        *number = factor.wrapping_mul(*number);
        true
    });
}
