//! Lines: a constant and a number of times each atom.
ghost use Rattle.std.specs.Prelude.{◌≡◌, ◌<ℤ◌, ◌↔◌, pos, [], IsTrue, Err, OnOk, OnErr, IfOk};
ghost use Rattle.sync_linear.specs.declared.changes.Change.TheVariants.{Plus, Times};
ghost use Rattle.sync_linear.specs.declared.stops.LinearStop.TheVariants.{Width};
ghost use Rattle.sync_linear.specs.Lines.{IsLine, IsChanged, LineFits};
ghost use Rattle.sync_linear.specs.Leaves.{leaf_line};
ghost use Rattle.sync_linear.specs.declared.leaves.Leaf.TheVariants.{Number, Atom};

use crate::atoms::{Atoms, all_fit, change_all, change_at, scale_all};
use crate::changes::{Change, Pair};
use crate::leaves::Leaf;
use crate::stops::LinearStop;
use std::alloc::Global;
use std::collections::BTreeMap;
use std::marker::Model;

/// A constant and an ordered list of atoms, each with a number of times that is not 0.
#[derive(Debug, Drop)]
pub struct Linear {
    pub(crate) alloc: Global,
    pub(crate) constant: i128,
    pub(crate) atoms: Atoms,
}

impl Model for Linear {
    ghost use Rattle.sync_linear.specs.Lines.{Line, IsLine};

    ghost Value = { Line };

    ghost view = { λ l. record { constant = l.constant; atoms = l.atoms.entries } };

    ghost invariant = { λ l. IsLine (record { constant = l.constant; atoms = l.atoms.entries }) };
}

impl Linear {
    /// The line that is 0.
    pub fn zero(alloc: Global) -> Linear
        ensures { result ≡ record { constant = pos 0; atoms = [] } }
    {
        Linear {
            alloc,
            constant: 0,
            atoms: BTreeMap::new(alloc),
        }
    }

    /// The line that is this number.
    pub fn number(alloc: Global, constant: i128) -> Linear
        ensures { result ≡ record { constant = constant; atoms = [] } }
    {
        Linear {
            alloc,
            constant,
            atoms: BTreeMap::new(alloc),
        }
    }

    /// Adds c times the other line. `Width` comes exactly where the scaled line or the sum leaves signed 128 bits.
    /// This line is copied first; `changed` adds in place.
    pub fn add_scaled(&mut self, c: i128, other: &Linear) -> Result<(), LinearStop>
        ensures sum { OnOk result (IsChanged (Times c) self.old other.now self.new) }
        ensures fits { OnOk result (LineFits (Times c) self.old other.now) }
        ensures width { result ≡ Err Width → LineFits (Times c) self.old other.now → ⊥ }
        ensures kept { OnErr result (self.new ≡ self.old) }
    {
        let copy = Linear::zero(self.alloc).changed(Change::Plus, self)?;
        *self = copy.changed(Change::Times(c), other)?;
        Ok(())
    }

    /// This line, changed by another one at its constant and at each of the other's atoms.
    ///
    /// `Width` comes exactly where a step of the change leaves signed 128 bits. What it costs goes with the length of
    /// the other line, times the logarithm of this one's.
    pub fn changed(self, how: Change, other: &Linear) -> Result<Linear, LinearStop>
        ensures changed { IfOk result (λ line. IsChanged how self other.now line) }
        ensures fits { OnOk result (LineFits how self other.now) }
        ensures width { result ≡ Err Width → LineFits how self other.now → ⊥ }
    {
        let Linear {
            alloc,
            constant,
            atoms,
        } = self;
        let pair = Pair {
            old: constant,
            by: other.constant,
        };
        let constant = match how.of(pair) {
            Some(constant) => constant,
            None => return Err(LinearStop::Width),
        };
        let atoms = change_all(atoms, how, &other.atoms)?;
        Ok(Linear {
            alloc,
            constant,
            atoms,
        })
    }

    /// The line of a leaf.
    pub(crate) fn of_leaf(alloc: Global, leaf: Leaf) -> Result<Linear, LinearStop>
        ensures line { IfOk result (λ line. IsChanged Plus (record { constant = pos 0; atoms = [] }) (leaf_line leaf) line) }
        ensures memory { result ≡ Err Width → ⊥ }
    {
        match leaf {
            Leaf::Number(constant) => Ok(Linear::number(alloc, constant)),
            Leaf::Atom(id, times) => {
                let mut atoms = BTreeMap::new(alloc);
                change_at(&mut atoms, Change::Plus, id, &times)?;
                Ok(Linear {
                    alloc,
                    constant: 0,
                    atoms,
                })
            }
        }
    }

    /// This line, changed by a leaf, as `changed` does it with the leaf's line.
    pub(crate) fn changed_by_leaf(self, how: Change, leaf: Leaf) -> Result<Linear, LinearStop>
        ensures changed { IfOk result (λ line. IsChanged how self (leaf_line leaf) line) }
        ensures fits { OnOk result (LineFits how self (leaf_line leaf)) }
        ensures width { result ≡ Err Width → LineFits how self (leaf_line leaf) → ⊥ }
    {
        match leaf {
            Leaf::Number(by) => self.changed_by_number(how, by),
            Leaf::Atom(id, times) => self.changed_by_atom(how, id, times),
        }
    }

    fn changed_by_number(self, how: Change, by: i128) -> Result<Linear, LinearStop>
        ensures changed { IfOk result (λ line. IsChanged how self (leaf_line (Number by)) line) }
        ensures fits { OnOk result (LineFits how self (leaf_line (Number by))) }
        ensures width { result ≡ Err Width → LineFits how self (leaf_line (Number by)) → ⊥ }
    {
        let Linear {
            alloc,
            constant,
            atoms,
        } = self;
        match how.of(Pair { old: constant, by }) {
            Some(constant) => Ok(Linear {
                alloc,
                constant,
                atoms,
            }),
            None => Err(LinearStop::Width),
        }
    }

    fn changed_by_atom(self, how: Change, id: u32, times: i128) -> Result<Linear, LinearStop>
        ensures changed { IfOk result (λ line. IsChanged how self (leaf_line (Atom id times)) line) }
        ensures fits { OnOk result (LineFits how self (leaf_line (Atom id times))) }
        ensures width { result ≡ Err Width → LineFits how self (leaf_line (Atom id times)) → ⊥ }
    {
        let Linear {
            alloc,
            constant,
            mut atoms,
        } = self;
        change_at(&mut atoms, how, id, &times)?;
        Ok(Linear {
            alloc,
            constant,
            atoms,
        })
    }

    /// So many times this line, in place. `Width` comes exactly where one of its numbers leaves signed 128 bits.
    pub(crate) fn scaled(self, times: i128) -> Result<Linear, LinearStop>
        ensures changed { IfOk result (λ line. IsChanged (Times times) (record { constant = pos 0; atoms = [] }) self line) }
        ensures fits { OnOk result (LineFits (Times times) (record { constant = pos 0; atoms = [] }) self) }
        ensures width { result ≡ Err Width → LineFits (Times times) (record { constant = pos 0; atoms = [] }) self → ⊥ }
    {
        let Linear {
            alloc,
            constant,
            mut atoms,
        } = self;
        if times == 0 {
            return Ok(Linear::zero(alloc));
        }
        let Some(constant) = times.checked_mul(constant) else {
            return Err(LinearStop::Width);
        };
        if !all_fit(&atoms, times) {
            return Err(LinearStop::Width);
        }
        scale_all(&mut atoms, times);
        Ok(Linear {
            alloc,
            constant,
            atoms,
        })
    }

    /// Whether no atom stands here.
    pub fn is_number(&self) -> bool
        ensures exact { IsTrue result ↔ (self.now.atoms ≡ []) }
        ensures line { IsLine self.now }
    {
        self.atoms.is_empty()
    }

    /// Whether no atom stands here and the constant is above 0.
    pub fn shows(&self) -> bool
        ensures exact { IsTrue result ↔ ((self.now.atoms ≡ []) × (pos 0 <ℤ self.now.constant)) }
        ensures line { IsLine self.now }
    {
        self.atoms.is_empty() && self.constant > 0
    }

    /// Whether no atom stands here and the constant is 0.
    pub fn is_zero(&self) -> bool
        ensures exact { IsTrue result ↔ ((self.now.atoms ≡ []) × (self.now.constant ≡ pos 0)) }
        ensures line { IsLine self.now }
    {
        self.atoms.is_empty() && self.constant == 0
    }
}
