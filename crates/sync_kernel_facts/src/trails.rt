//! Literals in the order in which they came, of which the newest can be taken back.
ghost use Rattle.std.specs.Prelude.{◌≡◌, ◌-◌, ◌++◌, ◌∷◌, [], length, take, OnOk};

use crate::literals::Literal;
use std::alloc::{AllocError, Global};
use std::collections::HashMap;
use std::marker::Model;

/// Literals, oldest first, and the first place of each. A place may have none.
#[derive(Drop)]
pub struct Trail {
    entries: Vec<Option<Literal>>,
    places: HashMap<Literal, usize>,
}

impl Model for Trail {
    ghost use Rattle.std.specs.Prelude.{List, Option, ◌≡◌};
    ghost use Rattle.std.specs.HashMap.{get};
    ghost use Rattle.sync_kernel_facts.specs.declared.literals.Literal.{Literal};

    ghost Value = { List (Option Literal) };

    ghost use Rattle.sync_kernel_facts.specs.Literals.{same_literal};
    ghost use Rattle.sync_kernel_facts.specs.Trails.{first_place};

    ghost view = { λ t. t.entries.items };

    ghost invariant = { λ t. (l : Literal) → get same_literal t.places l ≡ first_place 0 l t.entries.items };
}

impl Trail {
    ghost use Rattle.sync_kernel_facts.specs.Trails.{has_entry};

    /// A trail without places.
    pub fn new(alloc: Global) -> Trail
        ensures { result ≡ [] }
    {
        Trail {
            entries: Vec::new(alloc),
            places: HashMap::new(alloc),
        }
    }

    /// The number of places.
    pub fn len(&self) -> usize
        ensures { result ≡ length self.now }
    {
        self.entries.len()
    }

    /// Whether a place has this literal.
    pub fn has(&self, literal: Literal) -> bool
        ensures { result ≡ has_entry self.now literal }
    {
        self.places.contains_key(&literal)
    }

    /// Adds a place.
    pub fn push(&mut self, entry: Option<Literal>) -> Result<(), AllocError>
        ensures { OnOk result (self.new ≡ self.old ++ entry ∷ []) }
    {
        let place = self.entries.len();
        self.entries.reserve(1)?;
        if let Some(literal) = entry {
            if !self.places.contains_key(&literal) {
                self.places.insert(literal, place)?;
            }
        }
        let pushed: Result<(), _> = self.entries.push(entry);
        pushed.unwrap();
        Ok(())
    }

    /// Takes the newest place away.
    fn pop(&mut self)
        ensures { self.new ≡ take (length self.old - 1) self.old }
    {
        let Some(entry) = self.entries.pop() else {
            return;
        };
        let Some(literal) = entry else {
            return;
        };
        if let Some(&place) = self.places.get(&literal) {
            if place == self.entries.len() {
                self.places.remove(&literal);
            }
        }
    }

    /// Leaves the first places, so many, and takes those behind them away.
    pub fn cut_back(&mut self, len: usize)
        ensures { self.new ≡ take len self.old }
    {
        while self.len() > len {
            self.pop();
        }
    }
}
