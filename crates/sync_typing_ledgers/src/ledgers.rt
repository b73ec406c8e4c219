//! Entries under keys, of which the newest can be taken back, and the older be put below a floor.
ghost use Rattle.std.specs.Prelude.{◌≡◌, ◌∷◌, [], drop, length, option_map, OnOk, OnErr};
ghost use Rattle.sync_typing_ledgers.specs.Entries.{found_at, newest, oldest};

use std::alloc::Global;
use std::collections::HashMap;
use std::marker::Model;
use sync_base::NoMemory;

/// A key's newest entry: the number of entries before it, and its value.
#[derive(Clone, Copy)]
pub(crate) struct Place {
    pub at: usize,
    pub value: u32,
}

/// An entry, with the entry that its key had before.
#[derive(Clone, Copy)]
pub(crate) struct Step {
    pub key: u32,
    pub value: u32,
    pub hidden: Option<Place>,
}

/// What a key stands for, and whether that was put below the floor.
#[derive(Clone, Copy, PartialEq, Eq, Debug)]
pub struct Found {
    pub value: u32,
    pub is_below: bool,
}

/// Entries under keys. A key stands for its newest entry. The oldest entries, so many, are below the floor.
#[derive(Drop)]
pub struct Ledger {
    steps: Vec<Step>,
    places: HashMap<u32, Place>,
    floor: usize,
}

impl Model for Ledger {
    ghost use Rattle.std.specs.Prelude.{ℕ, ◌≡◌, nat_eq, reverse};
    ghost use Rattle.std.specs.HashMap.{get};
    ghost use Rattle.sync_typing_ledgers.specs.Entries.{Kept, newest};
    ghost use Rattle.sync_typing_ledgers.specs.Steps.{entries_of, HideOlder};

    ghost Value = { Kept };

    ghost view = { λ l. record { entries = entries_of (reverse l.steps.items); floor = l.floor } };

    ghost invariant = { λ l. ((k : ℕ) → get nat_eq l.places k ≡ newest k (entries_of (reverse l.steps.items)))
        × HideOlder (reverse l.steps.items) };
}

impl Ledger {
    /// A ledger without entries.
    pub fn new(alloc: Global) -> Ledger
        ensures { result ≡ record { entries = []; floor = 0 } }
    {
        Ledger {
            steps: Vec::new(alloc),
            places: HashMap::new(alloc),
            floor: 0,
        }
    }

    /// The number of entries.
    pub fn len(&self) -> usize
        ensures { result ≡ length self.now.entries }
    {
        self.steps.len()
    }

    /// The number of entries below the floor.
    pub fn floor(&self) -> usize
        ensures { result ≡ self.now.floor }
    {
        self.floor
    }

    /// What a key stands for.
    pub fn find(&self, key: u32) -> Option<Found>
        ensures { result ≡ option_map (found_at self.now.floor) (newest key self.now.entries) }
    {
        match self.places.get(&key) {
            Some(&place) => Some(Found {
                value: place.value,
                is_below: place.at < self.floor,
            }),
            None => None,
        }
    }

    /// Adds an entry.
    pub fn push(&mut self, key: u32, value: u32) -> Result<(), NoMemory>
        ensures ok { OnOk result (self.new ≡
            record self.old { entries = record { key = key; value = value } ∷ self.old.entries }) }
        ensures err { OnErr result (self.new ≡ self.old) }
    {
        let at = self.steps.len();
        self.steps.reserve(1)?;
        let hidden = self.places.insert(key, Place { at, value })?;
        let pushed: Result<(), _> = self.steps.push(Step { key, value, hidden });
        pushed.unwrap();
        Ok(())
    }

    /// Takes the newest entry away.
    fn pop(&mut self)
        ensures { self.new ≡ record self.old { entries = drop 1 self.old.entries } }
    {
        let Some(step) = self.steps.pop() else {
            return;
        };
        match step.hidden {
            Some(place) => {
                let put: Result<_, _> = self.places.insert(step.key, place);
                put.unwrap();
            }
            None => {
                self.places.remove(&step.key);
            }
        }
    }

    /// Leaves the oldest entries, so many, and takes the newer ones away.
    pub fn cut_back(&mut self, len: usize)
        ensures { self.new ≡ record self.old { entries = oldest len self.old.entries } }
    {
        while self.len() > len {
            self.pop();
        }
    }

    /// Puts all entries below the floor.
    pub fn raise_floor(&mut self)
        ensures { self.new ≡ record self.old { floor = length self.old.entries } }
    {
        self.floor = self.steps.len();
    }

    /// Puts the floor where it was.
    pub fn put_floor(&mut self, floor: usize)
        ensures { self.new ≡ record self.old { floor = floor } }
    {
        self.floor = floor;
    }
}
