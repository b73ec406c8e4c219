//! How far a hand was, so that a branch can be undone.
ghost use Rattle.sync_typing_places.specs.Hands.{Begins, IsMarkOf, IsSame};

use crate::hands::Hand;

/// How much a hand said and had, and where its floors were.
#[derive(Clone, Copy)]
pub struct Mark {
    names: usize,
    names_floor: usize,
    places: usize,
    places_floor: usize,
    tokens: usize,
}

impl Hand {
    /// How far the hand is.
    pub fn mark(&self) -> Mark
        ensures { IsMarkOf self.now result }
    {
        Mark {
            names: self.names.len(),
            names_floor: self.names.floor(),
            places: self.places.len(),
            places_floor: self.places.floor(),
            tokens: self.tokens.len(),
        }
    }

    /// Takes back what came after a mark. It costs as much as came.
    pub fn undo(&mut self, mark: Mark)
        ensures { (h : Hand) → IsMarkOf h mark → Begins h self.old → IsSame h self.new }
    {
        self.names.cut_back(mark.names);
        self.names.put_floor(mark.names_floor);
        self.places.cut_back(mark.places);
        self.places.put_floor(mark.places_floor);
        self.tokens.truncate(mark.tokens);
    }
}
