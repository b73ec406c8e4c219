//! What the step `same` keeps of the facts that it looked at.
ghost use Rattle.std.specs.Prelude.{◌≡◌, ◌++◌, ◌∷◌, [], List, take, OnOk};
ghost use Rattle.sync_terms.specs.Stored.{Stored};
ghost use Rattle.sync_kernel_facts.specs.Facts.{Fact};
ghost use Rattle.sync_kernel.specs.Seen.{IsSeen, TellsOpposed, seen_count};

use std::alloc::{AllocError, Global};
use sync_kernel_facts::{Literal, Trail};

/// What the oldest facts of a branch say and deny, a place for each, and whether the newest of them made a
/// contradiction. The places of a fact with parameters have no literals.
#[derive(Drop)]
pub(crate) struct Seen {
    pub said: Trail,
    pub denied: Trail,
    pub closed: bool,
}

impl Seen {
    /// Before any fact is looked at.
    pub(crate) fn new(alloc: Global) -> Seen
        ensures { (s : Stored) (facts : List Fact) → IsSeen s facts result }
    {
        Seen {
            said: Trail::new(alloc),
            denied: Trail::new(alloc),
            closed: false,
        }
    }

    /// How many facts were looked at.
    pub(crate) fn len(&self) -> usize
        ensures { result ≡ seen_count self.now }
    {
        self.said.len()
    }

    /// Whether a fact that was looked at is the negation of what is said, or what is said is that of such a fact.
    pub(crate) fn opposes(&self, says: Literal, denies: Option<Literal>) -> bool
        ensures { TellsOpposed self.now says denies result }
    {
        if let Some(denied) = denies {
            if self.said.has(denied) {
                return true;
            }
        }
        self.denied.has(says)
    }

    /// Keeps what the next fact says and denies, and whether it makes a contradiction.
    pub(crate) fn push(
        &mut self,
        says: Option<Literal>,
        denies: Option<Literal>,
        closed: bool,
    ) -> Result<(), AllocError>
        ensures { OnOk result (self.new ≡ record { said = self.old.said ++ says ∷ []; denied = self.old.denied ++ denies ∷ []; closed = closed }) }
    {
        self.said.push(says)?;
        self.denied.push(denies)?;
        self.closed = closed;
        Ok(())
    }

    /// Leaves what was seen of the first facts, so many.
    pub(crate) fn cut_back(&mut self, len: usize)
        ensures { (s : Stored) (facts : List Fact) → IsSeen s facts self.old → IsSeen s (take len facts) self.new }
    {
        if self.len() > len {
            self.closed = false;
        }
        self.said.cut_back(len);
        self.denied.cut_back(len);
    }
}
