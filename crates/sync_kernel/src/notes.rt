//! What is kept beside the facts of a branch, for the steps `same` and `sum`.
ghost use Rattle.std.specs.Prelude.{List, take};
ghost use Rattle.sync_terms.specs.Stored.{Stored};
ghost use Rattle.sync_kernel_facts.specs.Facts.{Fact};

use crate::lines::Lines;
use crate::seen::Seen;
use std::alloc::Global;

/// What `same` has seen of the facts, and the lines that `sum` has computed. The lines stay right while facts come and
/// go, since the store only grows.
#[derive(Drop)]
pub(crate) struct Notes {
    pub seen: Seen,
    pub lines: Lines,
}

impl Notes {
    ghost use Rattle.sync_kernel.specs.Notes.{AreNotes};

    /// Before any fact is looked at.
    pub(crate) fn new(alloc: Global) -> Notes
        ensures { (s : Stored) (facts : List Fact) → AreNotes s facts result }
    {
        Notes {
            seen: Seen::new(alloc),
            lines: Lines::new(alloc),
        }
    }

    /// Leaves what was seen of the first facts, so many, and the lines.
    pub(crate) fn cut_back(&mut self, len: usize)
        ensures { (s : Stored) (facts : List Fact) → AreNotes s facts self.old → AreNotes s (take len facts) self.new }
    {
        self.seen.cut_back(len);
    }
}
