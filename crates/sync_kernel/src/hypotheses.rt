//! Hypotheses that are ready for the proofs of many claims.
ghost use Rattle.std.specs.Prelude.{◌≡◌, ◌+◌, ◌++◌, ◌∷◌, [], length, take, not, nat_lt, OnOk, OnErr};
ghost use Rattle.sync_terms.specs.Trees.{most_nodes};
ghost use Rattle.sync_terms.specs.Stored.{Stored, IsForm};
ghost use Rattle.sync_kernel_facts.specs.Facts.{fact_of, facts_size};

use crate::notes::Notes;
use std::alloc::{AllocError, Global};
use sync_kernel_facts::{Branch, Hyp, Literal, Said};
use sync_terms::Terms;

/// Hypotheses by their names, newest last, from which scripts may prove, and what is kept beside them from one proof to the next.
#[derive(Drop)]
pub struct Hypotheses {
    pub(crate) branch: Branch,
    pub(crate) notes: Notes,
}

impl Hypotheses {
    ghost use Rattle.sync_kernel.specs.Hypotheses.{AreReady, known_in};

    /// No hypotheses.
    pub fn new(alloc: Global) -> Hypotheses
        ensures ready { (s : Stored) → AreReady s result }
        ensures known { (s : Stored) → known_in s result ≡ [] }
    {
        Hypotheses {
            branch: Branch::new(alloc),
            notes: Notes::new(alloc),
        }
    }

    /// Adds a hypothesis, the newest.
    pub fn push(&mut self, terms: &Terms, hyp: Hyp) -> Result<(), AllocError>
        requires ready { AreReady terms.now self.old }
        requires form { IsForm terms.now hyp.form }
        ensures ready { OnOk result (AreReady terms.now self.new) }
        ensures known { OnOk result (known_in terms.now self.new ≡ known_in terms.now self.old ++ fact_of terms.now hyp ∷ []) }
        ensures err { OnErr result (self.new ≡ self.old) }
    {
        let says = Literal::plain(hyp.form);
        self.branch
            .push(Said::new(terms, hyp.name, hyp.params, says))?;
        Ok(())
    }

    /// The number of hypotheses.
    pub fn len(&self) -> usize
        ensures { (s : Stored) → result ≡ length (known_in s self.now) }
    {
        self.branch.len()
    }

    /// Leaves the oldest hypotheses, so many, and takes the newer ones back.
    pub fn cut_back(&mut self, len: usize)
        ensures ready { (s : Stored) → AreReady s self.old → AreReady s self.new }
        ensures known { (s : Stored) → known_in s self.new ≡ take len (known_in s self.old) }
    {
        self.branch.cut_back(len);
        self.notes.cut_back(len);
    }

    /// Whether their formulas have at most `MOST_NODES` nodes together with so many more.
    pub fn fit(&self, more: u64) -> bool
        ensures { (s : Stored) → AreReady s self.now → result ≡ not (nat_lt most_nodes (facts_size (known_in s self.now) + more)) }
    {
        self.branch.fits(more)
    }
}
