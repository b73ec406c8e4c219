//! The walk over the statements of an operation.
ghost use Rattle.std.specs.Prelude.{◌≡◌, ◌++◌, ◌∷◌, [], All, OnOk};
ghost use Rattle.sync_base.specs.Outcome.{Passes};
ghost use Rattle.sync_terms.specs.Stored.{Extends, IsForm};
ghost use Rattle.sync_induct.specs.Books.{IsBook};
ghost use Rattle.sync_induct.specs.Checks.{checks_fault};
ghost use Rattle.sync_terms.specs.Proofs.{proofs_in};
ghost use Rattle.sync_induct.specs.Checklist.{AreShown, step_checks};
ghost use Rattle.sync_induct.specs.Duties.{facts_behind};
ghost use Rattle.sync_kernel_facts.specs.Facts.{fact_of};
ghost use Rattle.sync_machine.specs.States.{last_values};
ghost use Rattle.sync_machine.specs.Views.{steps_tree, HasActIds};

use crate::index::Book;
use std::alloc::Global;
use sync_base::{NoMemory, Stop, place_number};
use sync_kernel::{Hyp, Hypotheses};
use sync_machine::{Field, Step};
use sync_terms::{TermId, Terms};

/// What is known at a place of an operation: the hypotheses, and each field's value so far as a term over the state before.
#[derive(Drop)]
pub struct Walk {
    pub hyps: Hypotheses,
    pub current: Vec<TermId>,
}

impl Walk {
    ghost use Rattle.sync_induct.specs.Walks.{IsWalk, HasCome, known_of, values_of};

    /// Adds a hypothesis.
    pub fn add(&mut self, terms: &Terms, hyp: Hyp) -> Result<(), NoMemory>
        requires walk { IsWalk terms.now self.old }
        requires form { IsForm terms.now hyp.form }
        ensures { OnOk result (HasCome terms.now self.new (known_of terms.now self.old ++ fact_of terms.now hyp ∷ [])
            (values_of terms.now self.old)) }
    {
        self.hyps.push(terms, hyp)?;
        Ok(())
    }

    /// Goes over the statements of an operation, in order.
    pub fn walk(
        &mut self,
        alloc: Global,
        terms: &mut Terms,
        fields: &[Field],
        op: u32,
        steps: &[Step],
        book: Book<'_>,
    ) -> Result<(), Stop>
        requires walk { IsWalk terms.old self.old }
        requires ids { All (λ x. HasActIds terms.old x.act) steps.now }
        requires book { IsBook terms.old book }
        ensures exact { Passes result (checks_fault (proofs_in terms.old book.entry.proofs.now)
            (step_checks fields.now op (values_of terms.old self.old) (known_of terms.old self.old) 1
            (steps_tree terms.old steps.now))) }
        ensures shown { OnOk result (AreShown (step_checks fields.now op (values_of terms.old self.old)
            (known_of terms.old self.old) 1 (steps_tree terms.old steps.now))) }
        ensures come { OnOk result (HasCome terms.new self.new
            (facts_behind fields.now (values_of terms.old self.old) (known_of terms.old self.old) 1
            (steps_tree terms.old steps.now))
            (last_values fields.now (values_of terms.old self.old) (steps_tree terms.old steps.now))) }
        ensures keeps { Extends terms.old terms.new }
    {
        for (i, step) in steps.iter().enumerate() {
            let number = place_number(i + 1)?;
            self.pass(alloc, terms, fields, op, number, *step, book)?;
        }
        Ok(())
    }
}
