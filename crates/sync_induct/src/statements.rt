//! One statement of an operation: what it has to show, what is known behind it, and what it leaves.
ghost use Rattle.std.specs.Prelude.{◌≡◌, ℕ, ◌++◌, Err, OnOk, IfOk};
ghost use Rattle.std.specs.Option.{IfSome};
ghost use Rattle.sync_base.specs.Outcome.{Passes};
ghost use Rattle.sync_terms.specs.Stored.{Stored, Extends, IsTerm, tree};
ghost use Rattle.sync_terms.specs.Trees.{tree_size};
ghost use Rattle.sync_machine.specs.Statements as statements;
ghost use Rattle.sync_machine.specs.States.{current_of};
ghost use Rattle.sync_machine.specs.Views.{act_tree, step_tree, HasActIds};
ghost use Rattle.sync_terms.specs.Building.{HasTerm, StopsBuilding};
ghost use Rattle.sync_induct_acts.specs.Conditions.{condition_size};
ghost use Rattle.sync_induct.specs.Checklist.{AreShown};
ghost use Rattle.sync_induct.specs.Books.{IsBook};
ghost use Rattle.sync_induct.specs.Checks.{checks_fault, size_fault};
ghost use Rattle.sync_terms.specs.Proofs.{proofs_in};
ghost use Rattle.sync_induct.specs.Duties.{condition_facts};

use crate::duties::{check_duty, refused, too_large};
use crate::index::Book;
use crate::walks::Walk;
use sqlite_items::Items;
use std::alloc::Global;
use sync_base::{NoMemory, Rule, Stop};
use sync_induct_acts::{after, condition, safety};
use sync_kernel::Hyp;
use sync_machine::{Act, Field, Step, Strategy};
use sync_rules::{Claim, Obligation, field_of, strategy_of};
use sync_terms::{HypName, Node, TermId, TermStop, Terms};

/// A statement with its place in an operation, and its field's strategy and value so far. One on no field counts as one
/// on a field without tokens that has the empty map.
#[derive(Clone, Copy)]
pub struct Statement {
    pub op: u32,
    pub number: u32,
    pub strategy: Strategy,
    pub current: TermId,
    pub step: Step,
}

/// Why a line is refused whose statement makes what cannot be built.
fn unmade(line: u32, stop: TermStop) -> Stop
    ensures { (nodes : ℕ) → StopsBuilding nodes stop → Passes {A = Unit {0}} (Err result) (size_fault line nodes) }
{
    match stop {
        TermStop::TooLarge => refused(line, Rule::K8),
        TermStop::Memory => Stop::Memory,
    }
}

impl Walk {
    ghost use Rattle.sync_induct.specs.Walks.{IsWalk, HasCome, IsStatement, known_of, values_of, condition_at, value_at, owed, tree_or_nil, values_with, checks_at, facts_after, values_after};

    /// The value so far of the field that a statement operates on, if it operates on one.
    fn value(&self, act: Act) -> Option<TermId>
        ensures value { (s : Stored) → tree_or_nil s result ≡ current_of (values_of s self.now) (act_tree s act) }
        ensures stored { (s : Stored) → IsWalk s self.now → IfSome result (IsTerm s) }
    {
        match field_of(&act) {
            Some(field) => self.current.get(field as usize).copied(),
            None => None,
        }
    }

    /// The same, or the empty map.
    fn value_or_nil(&self, terms: &mut Terms, act: Act) -> Result<TermId, NoMemory>
        requires walk { IsWalk terms.old self.now }
        ensures value { IfOk result (HasTerm terms.new
            (current_of (values_of terms.old self.now) (act_tree terms.old act))) }
        ensures keeps { Extends terms.old terms.new }
    {
        if let Some(value) = self.value(act) {
            return Ok(value);
        }
        match terms.add_term(Node::Nil) {
            Ok(value) => Ok(value),
            Err(_) => Err(NoMemory),
        }
    }

    /// A statement with its field's strategy and value so far.
    fn meet(
        &self,
        terms: &mut Terms,
        fields: &[Field],
        op: u32,
        number: u32,
        step: Step,
    ) -> Result<Statement, NoMemory>
        requires walk { IsWalk terms.old self.now }
        requires ids { HasActIds terms.old step.act }
        ensures is { IfOk result (IsStatement terms.new fields.now op number (values_of terms.old self.now)
            (step_tree terms.old step)) }
        ensures keeps { Extends terms.old terms.new }
    {
        Ok(Statement {
            op,
            number,
            strategy: strategy_of(fields, &step.act),
            current: self.value_or_nil(terms, step.act)?,
            step,
        })
    }

    /// Checks the safety condition of a statement, if it has one, from what is known before it.
    fn check(
        &mut self,
        alloc: Global,
        terms: &mut Terms,
        statement: Statement,
        book: Book<'_>,
    ) -> Result<(), Stop>
        requires walk { IsWalk terms.old self.old }
        requires current { IsTerm terms.old statement.current }
        requires ids { HasActIds terms.old statement.step.act }
        requires book { IsBook terms.old book }
        ensures exact { Passes result (checks_fault (proofs_in terms.old book.entry.proofs.now)
            (owed terms.old self.old statement)) }
        ensures shown { OnOk result (AreShown (owed terms.old self.old statement)) }
        ensures come { OnOk result (HasCome terms.new self.new (known_of terms.old self.old)
            (values_of terms.old self.old)) }
        ensures keeps { Extends terms.old terms.new }
    {
        let Statement {
            op,
            number,
            strategy,
            current,
            step,
        } = statement;
        let obligation = Obligation {
            op,
            claim: Claim::At(number),
            line: step.line,
        };
        match safety(terms, strategy, current, step.act) {
            Ok(Some(claim)) => check_duty(alloc, terms, &mut self.hyps, claim, book, obligation),
            Ok(None) => Ok(()),
            Err(TermStop::TooLarge) => Err(too_large(book, obligation)),
            Err(TermStop::Memory) => Err(Stop::Memory),
        }
    }

    /// Adds what is known behind a statement.
    fn learn(&mut self, alloc: Global, terms: &mut Terms, statement: Statement) -> Result<(), Stop>
        requires walk { IsWalk terms.old self.old }
        requires current { IsTerm terms.old statement.current }
        requires ids { HasActIds terms.old statement.step.act }
        ensures exact { Passes result (size_fault statement.step.line
            (condition_size (condition_at terms.old statement))) }
        ensures come { OnOk result (HasCome terms.new self.new
            (known_of terms.old self.old ++ condition_facts statement.number (condition_at terms.old statement))
            (values_of terms.old self.old)) }
        ensures keeps { Extends terms.old terms.new }
    {
        match condition(
            terms,
            statement.strategy,
            statement.current,
            statement.step.act,
        ) {
            Ok(Some(form)) => {
                let hyp = Hyp {
                    name: HypName::At(statement.number),
                    params: Items::new(alloc),
                    form,
                };
                Ok(self.add(terms, hyp)?)
            }
            Ok(None) => Ok(()),
            Err(stop) => Err(unmade(statement.step.line, stop)),
        }
    }

    /// Gives a field its value behind a statement, if there is a field.
    fn assign(&mut self, terms: &Terms, field: Option<u32>, value: TermId)
        requires walk { IsWalk terms.now self.old }
        requires value { IsTerm terms.now value }
        ensures { HasCome terms.now self.new (known_of terms.now self.old)
            (values_with field (tree terms.now value) (values_of terms.now self.old)) }
    {
        let Some(field) = field else {
            return;
        };
        let at = field as usize;
        if at < self.current.len() {
            self.current[at] = value;
        }
    }

    /// Gives the field of a statement its value behind it.
    fn leave(&mut self, terms: &mut Terms, statement: Statement) -> Result<(), Stop>
        requires walk { IsWalk terms.old self.old }
        requires current { IsTerm terms.old statement.current }
        requires ids { HasActIds terms.old statement.step.act }
        ensures exact { Passes result (size_fault statement.step.line (tree_size (value_at terms.old statement))) }
        ensures come { OnOk result (HasCome terms.new self.new (known_of terms.old self.old)
            (values_with (statements.field_of (act_tree terms.old statement.step.act)) (value_at terms.old statement)
            (values_of terms.old self.old))) }
        ensures keeps { Extends terms.old terms.new }
    {
        let Statement {
            strategy,
            current,
            step,
            ..
        } = statement;
        let value = match after(terms, strategy, current, step.act) {
            Ok(value) => value,
            Err(stop) => return Err(unmade(step.line, stop)),
        };
        self.assign(terms, field_of(&step.act), value);
        Ok(())
    }

    /// Goes past a statement: shows its safety condition, adds what is known behind it, and gives its field its value.
    pub(crate) fn pass(
        &mut self,
        alloc: Global,
        terms: &mut Terms,
        fields: &[Field],
        op: u32,
        number: u32,
        step: Step,
        book: Book<'_>,
    ) -> Result<(), Stop>
        requires walk { IsWalk terms.old self.old }
        requires ids { HasActIds terms.old step.act }
        requires book { IsBook terms.old book }
        ensures exact { Passes result (checks_fault (proofs_in terms.old book.entry.proofs.now)
            (checks_at terms.old fields.now op number self.old step)) }
        ensures shown { OnOk result (AreShown (checks_at terms.old fields.now op number self.old step)) }
        ensures come { OnOk result (HasCome terms.new self.new (facts_after terms.old fields.now number self.old step)
            (values_after terms.old fields.now self.old step)) }
        ensures keeps { Extends terms.old terms.new }
    {
        let statement = self.meet(terms, fields, op, number, step)?;
        self.check(alloc, terms, statement, book)?;
        self.learn(alloc, terms, statement)?;
        self.leave(terms, statement)
    }
}
