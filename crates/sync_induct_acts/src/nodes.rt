//! Nodes over what a store has.
ghost use Rattle.std.specs.Prelude.{◌≡◌, Some};
ghost use Rattle.sync_terms.specs.Stored.{Stored, formula, IsForm, Extends};
ghost use Rattle.sync_terms.specs.Trees as trees;
ghost use Rattle.sync_terms.specs.Trees.{Formula};
ghost use Rattle.sync_machine.specs.Statements.{zero, one};
ghost use Rattle.sync_terms.specs.Building.{BuildsForm, FindsTerm};
ghost use Rattle.sync_induct_acts.specs.Conditions.{BuildsCondition};

use sync_terms::building::term;
use sync_terms::{FormId, MOST_NODES, Node, Sym, TermId, TermStop, Terms};

/// The number 0.
pub(crate) fn zero(terms: &mut Terms) -> Result<TermId, TermStop>
    ensures found { FindsTerm terms.new zero result }
    ensures keeps { Extends terms.old terms.new }
{
    term(terms, Node::Lit(0))
}

/// The number 1.
pub(crate) fn one(terms: &mut Terms) -> Result<TermId, TermStop>
    ensures found { FindsTerm terms.new one result }
    ensures keeps { Extends terms.old terms.new }
{
    term(terms, Node::Lit(1))
}

/// A symbol's name.
pub(crate) fn name(terms: &mut Terms, symbol: Sym) -> Result<TermId, TermStop>
    ensures found { FindsTerm terms.new (trees.Name symbol.0) result }
    ensures keeps { Extends terms.old terms.new }
{
    term(terms, Node::Name(symbol))
}

/// A formula that is stored, which is never too large.
pub(crate) fn stored_form(terms: &Terms, form: FormId) -> Result<Option<FormId>, TermStop>
    requires { IsForm terms.now form }
    ensures { BuildsCondition terms.now (Some (formula terms.now form)) result }
{
    prove!(terms.size_of(form) <= MOST_NODES);
    Ok(Some(form))
}

/// The condition that a formula is.
pub(crate) fn as_condition(answer: Result<FormId, TermStop>) -> Result<Option<FormId>, TermStop>
    ensures { (s : Stored) (f : Formula) → BuildsForm s f answer → BuildsCondition s (Some f) result }
{
    answer.map(Some)
}
