//! Obligations that need no script: equations of terms with one normal form.
ghost use Rattle.std.specs.Prelude.{◌≡◌, IfOk};
ghost use Rattle.sync_linear.specs.Forms.{Narrow};
ghost use Rattle.sync_linear.specs.Stores.{IsLineOf};
ghost use Rattle.sync_terms.specs.Stored.{Stored, tree, formula, IsForm, IsTerm};
ghost use Rattle.sync_terms.specs.Trees.{Eq, Tree};
ghost use Rattle.sync_typing.specs.Dues.{is_clear, same_line};
ghost use Rattle.sync_typing_places.specs.Clearing.{IsLineIfNarrow};

use std::alloc::Global;
use sync_base::NoMemory;
use sync_linear::{Change, Linear, LinearStop};
use sync_terms::{FormId, FormNode, TermId, Terms};

/// Whether a formula is an equation of terms with the same constant and each atom as often, all within 128 bits.
#[tactic(auto, unfolding(sync_terms::specs::Stored::form_shape, sync_terms::specs::Stored::tree, sync_terms::specs::Stored::formula))]
pub fn is_clear(alloc: Global, terms: &Terms, id: FormId) -> Result<bool, NoMemory>
    requires { IsForm terms.now id }
    ensures { IfOk result (λ is. is ≡ is_clear (formula terms.now id)) }
{
    match terms.form(id) {
        FormNode::Eq(left, right) => are_alike(alloc, terms, left, right),
        FormNode::Le(_, _)
        | FormNode::Lt(_, _)
        | FormNode::Not(_)
        | FormNode::And(_, _)
        | FormNode::Or(_, _)
        | FormNode::Imp(_, _) => Ok(false),
    }
}

/// Whether two terms have the same constant and each atom as often, all within 128 bits.
fn are_alike(alloc: Global, terms: &Terms, left: TermId, right: TermId) -> Result<bool, NoMemory>
    requires left { IsTerm terms.now left }
    requires right { IsTerm terms.now right }
    ensures { IfOk result (λ is. is ≡ is_clear (Eq (tree terms.now left) (tree terms.now right))) }
{
    let Some(one) = line_of(alloc, terms, left)? else {
        return Ok(false);
    };
    let Some(two) = line_of(alloc, terms, right)? else {
        return Ok(false);
    };
    is_same(one, &two)
}

/// The line of a term, if it is within 128 bits.
fn line_of(alloc: Global, terms: &Terms, id: TermId) -> Result<Option<Linear>, NoMemory>
    requires { IsTerm terms.now id }
    ensures { IfOk result (IsLineIfNarrow terms.now (tree terms.now id)) }
{
    match Linear::of_term(alloc, terms, id) {
        Ok(line) => Ok(Some(line)),
        Err(LinearStop::Width) => Ok(None),
        Err(LinearStop::Memory) => Err(NoMemory),
    }
}

/// Whether two lines are the same.
fn is_same(one: Linear, two: &Linear) -> Result<bool, NoMemory>
    ensures { IfOk result (λ is. (s : Stored) (a b : Tree) → IsLineOf s a one → IsLineOf s b two.now
        → Narrow a → Narrow b → is ≡ same_line a b) }
{
    match one.changed(Change::Minus, two) {
        Ok(line) => Ok(line.is_zero()),
        Err(LinearStop::Width) => Ok(false),
        Err(LinearStop::Memory) => Err(NoMemory),
    }
}
