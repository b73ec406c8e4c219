//! Operations whose exchange does not look at the whole state.
ghost use Rattle.std.specs.Prelude.{◌≡◌, ◌<◌, length, slice_get, Some};
ghost use Rattle.std.specs.List.{AllByRecursion, list_all};
ghost use Rattle.sync_terms.specs.Stored.{tree, IsTerm};
ghost use Rattle.sync_machine.specs.Machines.{OperationTree};
ghost use Rattle.sync_machine.specs.Views.{machine_tree, step_tree, steps_tree, HasActIds, HasOwnIds};
ghost use Rattle.sync_machine.specs.declared.machine.Step.{Step as Statement};
ghost use Rattle.sync_rules.specs.Locality.{names_only};
ghost use Rattle.sync_rules.specs.Plain as plain;

use crate::mentions::is_variable;
use crate::variables::field_slot;
use sync_machine::{Act, Machine, Step, Strategy, strategy_at};
use sync_terms::{Node, Sym, TermId};

/// Whether the values of a strategy's fields are kept beside the tokens.
fn is_kept(strategy: Strategy) -> bool
    ensures { result ≡ plain.is_kept strategy }
{
    matches!(
        strategy,
        Strategy::Constant
            | Strategy::NotTokenized
            | Strategy::PersistentOption
            | Strategy::PersistentMap
            | Strategy::PersistentSet
            | Strategy::PersistentCount
            | Strategy::StorageMap
    )
}

/// Whether who does these statements has the value of a symbol at hand.
fn is_at_hand(m: &Machine, steps: &[Step], symbol: Sym) -> bool
    requires { AllByRecursion (λ (s : Statement). HasActIds m.now.terms s.act) steps.now }
    ensures { result ≡ plain.is_at_hand m.now.fields (steps_tree m.now.terms steps.now) symbol.0 }
{
    symbol.0 as usize >= m.fields.len()
        || is_kept(strategy_at(m.fields.as_slice(), symbol.0))
        || field_slot(m, steps, symbol.0).is_some()
}

/// Whether a term names what is at hand alone.
#[tactic(auto, unfolding(sync_terms::specs::Stored::shape, sync_terms::specs::Stored::tree, crate::specs::Locality::names_only))]
fn names_at_hand(m: &Machine, steps: &[Step], id: TermId) -> bool
    requires ids { AllByRecursion (λ (s : Statement). HasActIds m.now.terms s.act) steps.now }
    requires term { IsTerm m.now.terms id }
    ensures { result ≡ names_only (plain.is_at_hand m.now.fields (steps_tree m.now.terms steps.now)) (tree m.now.terms id) }
{
    match m.terms.term(id) {
        Node::Lit(_) | Node::Nil => true,
        Node::Name(symbol) => is_at_hand(m, steps, symbol),
        Node::Scale(_, a) | Node::Size(a) | Node::Sum(a) => names_at_hand(m, steps, a),
        Node::Add(a, b) | Node::Sub(a, b) | Node::Get(a, b) | Node::Has(a, b) | Node::Del(a, b) =>
            names_at_hand(m, steps, a) && names_at_hand(m, steps, b),
        Node::Put(a, b, c) | Node::Bump(a, b, c) => {
            names_at_hand(m, steps, a) && names_at_hand(m, steps, b) && names_at_hand(m, steps, c)
        }
    }
}

/// Whether a statement reads what is at hand alone.
fn reads_at_hand(m: &Machine, steps: &[Step], step: &Step) -> bool
    requires ids { AllByRecursion (λ (s : Statement). HasActIds m.now.terms s.act) steps.now }
    requires own { HasActIds m.now.terms step.now.act }
    ensures { result ≡ plain.reads_at_hand m.now.fields (steps_tree m.now.terms steps.now) (step_tree m.now.terms step.now) }
{
    match step.act {
        Act::Update(f, t) => {
            is_variable(strategy_at(m.fields.as_slice(), f)) || names_at_hand(m, steps, t)
        }
        Act::Init(..)
        | Act::Require(_)
        | Act::Assert(_)
        | Act::HaveVariable(_)
        | Act::Add(..)
        | Act::Remove(..)
        | Act::Have(..)
        | Act::Deposit(..)
        | Act::Withdraw(..)
        | Act::Guard(..) => true,
    }
}

/// Whether all statements read what is at hand alone.
fn all_read_at_hand(m: &Machine, steps: &[Step]) -> bool
    requires { AllByRecursion (λ (s : Statement). HasActIds m.now.terms s.act) steps.now }
    ensures { result ≡ list_all (plain.reads_at_hand m.now.fields (steps_tree m.now.terms steps.now)) (steps_tree m.now.terms steps.now) }
{
    for step in steps {
        if reads_at_hand(m, steps, step) {
            continue;
        }
        return false;
    }
    true
}

/// Whether the exchange of the operation with this number does not look at the whole state.
///
/// It costs the nodes of the terms that fields without tokens get, times the nodes of the operation.
pub fn is_plain(m: &Machine, op: u32) -> bool
    requires ids { HasOwnIds m.now }
    requires op { op < length m.now.ops }
    ensures { (o : OperationTree) → slice_get (machine_tree m.now).ops op ≡ Some o → result ≡ plain.is_plain m.now.fields o }
{
    all_read_at_hand(m, m.ops.as_slice()[op as usize].steps.as_slice())
}
