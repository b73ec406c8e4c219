//! Whether operands are as a strategy wants them.
ghost use Rattle.std.specs.Prelude.{◌≡◌, is_none};
ghost use Rattle.sync_terms.specs.Stored.{Stored, tree, IsTerm};
ghost use Rattle.sync_machine.specs.Statements.{binds};
ghost use Rattle.sync_machine.specs.States.{sort_of};
ghost use Rattle.sync_machine.specs.Views.{act_tree, place_tree, HasActIds};
ghost use Rattle.sync_rules.specs.Shapes as shapes;

use sync_machine::{Act, Pattern, Place, Strategy};
use sync_terms::{Node, TermId, Terms};

/// Whether a term is a first value of a field: any number, or the empty map.
#[tactic(auto, unfolding(sync_machine::specs::States::sort_of, sync_terms::specs::Stored::shape))]
fn is_start(terms: &Terms, strategy: Strategy, id: TermId) -> bool
    requires { IsTerm terms.now id }
    ensures { result ≡ shapes.is_start (sort_of strategy) (tree terms.now id) }
{
    match strategy {
        Strategy::Variable
        | Strategy::Constant
        | Strategy::NotTokenized
        | Strategy::Count
        | Strategy::PersistentCount => true,
        Strategy::Option
        | Strategy::Map
        | Strategy::Set
        | Strategy::Multiset
        | Strategy::PersistentOption
        | Strategy::PersistentMap
        | Strategy::PersistentSet
        | Strategy::StorageMap => is_nil(terms, id),
    }
}

/// Whether a term is the empty map.
#[tactic(auto, unfolding(sync_terms::specs::Stored::shape))]
fn is_nil(terms: &Terms, id: TermId) -> bool
    requires { IsTerm terms.now id }
    ensures { result ≡ shapes.is_nil (tree terms.now id) }
{
    matches!(terms.term(id), Node::Nil)
}

/// Whether a place is as the places of a strategy are: `(v)`, `[k]` or `[k => v]`.
#[tactic(auto, unfolding(crate::specs::Shapes::has_shape))]
fn has_shape(strategy: Strategy, place: &Place) -> bool
    ensures { (s : Stored) → result ≡ shapes.has_shape strategy (place_tree s place.now) }
{
    match strategy {
        Strategy::Option
        | Strategy::Count
        | Strategy::PersistentOption
        | Strategy::PersistentCount => place.key.is_none() && place.value.is_some(),
        Strategy::Set | Strategy::Multiset | Strategy::PersistentSet => {
            place.key.is_some() && place.value.is_none()
        }
        Strategy::Map | Strategy::PersistentMap | Strategy::StorageMap => {
            place.key.is_some() && place.value.is_some()
        }
        Strategy::Variable | Strategy::Constant | Strategy::NotTokenized => false,
    }
}

/// Whether a place may have a new name for the value that is there.
fn may_bind(strategy: Strategy) -> bool
    ensures { result ≡ shapes.may_bind strategy }
{
    matches!(
        strategy,
        Strategy::Option
            | Strategy::Map
            | Strategy::PersistentOption
            | Strategy::PersistentMap
            | Strategy::StorageMap
    )
}

/// Whether a place has no new name for the value that is there.
fn binds_nothing(place: &Place) -> bool
    ensures { (s : Stored) → result ≡ is_none (binds (place_tree s place.now)) }
{
    !matches!(place.value, Some(Pattern::Bind(_)))
}

/// Whether the operands of a statement are as its field's strategy wants them.
#[tactic(auto, unfolding(crate::specs::Shapes::fits))]
pub(crate) fn fits(terms: &Terms, strategy: Strategy, act: &Act) -> bool
    requires { HasActIds terms.now act.now }
    ensures { result ≡ shapes.fits strategy (act_tree terms.now act.now) }
{
    match act {
        Act::Init(_, t) => is_start(terms, strategy, *t),
        Act::Add(_, place) | Act::Deposit(_, place) => {
            has_shape(strategy, place) && binds_nothing(place)
        }
        Act::Remove(_, place)
        | Act::Have(_, place)
        | Act::Withdraw(_, place)
        | Act::Guard(_, place) => {
            has_shape(strategy, place) && (may_bind(strategy) || binds_nothing(place))
        }
        Act::Require(_) | Act::Assert(_) | Act::Update(..) | Act::HaveVariable(_) => true,
    }
}
