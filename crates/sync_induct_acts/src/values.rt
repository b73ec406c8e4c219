//! The value of a field behind a statement.
ghost use Rattle.std.specs.Prelude.{◌≡◌};
ghost use Rattle.sync_terms.specs.Stored.{tree, IsTerm, Extends};
ghost use Rattle.sync_terms.specs.Trees as trees;
ghost use Rattle.sync_machine.specs.Statements.{zero, one, key_of, value_of, added, removed, after};
ghost use Rattle.sync_machine.specs.Views.{act_tree, place_tree, HasPlaceIds, HasActIds};
ghost use Rattle.sync_terms.specs.Building.{BuildsTerm};

use crate::nodes::{one, zero};
use crate::places::terms_of;
use sync_machine::{Act, Place, Strategy};
use sync_terms::building::{stored_term, term};
use sync_terms::{Node, TermId, TermStop, Terms};

/// The set with this element.
fn with_element(terms: &mut Terms, current: TermId, key: TermId) -> Result<TermId, TermStop>
    requires current { IsTerm terms.old current }
    requires key { IsTerm terms.old key }
    ensures built { BuildsTerm terms.new (trees.Put (tree terms.old current) (tree terms.old key) one) result }
    ensures keeps { Extends terms.old terms.new }
{
    let one = one(terms)?;
    term(terms, Node::Put(current, key, one))
}

/// The multiset with this element once more.
fn once_more(terms: &mut Terms, current: TermId, key: TermId) -> Result<TermId, TermStop>
    requires current { IsTerm terms.old current }
    requires key { IsTerm terms.old key }
    ensures built { BuildsTerm terms.new (trees.Bump (tree terms.old current) (tree terms.old key) one) result }
    ensures keeps { Extends terms.old terms.new }
{
    let one = one(terms)?;
    term(terms, Node::Bump(current, key, one))
}

/// The multiset with this element once less.
fn once_less(terms: &mut Terms, current: TermId, key: TermId) -> Result<TermId, TermStop>
    requires current { IsTerm terms.old current }
    requires key { IsTerm terms.old key }
    ensures built { BuildsTerm terms.new (trees.Bump (tree terms.old current) (tree terms.old key) (trees.Sub zero one)) result }
    ensures keeps { Extends terms.old terms.new }
{
    let zero = zero(terms)?;
    let one = one(terms)?;
    let less = term(terms, Node::Sub(zero, one))?;
    term(terms, Node::Bump(current, key, less))
}

/// The field's value after an addition.
pub(crate) fn added(
    terms: &mut Terms,
    strategy: Strategy,
    current: TermId,
    place: Place,
) -> Result<TermId, TermStop>
    requires current { IsTerm terms.old current }
    requires place { HasPlaceIds terms.old place }
    ensures built { BuildsTerm terms.new (added strategy (tree terms.old current) (place_tree terms.old place)) result }
    ensures keeps { Extends terms.old terms.new }
{
    let at = terms_of(terms, place)?;
    match strategy {
        Strategy::Option | Strategy::Map | Strategy::PersistentOption | Strategy::PersistentMap =>
            term(terms, Node::Put(current, at.key, at.value)),
        Strategy::Set | Strategy::PersistentSet => with_element(terms, current, at.key),
        Strategy::Multiset => once_more(terms, current, at.key),
        Strategy::Count => term(terms, Node::Add(current, at.value)),
        Strategy::PersistentCount => stored_term(terms, at.value),
        Strategy::Variable | Strategy::Constant | Strategy::NotTokenized | Strategy::StorageMap =>
            stored_term(terms, current),
    }
}

/// The field's value after a removal.
pub(crate) fn removed(
    terms: &mut Terms,
    strategy: Strategy,
    current: TermId,
    place: Place,
) -> Result<TermId, TermStop>
    requires current { IsTerm terms.old current }
    requires place { HasPlaceIds terms.old place }
    ensures built { BuildsTerm terms.new (removed strategy (tree terms.old current) (place_tree terms.old place)) result }
    ensures keeps { Extends terms.old terms.new }
{
    let at = terms_of(terms, place)?;
    match strategy {
        Strategy::Option | Strategy::Map | Strategy::Set => {
            term(terms, Node::Del(current, at.key))
        }
        Strategy::Multiset => once_less(terms, current, at.key),
        Strategy::Count => term(terms, Node::Sub(current, at.value)),
        Strategy::PersistentOption
        | Strategy::PersistentMap
        | Strategy::PersistentSet
        | Strategy::PersistentCount
        | Strategy::Variable
        | Strategy::Constant
        | Strategy::NotTokenized
        | Strategy::StorageMap => stored_term(terms, current),
    }
}

/// The map with the value of a place under its key.
fn with_object(terms: &mut Terms, current: TermId, place: Place) -> Result<TermId, TermStop>
    requires current { IsTerm terms.old current }
    requires place { HasPlaceIds terms.old place }
    ensures built { BuildsTerm terms.new (trees.Put (tree terms.old current) (key_of (place_tree terms.old place)) (value_of (place_tree terms.old place))) result }
    ensures keeps { Extends terms.old terms.new }
{
    let at = terms_of(terms, place)?;
    term(terms, Node::Put(current, at.key, at.value))
}

/// The map without the key of a place.
fn without_object(terms: &mut Terms, current: TermId, place: Place) -> Result<TermId, TermStop>
    requires current { IsTerm terms.old current }
    requires place { HasPlaceIds terms.old place }
    ensures built { BuildsTerm terms.new (trees.Del (tree terms.old current) (key_of (place_tree terms.old place))) result }
    ensures keeps { Extends terms.old terms.new }
{
    let at = terms_of(terms, place)?;
    term(terms, Node::Del(current, at.key))
}

/// The field's value behind a statement on it.
///
/// `current` is the value of the statement's field so far, and the strategy is the field's.
/// `TooLarge` is for a value of more than `MOST_NODES` nodes. After a stop the store may have gained nodes.
pub fn after(
    terms: &mut Terms,
    strategy: Strategy,
    current: TermId,
    act: Act,
) -> Result<TermId, TermStop>
    requires current { IsTerm terms.old current }
    requires ids { HasActIds terms.old act }
    ensures built { BuildsTerm terms.new (after strategy (tree terms.old current) (act_tree terms.old act)) result }
    ensures keeps { Extends terms.old terms.new }
{
    match act {
        Act::Init(_, value) | Act::Update(_, value) => stored_term(terms, value),
        Act::Add(_, place) => added(terms, strategy, current, place),
        Act::Remove(_, place) => removed(terms, strategy, current, place),
        Act::Deposit(_, place) => with_object(terms, current, place),
        Act::Withdraw(_, place) => without_object(terms, current, place),
        Act::Require(_)
        | Act::Assert(_)
        | Act::HaveVariable(_)
        | Act::Have(_, _)
        | Act::Guard(_, _) => stored_term(terms, current),
    }
}
