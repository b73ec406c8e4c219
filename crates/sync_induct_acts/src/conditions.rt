//! What is asked of a place.
ghost use Rattle.std.specs.Prelude.{◌≡◌};
ghost use Rattle.sync_terms.specs.Stored.{tree, IsTerm, Extends};
ghost use Rattle.sync_terms.specs.Trees as trees;
ghost use Rattle.sync_machine.specs.Statements.{zero, one, is_there, is_free, is_there_with, presence, freshness, amount_is_natural, storage};
ghost use Rattle.sync_machine.specs.Views.{place_tree, HasPlaceIds};
ghost use Rattle.sync_terms.specs.Building.{BuildsForm};
ghost use Rattle.sync_induct_acts.specs.Conditions.{BuildsCondition};

use crate::nodes::{as_condition, one, zero};
use crate::places::terms_of;
use sync_machine::{Pattern, Place, Strategy};
use sync_terms::building::{form, term};
use sync_terms::{FormId, FormNode, Node, TermId, TermStop, Terms};

/// The key is there.
pub(crate) fn is_there(terms: &mut Terms, current: TermId, key: TermId) -> Result<FormId, TermStop>
    requires current { IsTerm terms.old current }
    requires key { IsTerm terms.old key }
    ensures built { BuildsForm terms.new (is_there (tree terms.old current) (tree terms.old key)) result }
    ensures keeps { Extends terms.old terms.new }
{
    let has = term(terms, Node::Has(current, key))?;
    let one = one(terms)?;
    form(terms, FormNode::Eq(has, one))
}

/// The key is free.
pub(crate) fn is_free(terms: &mut Terms, current: TermId, key: TermId) -> Result<FormId, TermStop>
    requires current { IsTerm terms.old current }
    requires key { IsTerm terms.old key }
    ensures built { BuildsForm terms.new (is_free (tree terms.old current) (tree terms.old key)) result }
    ensures keeps { Extends terms.old terms.new }
{
    let has = term(terms, Node::Has(current, key))?;
    let zero = zero(terms)?;
    form(terms, FormNode::Eq(has, zero))
}

/// The key has this value, if it is there.
fn has_value(
    terms: &mut Terms,
    current: TermId,
    key: TermId,
    value: TermId,
) -> Result<FormId, TermStop>
    requires current { IsTerm terms.old current }
    requires key { IsTerm terms.old key }
    requires value { IsTerm terms.old value }
    ensures built { BuildsForm terms.new (trees.Eq (trees.Get (tree terms.old current) (tree terms.old key)) (tree terms.old value)) result }
    ensures keeps { Extends terms.old terms.new }
{
    let got = term(terms, Node::Get(current, key))?;
    form(terms, FormNode::Eq(got, value))
}

/// The key is there with this value.
pub(crate) fn is_there_with(
    terms: &mut Terms,
    current: TermId,
    key: TermId,
    value: TermId,
) -> Result<FormId, TermStop>
    requires current { IsTerm terms.old current }
    requires key { IsTerm terms.old key }
    requires value { IsTerm terms.old value }
    ensures built { BuildsForm terms.new (is_there_with (tree terms.old current) (tree terms.old key) (tree terms.old value)) result }
    ensures keeps { Extends terms.old terms.new }
{
    let there = is_there(terms, current, key)?;
    let agrees = has_value(terms, current, key, value)?;
    form(terms, FormNode::And(there, agrees))
}

/// The key is free, or it is there with this value.
fn is_free_or_with(
    terms: &mut Terms,
    current: TermId,
    key: TermId,
    value: TermId,
) -> Result<FormId, TermStop>
    requires current { IsTerm terms.old current }
    requires key { IsTerm terms.old key }
    requires value { IsTerm terms.old value }
    ensures built { BuildsForm terms.new (trees.Or (is_free (tree terms.old current) (tree terms.old key))
        (trees.Eq (trees.Get (tree terms.old current) (tree terms.old key)) (tree terms.old value))) result }
    ensures keeps { Extends terms.old terms.new }
{
    let free = is_free(terms, current, key)?;
    let agrees = has_value(terms, current, key, value)?;
    form(terms, FormNode::Or(free, agrees))
}

/// The key is there at least once.
fn is_counted(terms: &mut Terms, current: TermId, key: TermId) -> Result<FormId, TermStop>
    requires current { IsTerm terms.old current }
    requires key { IsTerm terms.old key }
    ensures built { BuildsForm terms.new (trees.Le one (trees.Get (tree terms.old current) (tree terms.old key))) result }
    ensures keeps { Extends terms.old terms.new }
{
    let count = term(terms, Node::Get(current, key))?;
    let one = one(terms)?;
    form(terms, FormNode::Le(one, count))
}

/// The amount is not negative.
fn is_natural(terms: &mut Terms, amount: TermId) -> Result<FormId, TermStop>
    requires { IsTerm terms.old amount }
    ensures built { BuildsForm terms.new (trees.Le zero (tree terms.old amount)) result }
    ensures keeps { Extends terms.old terms.new }
{
    let zero = zero(terms)?;
    form(terms, FormNode::Le(zero, amount))
}

/// An amount of a count is not negative.
pub(crate) fn amount_is_natural(
    terms: &mut Terms,
    strategy: Strategy,
    amount: TermId,
) -> Result<Option<FormId>, TermStop>
    requires { IsTerm terms.old amount }
    ensures built { BuildsCondition terms.new (amount_is_natural strategy (tree terms.old amount)) result }
    ensures keeps { Extends terms.old terms.new }
{
    match strategy {
        Strategy::Count => as_condition(is_natural(terms, amount)),
        _ => Ok(None),
    }
}

/// What a removal or a `have` asks of the field.
pub(crate) fn presence(
    terms: &mut Terms,
    strategy: Strategy,
    current: TermId,
    place: Place,
) -> Result<Option<FormId>, TermStop>
    requires current { IsTerm terms.old current }
    requires place { HasPlaceIds terms.old place }
    ensures built { BuildsCondition terms.new (presence strategy (tree terms.old current) (place_tree terms.old place)) result }
    ensures keeps { Extends terms.old terms.new }
{
    let at = terms_of(terms, place)?;
    match strategy {
        Strategy::Option | Strategy::Map | Strategy::PersistentOption | Strategy::PersistentMap => {
            as_condition(is_there_with(terms, current, at.key, at.value))
        }
        Strategy::Set | Strategy::PersistentSet => as_condition(is_there(terms, current, at.key)),
        Strategy::Multiset => as_condition(is_counted(terms, current, at.key)),
        Strategy::Count | Strategy::PersistentCount => {
            as_condition(form(terms, FormNode::Le(at.value, current)))
        }
        Strategy::Variable | Strategy::Constant | Strategy::NotTokenized | Strategy::StorageMap =>
            Ok(None),
    }
}

/// What an addition promises: its place is free, or what is there already agrees.
pub(crate) fn freshness(
    terms: &mut Terms,
    strategy: Strategy,
    current: TermId,
    place: Place,
) -> Result<Option<FormId>, TermStop>
    requires current { IsTerm terms.old current }
    requires place { HasPlaceIds terms.old place }
    ensures built { BuildsCondition terms.new (freshness strategy (tree terms.old current) (place_tree terms.old place)) result }
    ensures keeps { Extends terms.old terms.new }
{
    let at = terms_of(terms, place)?;
    match strategy {
        Strategy::Option | Strategy::Map | Strategy::Set => {
            as_condition(is_free(terms, current, at.key))
        }
        Strategy::Count => as_condition(is_natural(terms, at.value)),
        Strategy::PersistentOption | Strategy::PersistentMap => {
            as_condition(is_free_or_with(terms, current, at.key, at.value))
        }
        Strategy::PersistentCount => as_condition(form(terms, FormNode::Le(current, at.value))),
        Strategy::Multiset
        | Strategy::PersistentSet
        | Strategy::Variable
        | Strategy::Constant
        | Strategy::NotTokenized
        | Strategy::StorageMap => Ok(None),
    }
}

/// What a withdrawal or a guard promises: the object is there, with the value that is asked for if one is.
pub(crate) fn storage(terms: &mut Terms, current: TermId, place: Place) -> Result<FormId, TermStop>
    requires current { IsTerm terms.old current }
    requires place { HasPlaceIds terms.old place }
    ensures built { BuildsForm terms.new (storage (tree terms.old current) (place_tree terms.old place)) result }
    ensures keeps { Extends terms.old terms.new }
{
    let at = terms_of(terms, place)?;
    match place.value {
        Some(Pattern::Bind(_)) => is_there(terms, current, at.key),
        Some(Pattern::Term(_)) | None => is_there_with(terms, current, at.key, at.value),
    }
}
