//! The conditions of a statement.
ghost use Rattle.std.specs.Prelude.{◌≡◌, option_map, IfSome};
ghost use Rattle.sync_terms.specs.Stored.{tree, formula, IsTerm, IsForm, Extends};
ghost use Rattle.sync_machine.specs.Statements.{is_free, is_there_with, key_of, value_of, amount_is_natural, both, enabling, safety, condition};
ghost use Rattle.sync_machine.specs.Views.{act_tree, place_tree, HasPlaceIds, HasActIds};
ghost use Rattle.sync_terms.specs.Building.{BuildsForm};
ghost use Rattle.sync_induct_acts.specs.Conditions.{BuildsCondition};

use crate::conditions::{amount_is_natural, freshness, is_free, is_there_with, presence, storage};
use crate::nodes::{as_condition, stored_form};
use crate::places::terms_of;
use sync_machine::{Act, Place, Strategy};
use sync_terms::building::form;
use sync_terms::{FormId, FormNode, TermId, TermStop, Terms};

/// The enabling condition of a statement, if it has one: what whoever takes the step has to meet.
///
/// `current` is the value of the statement's field so far, and the strategy is the field's.
/// `TooLarge` is for a condition of more than `MOST_NODES` nodes. After a stop the store may have gained nodes.
pub fn enabling(
    terms: &mut Terms,
    strategy: Strategy,
    current: TermId,
    act: Act,
) -> Result<Option<FormId>, TermStop>
    requires current { IsTerm terms.old current }
    requires ids { HasActIds terms.old act }
    ensures built { BuildsCondition terms.new (enabling strategy (tree terms.old current) (act_tree terms.old act)) result }
    ensures keeps { Extends terms.old terms.new }
{
    match act {
        Act::Require(form) => stored_form(terms, form),
        Act::Remove(_, place) | Act::Have(_, place) => presence(terms, strategy, current, place),
        _ => Ok(None),
    }
}

/// The key of a place is free.
fn is_free_at(terms: &mut Terms, current: TermId, place: Place) -> Result<FormId, TermStop>
    requires current { IsTerm terms.old current }
    requires place { HasPlaceIds terms.old place }
    ensures built { BuildsForm terms.new (is_free (tree terms.old current) (key_of (place_tree terms.old place))) result }
    ensures keeps { Extends terms.old terms.new }
{
    let at = terms_of(terms, place)?;
    is_free(terms, current, at.key)
}

/// The amount of a place, where it is one of a count, is not negative.
fn amount_at_is_natural(
    terms: &mut Terms,
    strategy: Strategy,
    place: Place,
) -> Result<Option<FormId>, TermStop>
    requires { HasPlaceIds terms.old place }
    ensures built { BuildsCondition terms.new (amount_is_natural strategy (value_of (place_tree terms.old place))) result }
    ensures keeps { Extends terms.old terms.new }
{
    let at = terms_of(terms, place)?;
    amount_is_natural(terms, strategy, at.value)
}

/// The safety condition of a statement, if it has one: what its author has to prove.
///
/// `current` is the value of the statement's field so far, and the strategy is the field's.
/// `TooLarge` is for a condition of more than `MOST_NODES` nodes. After a stop the store may have gained nodes.
pub fn safety(
    terms: &mut Terms,
    strategy: Strategy,
    current: TermId,
    act: Act,
) -> Result<Option<FormId>, TermStop>
    requires current { IsTerm terms.old current }
    requires ids { HasActIds terms.old act }
    ensures built { BuildsCondition terms.new (safety strategy (tree terms.old current) (act_tree terms.old act)) result }
    ensures keeps { Extends terms.old terms.new }
{
    match act {
        Act::Init(_, value) => amount_is_natural(terms, strategy, value),
        Act::Assert(form) => stored_form(terms, form),
        Act::Add(_, place) => freshness(terms, strategy, current, place),
        Act::Remove(_, place) | Act::Have(_, place) => {
            amount_at_is_natural(terms, strategy, place)
        }
        Act::Deposit(_, place) => as_condition(is_free_at(terms, current, place)),
        Act::Withdraw(_, place) | Act::Guard(_, place) => {
            as_condition(storage(terms, current, place))
        }
        Act::Require(_) | Act::Update(_, _) | Act::HaveVariable(_) => Ok(None),
    }
}

/// Both conditions, or the one that is there.
fn both(
    terms: &mut Terms,
    first: Option<FormId>,
    second: Option<FormId>,
) -> Result<Option<FormId>, TermStop>
    requires first { IfSome first (IsForm terms.old) }
    requires second { IfSome second (IsForm terms.old) }
    ensures built { BuildsCondition terms.new (both (option_map (formula terms.old) first) (option_map (formula terms.old) second)) result }
    ensures keeps { Extends terms.old terms.new }
{
    match (first, second) {
        (Some(first), Some(second)) => as_condition(form(terms, FormNode::And(first, second))),
        (Some(only), None) | (None, Some(only)) => stored_form(terms, only),
        (None, None) => Ok(None),
    }
}

/// The object of a place is there with its value.
fn is_there_at(terms: &mut Terms, current: TermId, place: Place) -> Result<FormId, TermStop>
    requires current { IsTerm terms.old current }
    requires place { HasPlaceIds terms.old place }
    ensures built { BuildsForm terms.new (is_there_with (tree terms.old current) (key_of (place_tree terms.old place)) (value_of (place_tree terms.old place))) result }
    ensures keeps { Extends terms.old terms.new }
{
    let at = terms_of(terms, place)?;
    is_there_with(terms, current, at.key, at.value)
}

/// The two conditions of a statement.
fn safety_and_enabling(
    terms: &mut Terms,
    strategy: Strategy,
    current: TermId,
    act: Act,
) -> Result<Option<FormId>, TermStop>
    requires current { IsTerm terms.old current }
    requires ids { HasActIds terms.old act }
    ensures built { BuildsCondition terms.new (both (safety strategy (tree terms.old current) (act_tree terms.old act)) (enabling strategy (tree terms.old current) (act_tree terms.old act))) result }
    ensures keeps { Extends terms.old terms.new }
{
    let safety = safety(terms, strategy, current, act)?;
    let enabling = enabling(terms, strategy, current, act)?;
    both(terms, safety, enabling)
}

/// What is known behind a statement: its conditions, and the value of the name that it binds.
///
/// `current` is the value of the statement's field so far, and the strategy is the field's.
/// `TooLarge` is for a condition of more than `MOST_NODES` nodes. After a stop the store may have gained nodes.
pub fn condition(
    terms: &mut Terms,
    strategy: Strategy,
    current: TermId,
    act: Act,
) -> Result<Option<FormId>, TermStop>
    requires current { IsTerm terms.old current }
    requires ids { HasActIds terms.old act }
    ensures built { BuildsCondition terms.new (condition strategy (tree terms.old current) (act_tree terms.old act)) result }
    ensures keeps { Extends terms.old terms.new }
{
    match act {
        Act::Withdraw(_, place) | Act::Guard(_, place) => {
            as_condition(is_there_at(terms, current, place))
        }
        _ => safety_and_enabling(terms, strategy, current, act),
    }
}
