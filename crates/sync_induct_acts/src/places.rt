//! The keys and values of places.
ghost use Rattle.std.specs.Prelude.{◌≡◌, IfOk, IfErr};
ghost use Rattle.sync_terms.specs.Stored.{Extends};
ghost use Rattle.sync_machine.specs.Statements.{key_of, value_of};
ghost use Rattle.sync_machine.specs.Views.{place_tree, HasPlaceIds};
ghost use Rattle.sync_terms.specs.Building.{FindsTerm};
ghost use Rattle.sync_induct_acts.specs.Conditions.{HasPlaceTerms};

use crate::nodes::{name, one, zero};
use sync_machine::{Pattern, Place};
use sync_terms::{TermId, TermStop, Terms};

/// The key and the value of a place, as terms.
#[derive(Clone, Copy)]
pub(crate) struct PlaceTerms {
    pub key: TermId,
    pub value: TermId,
}

/// The key of a place; 0 where it has none.
fn key_of(terms: &mut Terms, place: Place) -> Result<TermId, TermStop>
    requires { HasPlaceIds terms.old place }
    ensures found { FindsTerm terms.new (key_of (place_tree terms.old place)) result }
    ensures keeps { Extends terms.old terms.new }
{
    match place.key {
        Some(key) => Ok(key),
        None => zero(terms),
    }
}

/// The value of a place, or the name that it binds; 1 where it has none.
fn value_of(terms: &mut Terms, place: Place) -> Result<TermId, TermStop>
    requires { HasPlaceIds terms.old place }
    ensures found { FindsTerm terms.new (value_of (place_tree terms.old place)) result }
    ensures keeps { Extends terms.old terms.new }
{
    match place.value {
        Some(Pattern::Bind(symbol)) => name(terms, symbol),
        Some(Pattern::Term(term)) => Ok(term),
        None => one(terms),
    }
}

/// The key and the value of a place.
pub(crate) fn terms_of(terms: &mut Terms, place: Place) -> Result<PlaceTerms, TermStop>
    requires { HasPlaceIds terms.old place }
    ensures found { IfOk result (HasPlaceTerms terms.new (place_tree terms.old place)) }
    ensures stop { IfErr result (λ e. e ≡ TermStop.Memory) }
    ensures keeps { Extends terms.old terms.new }
{
    let key = key_of(terms, place)?;
    let value = value_of(terms, place)?;
    Ok(PlaceTerms { key, value })
}
