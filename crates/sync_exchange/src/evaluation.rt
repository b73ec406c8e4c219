//! Values of terms and places in the course of an exchange.
ghost use Rattle.std.specs.Prelude.{◌≡◌, pos, ◌&&◌, option_map, IfOk};
ghost use Rattle.sync_terms.specs.Stored.{Stored, tree, formula, IsTerm, IsForm};
ghost use Rattle.sync_terms.specs.declared.nodes.Sym.{Sym as Symbol};
ghost use Rattle.sync_machine.specs.States as states;
ghost use Rattle.sync_machine.specs.Statements as statements;
ghost use Rattle.sync_machine.specs.Views.{key_tree, pattern_tree, place_tree, HasKeyId, HasPatternId, HasPlaceIds};
ghost use Rattle.sync_exchange.specs.Exchange as exchanges;
ghost use Rattle.sync_exchange.specs.Works.{is_wanted, is_numbers, asked_at, MeasuresNumber, MeasuresMap, MeasuresTruth, MeasuresValue, MeasuresAmount, MeasuresAsked, FindsToken, FindsObject};

use crate::cases::{Asked, Case};
use crate::hands::{XStop, stored_at};
use crate::scopes::Scope;
use crate::works::Work;
use sync_exchange_values::{Meanings, map_of, number_of, truth_of};
use sync_join::{Entries, Token, Value};
use sync_machine::{Pattern, Place, Strategy, strategy_at};
use sync_terms::{FormId, Sym, TermId};

/// A token or an object that is as its place asks.
#[derive(Clone, Copy, PartialEq, Eq, Debug)]
pub(crate) struct Found {
    pub asked: Asked,
    pub token: Token,
}

/// The name that a place binds, if it binds one.
pub(crate) fn binds(place: Place) -> Option<Sym>
    ensures { (s : Stored) → option_map (λ (x : Symbol). x.0) result ≡ statements.binds (place_tree s place) }
{
    match place.value {
        Some(Pattern::Bind(x)) => Some(x),
        Some(Pattern::Term(_)) | None => None,
    }
}

/// Whether a token's value is the one that is asked for, where one is.
fn is_wanted(pattern: Option<Pattern>, asked: Asked, token: Token) -> bool
    ensures { (s : Stored) → result ≡ is_wanted (pattern_tree s pattern) asked.value token.value }
{
    match pattern {
        Some(Pattern::Bind(_)) => true,
        Some(Pattern::Term(_)) | None => asked.value == token.value,
    }
}

/// Whether a token of a field is as a place asks.
fn matches(token: Token, field: u32, asked: Asked, pattern: Option<Pattern>) -> bool
    ensures { (s : Stored) → result ≡ (exchanges.is_at_place field asked.key token && is_wanted (pattern_tree s pattern) asked.value token.value) }
{
    field == token.field && asked.key == token.key && is_wanted(pattern, asked, token)
}

/// Whether the values of a strategy's fields are numbers.
#[tactic(auto, unfolding(sync_machine::specs::States::sort_of))]
fn has_numbers(strategy: Strategy) -> bool
    ensures { result ≡ is_numbers (states.sort_of strategy) }
{
    matches!(
        strategy,
        Strategy::Variable
            | Strategy::Constant
            | Strategy::NotTokenized
            | Strategy::Count
            | Strategy::PersistentCount
    )
}

/// Whether a token is of a variable.
pub(crate) fn is_of_variable(token: Token, field: u32) -> bool
    ensures { result ≡ exchanges.is_at_place field (pos 0) token }
{
    field == token.field && 0 == token.key
}

impl Work {
    /// What symbols stand for at this statement.
    fn scope<'a>(&'a self, case: &'a Case<'a>) -> Scope<'a>
        ensures known { result.known.now ≡ self.now.known }
        ensures outer { result.outer.now ≡ case.now.outer }
    {
        Scope {
            outer: &case.outer,
            known: self.known.as_slice(),
        }
    }

    /// The number that a term is.
    pub(crate) fn number(&self, case: &Case<'_>, t: TermId) -> Result<i128, XStop>
        requires { IsTerm case.now.m.now.terms t }
        ensures { MeasuresNumber result case.now self.now (tree case.now.m.now.terms t) }
    {
        Ok(number_of(case.alloc, &case.m.terms, &self.scope(case), t)?)
    }

    /// The map that a term is.
    fn map(&self, case: &Case<'_>, t: TermId) -> Result<Entries, XStop>
        requires { IsTerm case.now.m.now.terms t }
        ensures { MeasuresMap result case.now self.now (tree case.now.m.now.terms t) }
    {
        Ok(map_of(case.alloc, &case.m.terms, &self.scope(case), t)?)
    }

    /// Whether a formula is true.
    pub(crate) fn truth(&self, case: &Case<'_>, form: FormId) -> Result<bool, XStop>
        requires { IsForm case.now.m.now.terms form }
        ensures { MeasuresTruth result case.now self.now (formula case.now.m.now.terms form) }
    {
        Ok(truth_of(case.alloc, &case.m.terms, &self.scope(case), form)?)
    }

    /// The value that a term gives a field, of the field's sort.
    pub(crate) fn value(&self, case: &Case<'_>, field: u32, t: TermId) -> Result<Value, XStop>
        requires { IsTerm case.now.m.now.terms t }
        ensures { MeasuresValue result case.now self.now field (tree case.now.m.now.terms t) }
    {
        if has_numbers(strategy_at(case.outer.fields, field)) {
            Ok(Value::Number(self.number(case, t)?))
        } else {
            Ok(Value::Map(self.map(case, t)?))
        }
    }

    /// The key of a place, 0 where the strategy has none.
    #[tactic(auto, unfolding(sync_exchange_values::specs::Fitting::number_fits))]
    fn key(&self, case: &Case<'_>, key: Option<TermId>) -> Result<i128, XStop>
        requires { HasKeyId case.now.m.now.terms key }
        ensures { MeasuresNumber result case.now self.now (statements.or_zero (key_tree case.now.m.now.terms key)) }
    {
        match key {
            Some(t) => self.number(case, t),
            None => Ok(0),
        }
    }

    /// The value or amount of a place, or what the name that it binds stands for; 1 for an element of a set.
    #[tactic(auto, unfolding(sync_exchange_values::specs::Fitting::number_fits))]
    fn amount(&self, case: &Case<'_>, pattern: Option<Pattern>) -> Result<i128, XStop>
        requires { HasPatternId case.now.m.now.terms pattern }
        ensures { MeasuresAmount result case.now self.now (pattern_tree case.now.m.now.terms pattern) }
    {
        match pattern {
            Some(Pattern::Bind(x)) => Ok(self.scope(case).number(x)),
            Some(Pattern::Term(t)) => self.number(case, t),
            None => Ok(1),
        }
    }

    /// The key and the value that a place asks for.
    pub(crate) fn asked(&self, case: &Case<'_>, place: Place) -> Result<Asked, XStop>
        requires { HasPlaceIds case.now.m.now.terms place }
        ensures { MeasuresAsked result case.now self.now (place_tree case.now.m.now.terms place) }
    {
        let key = self.key(case, place.key)?;
        let value = self.amount(case, place.value)?;
        Ok(Asked { key, value })
    }

    /// The token that the next slot names, where it is of this field, with the key and the value that a place asks for.
    pub(crate) fn asked_token(
        &self,
        case: &Case<'_>,
        field: u32,
        place: Place,
    ) -> Result<Found, XStop>
        requires { HasPlaceIds case.now.m.now.terms place }
        ensures asked { IfOk result (λ m. m.asked ≡ asked_at case.now self.now (place_tree case.now.m.now.terms place)) }
        ensures exact { FindsToken result case.now self.now field (place_tree case.now.m.now.terms place) }
    {
        let token = self.named(case)?;
        let asked = self.asked(case, place)?;
        if !matches(token, field, asked, place.value) {
            return Err(XStop::Differs(self.slot));
        }
        Ok(Found { asked, token })
    }

    /// The object that is stored at a place, where it has the value that the place asks for.
    pub(crate) fn asked_object(
        &self,
        case: &Case<'_>,
        field: u32,
        place: Place,
    ) -> Result<Found, XStop>
        requires { HasPlaceIds case.now.m.now.terms place }
        ensures asked { IfOk result (λ m. m.asked ≡ asked_at case.now self.now (place_tree case.now.m.now.terms place)) }
        ensures exact { FindsObject result case.now self.now field (place_tree case.now.m.now.terms place) }
    {
        let asked = self.asked(case, place)?;
        let Some(token) = stored_at(self.stored.as_slice(), field, asked.key) else {
            return Err(XStop::StoreEmpty(self.slot));
        };
        if !is_wanted(place.value, asked, token) {
            return Err(XStop::Differs(self.slot));
        }
        Ok(Found { asked, token })
    }
}
