//! Forms of tokens.
ghost use Rattle.std.specs.Prelude.{◌≡◌, Bool, option_map};
ghost use Rattle.sync_parse.specs.declared.trees.RawPlace.{RawPlace};
ghost use Rattle.sync_base.specs.Outcome.{Gives};
ghost use Rattle.sync_terms.specs.Stored.{Stored, tree, Extends};
ghost use Rattle.sync_thread.specs.Views.{shape_tree};
ghost use Rattle.sync_read_programs.specs.Keeps.{is_term, is_value, is_key, is_entry, has_place, token_field, field_of_token, shape_field, value_in, place_terms, shape_in};

use crate::scopes::ProgramScope;
use sqlite_items::at;
use sync_base::{Rule, Stop};
use sync_machine::Strategy;
use sync_parse::{RawPattern, RawPlace};
use sync_parse_exprs::RawName;
use sync_parse_programs::RawShape;
use sync_read_names::{Meaning, Sort, refused, term_of};
use sync_terms::{TermId, Terms};
use sync_thread::Shape;

fn is_term(raw: &RawPattern) -> bool
    ensures { result ≡ is_term raw.now }
{
    match raw {
        RawPattern::Term(_) => true,
        RawPattern::Bind(_) => false,
    }
}

/// `(v)`
fn is_value(raw: &RawPlace) -> bool
    ensures { result ≡ is_value raw.now }
{
    match raw {
        RawPlace::Value(value) => is_term(value),
        RawPlace::Key(_) | RawPlace::Entry(_, _) => false,
    }
}

/// `[k]`
fn is_key(raw: &RawPlace) -> bool
    ensures { result ≡ is_key raw.now }
{
    match raw {
        RawPlace::Key(_) => true,
        RawPlace::Value(_) | RawPlace::Entry(_, _) => false,
    }
}

/// `[k => v]`
fn is_entry(raw: &RawPlace) -> bool
    ensures { result ≡ is_entry raw.now }
{
    match raw {
        RawPlace::Entry(_, value) => is_term(value),
        RawPlace::Value(_) | RawPlace::Key(_) => false,
    }
}

/// Whether a place is that of a field's tokens; nothing for a field without tokens.
fn fits(strategy: Strategy, raw: &RawPlace) -> Option<bool>
    ensures { result ≡ option_map (λ (fits : RawPlace → Bool). fits raw.now) (has_place strategy) }
{
    match strategy {
        Strategy::Variable
        | Strategy::Option
        | Strategy::Count
        | Strategy::PersistentOption
        | Strategy::PersistentCount => Some(is_value(raw)),
        Strategy::Set | Strategy::Multiset | Strategy::PersistentSet => Some(is_key(raw)),
        Strategy::Map | Strategy::PersistentMap => Some(is_entry(raw)),
        Strategy::StorageMap | Strategy::Constant | Strategy::NotTokenized => None,
    }
}

/// The field of a token, whose name stands at a line, with its place.
fn field_of_token(
    scope: &ProgramScope,
    meaning: Meaning,
    raw: &RawPlace,
    named: u32,
    line: u32,
) -> Result<Option<u32>, Stop>
    ensures { Gives (λ f. f) result (field_of_token scope.now meaning raw.now named line) }
{
    let Meaning::Field(number, _) = meaning else {
        return Err(refused(Rule::N1, named));
    };
    let Some(strategy) = at(scope.strategies.as_slice(), number as usize) else {
        return Err(refused(Rule::N1, named));
    };
    match fits(*strategy, raw) {
        Some(true) => Ok(Some(number)),
        Some(false) => Err(refused(Rule::N6, line)),
        None => Err(refused(Rule::N1, named)),
    }
}

/// The field of a form, none for `perm`.
fn shape_field(
    scope: &ProgramScope,
    field: Option<RawName>,
    raw: &RawPlace,
    line: u32,
) -> Result<Option<u32>, Stop>
    ensures { Gives (λ f. f) result (shape_field scope.now field raw.now line) }
{
    match field {
        Some(named) => field_of_token(
            scope,
            scope.scope.meaning(named.name),
            raw,
            named.line,
            line,
        ),
        None => {
            if is_entry(raw) {
                Ok(None)
            } else {
                Err(refused(Rule::N6, line))
            }
        }
    }
}

#[tactic(auto, using(sync_read_names::proofs::Kept::kept_tree, sync_read_names::proofs::Kept::stays))]
fn value(
    terms: &mut Terms,
    scope: &ProgramScope,
    raw: &RawPattern,
    line: u32,
) -> Result<TermId, Stop>
    ensures exact { (t : Stored) → Extends terms.new t → Gives (tree t) result (value_in scope.now raw.now line) }
    ensures keeps { Extends terms.old terms.new }
{
    match raw {
        RawPattern::Term(e) => term_of(terms, &scope.scope, e, Sort::Number),
        RawPattern::Bind(_) => Err(refused(Rule::N6, line)),
    }
}

/// The key and the value of a place.
#[tactic(auto, using(sync_read_names::proofs::Kept::kept_tree, sync_read_names::proofs::Kept::along, sync_read_names::proofs::Kept::stays))]
fn place_terms(
    terms: &mut Terms,
    scope: &ProgramScope,
    raw: &RawPlace,
    line: u32,
) -> Result<(Option<TermId>, Option<TermId>), Stop>
    ensures exact { (t : Stored) → Extends terms.new t →
        Gives (λ p. (option_map (tree t) p.0, option_map (tree t) p.1)) result (place_terms scope.now raw.now line) }
    ensures keeps { Extends terms.old terms.new }
{
    match raw {
        RawPlace::Value(p) => {
            let v = value(terms, scope, p, line)?;
            Ok((None, Some(v)))
        }
        RawPlace::Key(e) => {
            let k = term_of(terms, &scope.scope, e, Sort::Number)?;
            Ok((Some(k), None))
        }
        RawPlace::Entry(e, p) => {
            let k = term_of(terms, &scope.scope, e, Sort::Number)?;
            let v = value(terms, scope, p, line)?;
            Ok((Some(k), Some(v)))
        }
    }
}

#[tactic(auto, using(sync_read_names::proofs::Kept::stays), unfolding(crate::specs::Keeps::shape_in))]
pub(crate) fn shape(terms: &mut Terms, scope: &ProgramScope, raw: &RawShape) -> Result<Shape, Stop>
    ensures exact { (t : Stored) → Extends terms.new t → Gives (shape_tree t) result (shape_in scope.now raw.now) }
    ensures keeps { Extends terms.old terms.new }
{
    let field = shape_field(scope, raw.field, &raw.place, raw.line)?;
    let (key, value) = place_terms(terms, scope, &raw.place, raw.line)?;
    Ok(Shape { field, key, value })
}
