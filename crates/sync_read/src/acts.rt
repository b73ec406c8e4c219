//! Fields, parameters and statements, made into those of a machine.
ghost use Rattle.std.specs.Prelude.{◌≡◌, [], IfOk, map};
ghost use Rattle.std.specs.List.{AllByRecursion};
ghost use Rattle.sync_base.specs.Outcome.{Gives};
ghost use Rattle.sync_terms.specs.Stored.{tree, IsTerm, Extends};
ghost use Rattle.sync_terms.specs.declared.nodes.Sym.{Sym};
ghost use Rattle.sync_machine.specs.Views.{symbols_of, pattern_tree, place_tree, act_tree, steps_tree, HasPatternId, HasPlaceIds, HasActIds};
ghost use Rattle.sync_machine.specs.declared.machine.Step.{Step};
ghost use Rattle.sync_read.specs.Acts.{strategy_sort, few_before, add_field, fields_from, add_param, params_from, field_in, pattern_in, place_in, field_term, field_place, act_in, steps_from};

use sqlite_items::Items;
use std::alloc::Global;
use sync_base::{Rule, Stop};
use sync_machine::{Act, Field, Pattern, Place, Step, Strategy};
use sync_parse::{RawAct, RawField, RawPattern, RawPlace, RawStep};
use sync_parse_exprs::{RawExpr, RawName};
use sync_read_names::{Meaning, Scope, Sort, form_of, refused, symbol_of, term_of};
use sync_terms::{Sym, TermId, Terms};

/// At most so many come before.
pub fn few_before(most: usize, before: usize, line: u32) -> Result<usize, Stop>
    ensures { Gives (λ n. n) result (few_before most before line) }
{
    if before < most {
        Ok(before)
    } else {
        Err(refused(Rule::N5, line))
    }
}

/// The sort of a strategy's values.
fn strategy_sort(strategy: Strategy) -> Sort
    ensures { result ≡ strategy_sort strategy }
{
    match strategy {
        Strategy::Variable
        | Strategy::Constant
        | Strategy::NotTokenized
        | Strategy::Count
        | Strategy::PersistentCount => Sort::Number,
        Strategy::Option
        | Strategy::Map
        | Strategy::Set
        | Strategy::Multiset
        | Strategy::PersistentOption
        | Strategy::PersistentMap
        | Strategy::PersistentSet
        | Strategy::StorageMap => Sort::Map,
    }
}

/// Declares the field with this number.
fn add_field(number: usize, scope: &mut Scope, field: RawField) -> Result<(), Stop>
    ensures { Gives (λ _. scope.new) result (add_field number scope.old field) }
{
    few_before(32, number, field.line)?;
    let sort = strategy_sort(field.strategy);
    scope.declare(field.name, Meaning::Field(number as u32, sort))
}

/// The fields of a machine.
#[tactic(auto, unfolding(crate::specs::Acts::fields_from))]
pub(crate) fn fields(
    alloc: Global,
    scope: &mut Scope,
    raw: &[RawField],
) -> Result<Items<Field>, Stop>
    ensures { Gives (λ fs. (fs, scope.new)) result (fields_from [] scope.old raw.now) }
{
    let mut held = Items::new(alloc);
    for field in raw {
        add_field(held.len(), scope, *field)?;
        held.push(Field {
            name: field.name.name,
            strategy: field.strategy,
            line: field.line,
        })?;
    }
    Ok(held)
}

/// Makes a name the owner's parameter.
fn add_param(limited: bool, before: usize, scope: &mut Scope, named: RawName) -> Result<(), Stop>
    ensures { Gives (λ _. scope.new) result (add_param limited before scope.old named) }
{
    scope.own(named)?;
    if limited {
        few_before(8, before, named.line)?;
    }
    Ok(())
}

/// The parameters of an operation, which has at most 8, or of an invariant.
#[tactic(auto, unfolding(crate::specs::Acts::params_from))]
pub(crate) fn params(
    alloc: Global,
    limited: bool,
    scope: &mut Scope,
    raw: &[RawName],
) -> Result<Items<Sym>, Stop>
    ensures { Gives (λ ps. (symbols_of ps, scope.new)) result (params_from limited [] scope.old raw.now) }
{
    let mut held = Items::new(alloc);
    for named in raw {
        add_param(limited, held.len(), scope, *named)?;
        held.push(symbol_of(named.name))?;
    }
    Ok(held)
}

/// The number and the sort of a field.
fn field_in(scope: &Scope, named: RawName) -> Result<(u32, Sort), Stop>
    ensures { Gives (λ f. (f.0, f.1)) result (field_in scope.now named) }
{
    match scope.meaning(named.name) {
        Meaning::Field(number, sort) => Ok((number, sort)),
        Meaning::Nothing | Meaning::Operation(_) | Meaning::Invariant(_) => {
            Err(refused(Rule::N1, named.line))
        }
    }
}

/// The value of a place.
fn pattern(terms: &mut Terms, scope: &mut Scope, raw: &RawPattern) -> Result<Pattern, Stop>
    ensures exact { Gives (λ p. (pattern_tree terms.new (Some p), scope.new)) result (pattern_in raw.now scope.old) }
    ensures id { IfOk result (λ p. HasPatternId terms.new (Some p)) }
    ensures keeps { Extends terms.old terms.new }
{
    match raw {
        RawPattern::Bind(named) => {
            scope.own(*named)?;
            Ok(Pattern::Bind(symbol_of(named.name)))
        }
        RawPattern::Term(e) => Ok(Pattern::Term(term_of(terms, scope, e, Sort::Number)?)),
    }
}

/// A place.
#[tactic(auto, using(sync_read_names::proofs::Kept::kept_tree, sync_read_names::proofs::Kept::kept_term, sync_read_names::proofs::Kept::along, sync_read_names::proofs::Kept::stays))]
fn place(terms: &mut Terms, scope: &mut Scope, raw: &RawPlace) -> Result<Place, Stop>
    ensures exact { Gives (λ p. (place_tree terms.new p, scope.new)) result (place_in raw.now scope.old) }
    ensures ids { IfOk result (HasPlaceIds terms.new) }
    ensures keeps { Extends terms.old terms.new }
{
    match raw {
        RawPlace::Value(value) => {
            let value = pattern(terms, scope, value)?;
            Ok(Place {
                key: None,
                value: Some(value),
            })
        }
        RawPlace::Key(key) => {
            let key = term_of(terms, scope, key, Sort::Number)?;
            Ok(Place {
                key: Some(key),
                value: None,
            })
        }
        RawPlace::Entry(key, value) => {
            let key = term_of(terms, scope, key, Sort::Number)?;
            let value = pattern(terms, scope, value)?;
            Ok(Place {
                key: Some(key),
                value: Some(value),
            })
        }
    }
}

/// A field and a term of its sort.
fn field_term(
    terms: &mut Terms,
    scope: &Scope,
    named: RawName,
    e: &RawExpr,
) -> Result<(u32, TermId), Stop>
    ensures exact { Gives (λ p. (p.0, tree terms.new p.1)) result (field_term named e.now scope.now) }
    ensures id { IfOk result (λ p. IsTerm terms.new p.1) }
    ensures keeps { Extends terms.old terms.new }
{
    let (number, sort) = field_in(scope, named)?;
    let t = term_of(terms, scope, e, sort)?;
    Ok((number, t))
}

/// A field and a place.
fn field_place(
    terms: &mut Terms,
    scope: &mut Scope,
    named: RawName,
    raw: &RawPlace,
) -> Result<(u32, Place), Stop>
    ensures exact { Gives (λ p. (p.0, place_tree terms.new p.1, scope.new)) result (field_place named raw.now scope.old) }
    ensures ids { IfOk result (λ p. HasPlaceIds terms.new p.1) }
    ensures keeps { Extends terms.old terms.new }
{
    let (number, _) = field_in(scope, named)?;
    let p = place(terms, scope, raw)?;
    Ok((number, p))
}

/// What a statement does.
fn act(terms: &mut Terms, scope: &mut Scope, raw: &RawAct) -> Result<Act, Stop>
    ensures exact { Gives (λ a. (act_tree terms.new a, scope.new)) result (act_in raw.now scope.old) }
    ensures ids { IfOk result (HasActIds terms.new) }
    ensures keeps { Extends terms.old terms.new }
{
    match raw {
        RawAct::Init(named, e) => {
            let (field, t) = field_term(terms, scope, *named, e)?;
            Ok(Act::Init(field, t))
        }
        RawAct::Update(named, e) => {
            let (field, t) = field_term(terms, scope, *named, e)?;
            Ok(Act::Update(field, t))
        }
        RawAct::Require(e) => Ok(Act::Require(form_of(terms, scope, e)?)),
        RawAct::Assert(e) => Ok(Act::Assert(form_of(terms, scope, e)?)),
        RawAct::HaveVariable(named) => {
            let (field, _) = field_in(scope, *named)?;
            Ok(Act::HaveVariable(field))
        }
        RawAct::Have(named, p) => {
            let (field, p) = field_place(terms, scope, *named, p)?;
            Ok(Act::Have(field, p))
        }
        RawAct::Guard(named, p) => {
            let (field, p) = field_place(terms, scope, *named, p)?;
            Ok(Act::Guard(field, p))
        }
        RawAct::Add(named, p) => {
            let (field, p) = field_place(terms, scope, *named, p)?;
            Ok(Act::Add(field, p))
        }
        RawAct::Deposit(named, p) => {
            let (field, p) = field_place(terms, scope, *named, p)?;
            Ok(Act::Deposit(field, p))
        }
        RawAct::Remove(named, p) => {
            let (field, p) = field_place(terms, scope, *named, p)?;
            Ok(Act::Remove(field, p))
        }
        RawAct::Withdraw(named, p) => {
            let (field, p) = field_place(terms, scope, *named, p)?;
            Ok(Act::Withdraw(field, p))
        }
    }
}

/// The statements of an operation.
#[tactic(auto, using(sync_read_names::proofs::Kept::along, sync_read_names::proofs::Kept::stays, crate::proofs::Steps::steps_kept, crate::proofs::Steps::steps_stay), unfolding(crate::specs::Acts::steps_from))]
pub(crate) fn steps(
    alloc: Global,
    terms: &mut Terms,
    scope: &mut Scope,
    raw: &[RawStep],
) -> Result<Items<Step>, Stop>
    ensures exact { Gives (λ xs. (steps_tree terms.new xs, scope.new)) result (steps_from [] scope.old raw.now) }
    ensures ids { IfOk result (λ xs. AllByRecursion (λ (x : Step). HasActIds terms.new x.act) xs) }
    ensures keeps { Extends terms.old terms.new }
{
    let mut held = Items::new(alloc);
    for a in raw {
        few_before(64, held.len(), a.line)?;
        let act = act(terms, scope, &a.what)?;
        held.push(Step { act, line: a.line })?;
    }
    Ok(held)
}
