//! Whether the terms that have to be local are.
ghost use Rattle.std.specs.Prelude.{◌≡◌};
ghost use Rattle.sync_terms.specs.Stored.{tree, formula, IsTerm, IsForm};
ghost use Rattle.sync_machine.specs.Views.{act_tree, place_tree, key_tree, pattern_tree, HasActIds, HasPlaceIds, HasKeyId, HasPatternId};
ghost use Rattle.sync_rules.specs.Locality as locality;

use sync_machine::{Act, Field, Machine, OpMode, Pattern, Place, Strategy, strategy_at};
use sync_terms::{FormId, FormNode, Node, Sym, TermId};

/// Whether a local term of an operation of this mode may name a symbol.
fn is_local(fields: &[Field], mode: OpMode, symbol: Sym) -> bool
    ensures { result ≡ locality.is_local fields.now mode symbol.0 }
{
    match (mode, fields.get(symbol.0 as usize)) {
        (_, None) => true,
        (OpMode::Init, Some(_)) => false,
        (OpMode::Transition | OpMode::Property, Some(field)) => is_known(field.strategy),
    }
}

/// Whether everyone who takes a step knows the value of a field.
fn is_known(strategy: Strategy) -> bool
    ensures { result ≡ locality.is_known strategy }
{
    matches!(strategy, Strategy::Variable | Strategy::Constant)
}

/// Whether a term is local. Takes time in the size of its tree, which is at most 1,000,000 nodes.
#[tactic(auto, unfolding(sync_terms::specs::Stored::shape, sync_terms::specs::Stored::tree, crate::specs::Locality::names_only))]
fn is_local_term(m: &Machine, mode: OpMode, id: TermId) -> bool
    requires { IsTerm m.now.terms id }
    ensures { result ≡ locality.names_only (locality.is_local m.now.fields mode) (tree m.now.terms id) }
{
    match m.terms.term(id) {
        Node::Lit(_) | Node::Nil => true,
        Node::Name(symbol) => is_local(m.fields.as_slice(), mode, symbol),
        Node::Scale(_, a) | Node::Size(a) | Node::Sum(a) => is_local_term(m, mode, a),
        Node::Add(a, b) | Node::Sub(a, b) | Node::Get(a, b) | Node::Has(a, b) | Node::Del(a, b) =>
            is_local_term(m, mode, a) && is_local_term(m, mode, b),
        Node::Put(a, b, c) | Node::Bump(a, b, c) => {
            is_local_term(m, mode, a) && is_local_term(m, mode, b) && is_local_term(m, mode, c)
        }
    }
}

/// Whether all terms of a formula are local.
#[tactic(auto, unfolding(sync_terms::specs::Stored::form_shape, sync_terms::specs::Stored::tree, sync_terms::specs::Stored::formula, crate::specs::Locality::form_names_only))]
fn is_local_form(m: &Machine, mode: OpMode, id: FormId) -> bool
    requires { IsForm m.now.terms id }
    ensures { result ≡ locality.form_names_only (locality.is_local m.now.fields mode) (formula m.now.terms id) }
{
    match m.terms.form(id) {
        FormNode::Le(a, b) | FormNode::Lt(a, b) | FormNode::Eq(a, b) => {
            is_local_term(m, mode, a) && is_local_term(m, mode, b)
        }
        FormNode::Not(f) => is_local_form(m, mode, f),
        FormNode::And(f, g) | FormNode::Or(f, g) | FormNode::Imp(f, g) => {
            is_local_form(m, mode, f) && is_local_form(m, mode, g)
        }
    }
}

fn is_local_key(m: &Machine, mode: OpMode, key: Option<TermId>) -> bool
    requires { HasKeyId m.now.terms key }
    ensures { result ≡ locality.key_names_only (locality.is_local m.now.fields mode) (key_tree m.now.terms key) }
{
    match key {
        None => true,
        Some(t) => is_local_term(m, mode, t),
    }
}

fn is_local_pattern(m: &Machine, mode: OpMode, value: Option<Pattern>) -> bool
    requires { HasPatternId m.now.terms value }
    ensures { result ≡ locality.pattern_names_only (locality.is_local m.now.fields mode) (pattern_tree m.now.terms value) }
{
    match value {
        None | Some(Pattern::Bind(_)) => true,
        Some(Pattern::Term(t)) => is_local_term(m, mode, t),
    }
}

/// Whether the key and the value of a place are local.
fn is_local_place(m: &Machine, mode: OpMode, place: Place) -> bool
    requires { HasPlaceIds m.now.terms place }
    ensures { result ≡ locality.place_names_only (locality.is_local m.now.fields mode) (place_tree m.now.terms place) }
{
    is_local_key(m, mode, place.key) && is_local_pattern(m, mode, place.value)
}

/// Whether the first value that an init gives is local. What another operation does there is for other rules.
fn starts_local(m: &Machine, mode: OpMode, id: TermId) -> bool
    requires { IsTerm m.now.terms id }
    ensures { result ≡ locality.starts_local m.now.fields mode (tree m.now.terms id) }
{
    match mode {
        OpMode::Init => is_local_term(m, mode, id),
        OpMode::Transition | OpMode::Property => true,
    }
}

fn is_variable(strategy: Strategy) -> bool
    ensures { result ≡ locality.is_variable strategy }
{
    matches!(strategy, Strategy::Variable)
}

/// Whether all terms of a statement are local that have to be.
#[tactic(auto, unfolding(crate::specs::Locality::has_local_terms))]
pub(crate) fn has_local_terms(m: &Machine, mode: OpMode, act: &Act) -> bool
    requires { HasActIds m.now.terms act.now }
    ensures { result ≡ locality.has_local_terms m.now.fields mode (act_tree m.now.terms act.now) }
{
    match *act {
        Act::Init(_, t) => starts_local(m, mode, t),
        Act::Require(form) => is_local_form(m, mode, form),
        Act::Update(f, t) => {
            !is_variable(strategy_at(m.fields.as_slice(), f)) || is_local_term(m, mode, t)
        }
        Act::Assert(_) | Act::HaveVariable(_) => true,
        Act::Add(_, place)
        | Act::Remove(_, place)
        | Act::Have(_, place)
        | Act::Deposit(_, place)
        | Act::Withdraw(_, place)
        | Act::Guard(_, place) => is_local_place(m, mode, place),
    }
}
