//! Which terms name a symbol, and which statements need a variable's value.
ghost use Rattle.std.specs.Prelude.{◌≡◌};
ghost use Rattle.sync_terms.specs.Stored.{tree, formula, IsTerm, IsForm};
ghost use Rattle.sync_machine.specs.Views.{act_tree, place_tree, key_tree, pattern_tree, HasActIds, HasPlaceIds, HasKeyId, HasPatternId};
ghost use Rattle.sync_rules.specs.Obligations as obligations;
ghost use Rattle.sync_rules.specs.Locality as locality;
ghost use Rattle.sync_rules.specs.Slots as slots;

use sync_machine::{Act, Machine, Pattern, Place, Strategy, strategy_at};
use sync_terms::{FormId, FormNode, Node, TermId, Terms};

/// Whether a field is a variable.
pub(crate) fn is_variable(strategy: Strategy) -> bool
    ensures { result ≡ locality.is_variable strategy }
{
    matches!(strategy, Strategy::Variable)
}

/// Whether a term names a symbol. Takes time in the size of its tree.
#[tactic(auto, unfolding(sync_terms::specs::Stored::shape, sync_terms::specs::Stored::tree, crate::specs::Obligations::names))]
fn term_names(terms: &Terms, symbol: u32, id: TermId) -> bool
    requires { IsTerm terms.now id }
    ensures { result ≡ obligations.names symbol (tree terms.now id) }
{
    match terms.term(id) {
        Node::Lit(_) | Node::Nil => false,
        Node::Name(other) => symbol == other.0,
        Node::Scale(_, a) | Node::Size(a) | Node::Sum(a) => term_names(terms, symbol, a),
        Node::Add(a, b) | Node::Sub(a, b) | Node::Get(a, b) | Node::Has(a, b) | Node::Del(a, b) =>
            term_names(terms, symbol, a) || term_names(terms, symbol, b),
        Node::Put(a, b, c) | Node::Bump(a, b, c) => {
            term_names(terms, symbol, a)
                || term_names(terms, symbol, b)
                || term_names(terms, symbol, c)
        }
    }
}

/// Whether a formula names a symbol.
#[tactic(auto, unfolding(sync_terms::specs::Stored::form_shape, sync_terms::specs::Stored::tree, sync_terms::specs::Stored::formula, crate::specs::Obligations::form_names))]
fn form_names(terms: &Terms, symbol: u32, id: FormId) -> bool
    requires { IsForm terms.now id }
    ensures { result ≡ obligations.form_names symbol (formula terms.now id) }
{
    match terms.form(id) {
        FormNode::Le(a, b) | FormNode::Lt(a, b) | FormNode::Eq(a, b) => {
            term_names(terms, symbol, a) || term_names(terms, symbol, b)
        }
        FormNode::Not(f) => form_names(terms, symbol, f),
        FormNode::And(f, g) | FormNode::Or(f, g) | FormNode::Imp(f, g) => {
            form_names(terms, symbol, f) || form_names(terms, symbol, g)
        }
    }
}

fn key_names(terms: &Terms, symbol: u32, key: Option<TermId>) -> bool
    requires { HasKeyId terms.now key }
    ensures { result ≡ slots.key_names symbol (key_tree terms.now key) }
{
    match key {
        None => false,
        Some(t) => term_names(terms, symbol, t),
    }
}

fn pattern_names(terms: &Terms, symbol: u32, value: Option<Pattern>) -> bool
    requires { HasPatternId terms.now value }
    ensures { result ≡ slots.pattern_names symbol (pattern_tree terms.now value) }
{
    match value {
        None | Some(Pattern::Bind(_)) => false,
        Some(Pattern::Term(t)) => term_names(terms, symbol, t),
    }
}

/// Whether the key or the value of a place names a symbol.
fn place_names(terms: &Terms, symbol: u32, place: Place) -> bool
    requires { HasPlaceIds terms.now place }
    ensures { result ≡ slots.place_names symbol (place_tree terms.now place) }
{
    key_names(terms, symbol, place.key) || pattern_names(terms, symbol, place.value)
}

/// Whether a statement needs the value of a variable of whoever takes the step.
#[tactic(auto, unfolding(crate::specs::Slots::needs))]
pub(crate) fn needs(m: &Machine, variable: u32, act: &Act) -> bool
    requires { HasActIds m.now.terms act.now }
    ensures { result ≡ slots.needs m.now.fields variable (act_tree m.now.terms act.now) }
{
    match *act {
        Act::Require(form) => form_names(&m.terms, variable, form),
        Act::Update(field, term) => {
            is_variable(strategy_at(m.fields.as_slice(), field))
                && term_names(&m.terms, variable, term)
        }
        Act::HaveVariable(field) => variable == field,
        Act::Add(_, place)
        | Act::Remove(_, place)
        | Act::Have(_, place)
        | Act::Deposit(_, place)
        | Act::Withdraw(_, place)
        | Act::Guard(_, place) => place_names(&m.terms, variable, place),
        Act::Init(..) | Act::Assert(_) => false,
    }
}
