//! What a place of a machine may name, and whether terms and formulas keep to it.
ghost use Rattle.std.specs.Prelude.{◌≡◌, ℕ, List, ◌++◌, ◌||◌, length, Option, Some, None, nat_le, nat_eq};
ghost use Rattle.std.specs.Option.{option_map};
ghost use Rattle.std.specs.List.{list_any};
ghost use Rattle.sync_base.specs.declared.stops.Rule.TheVariants.{N1, N2};
ghost use Rattle.sync_terms.specs.Stored.{Stored, tree, formula, IsTerm, IsForm};
ghost use Rattle.sync_machine.specs.Views.{symbols_of, steps_tree, act_tree, key_tree, pattern_tree, place_tree, HasKeyId, HasPatternId, HasPlaceIds, HasActIds};
ghost use Rattle.sync_machine.specs.States.{sort_of, strategy_at};
ghost use Rattle.sync_machine.specs.Scope.{knows};
ghost use Rattle.sync_machine.specs.Naming.{Tells, broken, is_map_sort, bound_by, bound_names, is_in, is_fields, repeated, unknown_field, begins_unknown, number_fault, map_fault, formula_fault, value_fault, key_fault, pattern_fault, on_place, on_value, act_fault};
ghost use Rattle.sync_machine.specs.Scoped.{names_in, known_in, is_the};

use crate::fields::Field;
use crate::machine::{Act, Pattern, Place, Step};
use sync_base::{Rule, Strategy};
use sync_terms::{FormId, FormNode, Node, Sym, TermId, Terms};

/// Whether the values of a strategy are maps.
#[tactic(auto, unfolding(crate::specs::States::sort_of))]
pub(crate) fn holds_map(strategy: Strategy) -> bool
    ensures { result ≡ is_map_sort (sort_of strategy) }
{
    match strategy {
        Strategy::Variable
        | Strategy::Constant
        | Strategy::NotTokenized
        | Strategy::Count
        | Strategy::PersistentCount => false,
        Strategy::Option
        | Strategy::Map
        | Strategy::Set
        | Strategy::Multiset
        | Strategy::PersistentOption
        | Strategy::PersistentMap
        | Strategy::PersistentSet
        | Strategy::StorageMap => true,
    }
}

/// Whether a field has the name of this symbol.
pub(crate) fn is_fields_name(fields: &[Field], x: Sym) -> bool
    ensures { result ≡ is_fields fields.now x.0 }
{
    fields
        .iter()
        .any(|f| u64::from(x.0) == 64 + 4 * u64::from(f.name))
}

/// Whether a symbol stands in a list.
pub(crate) fn is_listed(names: &[Sym], x: Sym) -> bool
    ensures { result ≡ list_any (λ y. nat_eq x.0 y.0) names.now }
{
    names.iter().any(|y| x.0 == y.0)
}

/// What a place of a machine may name: the fields, and the parameters and earlier statements of its operation.
#[derive(Drop)]
pub(crate) struct Scope<'a> {
    pub terms: &'a Terms,
    pub fields: &'a [Field],
    pub params: &'a [Sym],
    pub earlier: &'a [Step],
}

impl Scope<'_> {
    /// Whether a statement binds this name.
    #[tactic(auto, unfolding(crate::specs::Naming::bound_by))]
    fn binds(&self, act: Act, x: Sym) -> bool
        ensures { result ≡ is_the x.0 (bound_by (act_tree self.now.terms.now act)) }
    {
        match act {
            Act::Add(_, place)
            | Act::Remove(_, place)
            | Act::Have(_, place)
            | Act::Deposit(_, place)
            | Act::Withdraw(_, place)
            | Act::Guard(_, place) => match place.value {
                Some(Pattern::Bind(y)) => x.0 == y.0,
                Some(Pattern::Term(_)) | None => false,
            },
            Act::Init(_, _)
            | Act::Require(_)
            | Act::Assert(_)
            | Act::Update(_, _)
            | Act::HaveVariable(_) => false,
        }
    }

    /// Whether an earlier statement binds this name.
    fn is_bound(&self, x: Sym) -> bool
        ensures { result ≡ list_any (λ s. is_the x.0 (bound_by (act_tree self.now.terms.now s.act))) self.now.earlier.now }
    {
        self.earlier.iter().any(|step| self.binds(step.act, x))
    }

    /// Whether a parameter or an earlier statement gives this name.
    #[tactic(auto, using(crate::proofs::Names::given_any))]
    fn is_given(&self, x: Sym) -> bool
        ensures { result ≡ is_in x.0 (names_in self.now) }
    {
        is_listed(self.params, x) || self.is_bound(x)
    }

    /// Whether a known symbol stands for a map.
    fn is_map(&self, x: Sym) -> Option<bool>
        ensures { result ≡ option_map is_map_sort (knows self.now.fields.now (names_in self.now) x.0) }
    {
        if let Some(field) = self.fields.get(x.0 as usize) {
            return Some(holds_map(field.strategy));
        }
        if self.is_given(x) { Some(false) } else { None }
    }

    /// Whether the first lexeme of a term is an unknown name.
    #[tactic(auto, unfolding(sync_terms::specs::Stored::shape, sync_terms::specs::Stored::tree, crate::specs::Naming::begins_unknown))]
    fn begins_unknown(&self, t: TermId) -> bool
        requires { IsTerm self.now.terms.now t }
        ensures { result ≡ begins_unknown (known_in self.now) (tree self.now.terms.now t) }
    {
        match self.terms.term(t) {
            Node::Name(x) => self.is_map(x).is_none(),
            Node::Add(a, _) | Node::Sub(a, _) => self.begins_unknown(a),
            Node::Lit(_)
            | Node::Scale(_, _)
            | Node::Get(_, _)
            | Node::Has(_, _)
            | Node::Size(_)
            | Node::Sum(_)
            | Node::Nil
            | Node::Put(_, _, _)
            | Node::Del(_, _)
            | Node::Bump(_, _, _) => false,
        }
    }

    /// A term where a number is wanted.
    #[cycle(sorts)]
    #[tactic(auto, unfolding(sync_terms::specs::Stored::shape, sync_terms::specs::Stored::tree, crate::specs::Naming::number_fault))]
    fn number(&self, t: TermId) -> Result<(), Rule>
        requires { IsTerm self.now.terms.now t }
        ensures { Tells result (number_fault (known_in self.now) (tree self.now.terms.now t)) }
    {
        match self.terms.term(t) {
            Node::Lit(_) => Ok(()),
            Node::Name(x) => match self.is_map(x) {
                None => Err(Rule::N1),
                Some(false) => Ok(()),
                Some(true) => Err(Rule::N6),
            },
            Node::Add(a, b) | Node::Sub(a, b) => {
                self.number(a)?;
                self.number(b)
            }
            Node::Scale(_, a) => self.number(a),
            Node::Get(m, k) | Node::Has(m, k) => {
                self.map(m)?;
                self.number(k)
            }
            Node::Size(m) | Node::Sum(m) => self.map(m),
            Node::Nil | Node::Put(_, _, _) | Node::Del(_, _) | Node::Bump(_, _, _) => Err(Rule::N6),
        }
    }

    /// A term where a map is wanted.
    #[cycle(sorts)]
    #[tactic(auto, unfolding(sync_terms::specs::Stored::shape, sync_terms::specs::Stored::tree, crate::specs::Naming::number_fault))]
    fn map(&self, t: TermId) -> Result<(), Rule>
        requires { IsTerm self.now.terms.now t }
        ensures { Tells result (map_fault (known_in self.now) (tree self.now.terms.now t)) }
    {
        match self.terms.term(t) {
            Node::Nil => Ok(()),
            Node::Name(x) => match self.is_map(x) {
                None => Err(Rule::N1),
                Some(false) => Err(Rule::N6),
                Some(true) => Ok(()),
            },
            Node::Put(m, k, v) | Node::Bump(m, k, v) => {
                self.map(m)?;
                self.number(k)?;
                self.number(v)
            }
            Node::Del(m, k) => {
                self.map(m)?;
                self.number(k)
            }
            Node::Add(a, _) | Node::Sub(a, _) => {
                if self.begins_unknown(a) {
                    Err(Rule::N1)
                } else {
                    Err(Rule::N6)
                }
            }
            Node::Lit(_)
            | Node::Scale(_, _)
            | Node::Get(_, _)
            | Node::Has(_, _)
            | Node::Size(_)
            | Node::Sum(_) => Err(Rule::N6),
        }
    }

    /// A formula, which compares numbers.
    #[tactic(auto, unfolding(sync_terms::specs::Stored::form_shape, sync_terms::specs::Stored::tree, sync_terms::specs::Stored::formula, crate::specs::Naming::formula_fault))]
    pub(crate) fn formula(&self, f: FormId) -> Result<(), Rule>
        requires { IsForm self.now.terms.now f }
        ensures { Tells result (formula_fault (known_in self.now) (formula self.now.terms.now f)) }
    {
        match self.terms.form(f) {
            FormNode::Le(a, b) | FormNode::Lt(a, b) | FormNode::Eq(a, b) => {
                self.number(a)?;
                self.number(b)
            }
            FormNode::Not(g) => self.formula(g),
            FormNode::And(g, h) | FormNode::Or(g, h) | FormNode::Imp(g, h) => {
                self.formula(g)?;
                self.formula(h)
            }
        }
    }

    /// A field's number.
    fn field(&self, field: u32) -> Result<(), Rule>
        ensures { Tells result (unknown_field self.now.fields.now field) }
    {
        if self.fields.len() <= field as usize {
            return Err(Rule::N1);
        }
        Ok(())
    }

    /// A new name, which is no field's and none that is known.
    pub(crate) fn new_name(&self, x: Sym) -> Result<(), Rule>
        ensures { Tells result (repeated self.now.fields.now (names_in self.now) x.0) }
    {
        if is_fields_name(self.fields, x) || self.is_given(x) {
            return Err(Rule::N2);
        }
        Ok(())
    }

    /// A key, where there is one.
    fn key(&self, key: Option<TermId>) -> Result<(), Rule>
        requires { HasKeyId self.now.terms.now key }
        ensures { Tells result (key_fault (known_in self.now) (key_tree self.now.terms.now key)) }
    {
        match key {
            None => Ok(()),
            Some(t) => self.number(t),
        }
    }

    /// A pattern, where there is one.
    fn pattern(&self, pattern: Option<Pattern>) -> Result<(), Rule>
        requires { HasPatternId self.now.terms.now pattern }
        ensures { Tells result (pattern_fault self.now.fields.now (names_in self.now) (pattern_tree self.now.terms.now pattern)) }
    {
        match pattern {
            None => Ok(()),
            Some(Pattern::Bind(x)) => self.new_name(x),
            Some(Pattern::Term(t)) => self.number(t),
        }
    }

    /// A field and a place of it.
    fn place(&self, field: u32, place: Place) -> Result<(), Rule>
        requires { HasPlaceIds self.now.terms.now place }
        ensures { Tells result (on_place self.now.fields.now (names_in self.now) field (place_tree self.now.terms.now place)) }
    {
        self.field(field)?;
        self.key(place.key)?;
        self.pattern(place.value)
    }

    /// A field and a value for it.
    fn value(&self, field: u32, t: TermId) -> Result<(), Rule>
        requires { IsTerm self.now.terms.now t }
        ensures { Tells result (on_value self.now.fields.now (names_in self.now) field (tree self.now.terms.now t)) }
    {
        self.field(field)?;
        if holds_map(self.fields[field as usize].strategy) {
            self.map(t)
        } else {
            self.number(t)
        }
    }

    /// What a statement does.
    #[tactic(auto, unfolding(crate::specs::Naming::act_fault))]
    pub(crate) fn act(&self, act: Act) -> Result<(), Rule>
        requires { HasActIds self.now.terms.now act }
        ensures { Tells result (act_fault self.now.fields.now (names_in self.now) (act_tree self.now.terms.now act)) }
    {
        match act {
            Act::Init(field, t) | Act::Update(field, t) => self.value(field, t),
            Act::Require(f) | Act::Assert(f) => self.formula(f),
            Act::HaveVariable(field) => self.field(field),
            Act::Add(field, place)
            | Act::Remove(field, place)
            | Act::Have(field, place)
            | Act::Deposit(field, place)
            | Act::Withdraw(field, place)
            | Act::Guard(field, place) => self.place(field, place),
        }
    }
}
