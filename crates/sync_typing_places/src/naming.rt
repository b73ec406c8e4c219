//! Terms and formulas of a place: whether what they name is at hand, and what they stand for.
ghost use Rattle.std.specs.Prelude.{◌≡◌, ◌&&◌, map};
ghost use Rattle.std.specs.List.{list_all, All};
ghost use Rattle.sync_kernel.specs.Scripts.{then_of, IsStepOf};
ghost use Rattle.sync_rules.specs.Locality.{form_names_only, names_only};
ghost use Rattle.sync_terms.specs.Building.{BuildsForm, BuildsTerm};
ghost use Rattle.sync_terms.specs.Stored.{tree, formula, IsForm, IsTerm, Extends};
ghost use Rattle.sync_terms.specs.Plans.{plan_of, IsScriptOf, Plan};
ghost use Rattle.sync_thread.specs.Views.{scripts_tree};
ghost use Rattle.sync_typing.specs.Symbols.{plan_names_only, scripts_name_only};
ghost use Rattle.sync_typing.specs.Environments.{is_at_hand, read, read_form, Env};
ghost use Rattle.sync_typing_places.specs.Hands.{is_at_hand_in, Holds, IsHandOf};
ghost use Rattle.sync_typing_places.specs.Places.{AreScriptsOf};

use crate::hands::Hand;
use sync_terms::{
    Block, FormId, FormNode, Node, Script, ScriptStep, StepKind, Sym, TermId, TermStop, Terms,
};
use sync_typing_ledgers::Ledger;
use sync_typing_reading::{Saying, said};

/// Whether a symbol is at hand.
fn is_at_hand(names: &Ledger, symbol: Sym) -> bool
    ensures { result ≡ is_at_hand_in names.now symbol.0 }
{
    symbol.0 < 64 || !matches!(said(names, symbol), Saying::Nothing)
}

/// Whether all that a term names is at hand. Takes time in the size of its tree.
#[tactic(auto, unfolding(sync_terms::specs::Stored::shape, sync_terms::specs::Stored::tree, sync_rules::specs::Locality::names_only))]
fn term_at_hand(terms: &Terms, names: &Ledger, id: TermId) -> bool
    requires { IsTerm terms.now id }
    ensures { result ≡ names_only (is_at_hand_in names.now) (tree terms.now id) }
{
    match terms.term(id) {
        Node::Lit(_) | Node::Nil => true,
        Node::Name(symbol) => is_at_hand(names, symbol),
        Node::Scale(_, a) | Node::Size(a) | Node::Sum(a) => term_at_hand(terms, names, a),
        Node::Add(a, b) | Node::Sub(a, b) | Node::Get(a, b) | Node::Has(a, b) | Node::Del(a, b) => {
            term_at_hand(terms, names, a) && term_at_hand(terms, names, b)
        }
        Node::Put(a, b, c) | Node::Bump(a, b, c) => {
            term_at_hand(terms, names, a)
                && term_at_hand(terms, names, b)
                && term_at_hand(terms, names, c)
        }
    }
}

/// Whether all that a formula names is at hand. Takes time in the size of its tree.
#[tactic(auto, unfolding(sync_terms::specs::Stored::form_shape, sync_terms::specs::Stored::tree, sync_terms::specs::Stored::formula, sync_rules::specs::Locality::form_names_only))]
fn form_at_hand(terms: &Terms, names: &Ledger, id: FormId) -> bool
    requires { IsForm terms.now id }
    ensures { result ≡ form_names_only (is_at_hand_in names.now) (formula terms.now id) }
{
    match terms.form(id) {
        FormNode::Le(a, b) | FormNode::Lt(a, b) | FormNode::Eq(a, b) => {
            term_at_hand(terms, names, a) && term_at_hand(terms, names, b)
        }
        FormNode::Not(f) => form_at_hand(terms, names, f),
        FormNode::And(f, g) | FormNode::Or(f, g) | FormNode::Imp(f, g) => {
            form_at_hand(terms, names, f) && form_at_hand(terms, names, g)
        }
    }
}

/// Whether all that some terms name is at hand.
pub(crate) fn terms_at_hand(terms: &Terms, names: &Ledger, list: &[TermId]) -> bool
    requires { All (IsTerm terms.now) list.now }
    ensures { result ≡ list_all (names_only (is_at_hand_in names.now)) (map (tree terms.now) list.now) }
{
    for id in list {
        if !term_at_hand(terms, names, *id) {
            return false;
        }
    }
    true
}

/// Whether all that some formulas name is at hand.
pub(crate) fn forms_at_hand(terms: &Terms, names: &Ledger, list: &[FormId]) -> bool
    requires { All (IsForm terms.now) list.now }
    ensures { result ≡ list_all (form_names_only (is_at_hand_in names.now)) (map (formula terms.now) list.now) }
{
    for id in list {
        if !form_at_hand(terms, names, *id) {
            return false;
        }
    }
    true
}

/// Whether all that some scripts name is at hand.
pub(crate) fn scripts_at_hand(terms: &Terms, names: &Ledger, list: &[Script]) -> bool
    requires { AreScriptsOf terms.now list.now }
    ensures { result ≡ scripts_name_only (is_at_hand_in names.now) (scripts_tree terms.now list.now) }
{
    for script in list {
        if !block_at_hand(terms, names, &script.block) {
            return false;
        }
    }
    true
}

/// Whether all that a block of a script names is at hand.
#[cycle(blocks_at_hand)]
fn block_at_hand(terms: &Terms, names: &Ledger, block: &Block) -> bool
    requires script { IsScriptOf terms.now block.now }
    ensures { result ≡ plan_names_only (is_at_hand_in names.now) (plan_of terms.now block.now) }
{
    for step in block.steps.as_slice() {
        if !step_at_hand(terms, names, step) {
            return false;
        }
    }
    true
}

/// Whether all that a step of a script names is at hand, its blocks too.
#[cycle(blocks_at_hand)]
fn step_at_hand(terms: &Terms, names: &Ledger, step: &ScriptStep) -> bool
    requires step { IsStepOf terms.now step.now }
    ensures { (rest : Plan) → plan_names_only (is_at_hand_in names.now) (then_of terms.now step.now rest)
        ≡ (result && plan_names_only (is_at_hand_in names.now) rest) }
{
    match &step.what {
        StepKind::Same => true,
        StepKind::Sum(_) => true,
        StepKind::Parts(_, _, _) => true,
        StepKind::Inst(_, list, _) => terms_at_hand(terms, names, list.as_slice()),
        StepKind::Split(_, _, one, two) => {
            block_at_hand(terms, names, one) && block_at_hand(terms, names, two)
        }
        StepKind::Cut(form, _, block) => {
            form_at_hand(terms, names, *form) && block_at_hand(terms, names, block)
        }
        StepKind::Read(a, b, _) => terms_at_hand(terms, names, &[*a, *b]),
        StepKind::Size(a, b, _) => terms_at_hand(terms, names, &[*a, *b]),
        StepKind::Total(a, b, _) => terms_at_hand(terms, names, &[*a, *b]),
        StepKind::Cong(a, b, c, _) => terms_at_hand(terms, names, &[*a, *b, *c]),
    }
}

/// What terms, formulas and scripts name together.
#[derive(Clone, Copy)]
pub(crate) struct Named<'a> {
    pub list: &'a [TermId],
    pub forms: &'a [FormId],
    pub scripts: &'a [Script],
}

/// Whether all that terms, formulas and scripts name is at hand.
pub(crate) fn all_at_hand(terms: &Terms, names: &Ledger, named: &Named) -> bool
    requires list { All (IsTerm terms.now) named.now.list.now }
    requires forms { All (IsForm terms.now) named.now.forms.now }
    requires scripts { AreScriptsOf terms.now named.now.scripts.now }
    ensures { result ≡ (list_all (names_only (is_at_hand_in names.now)) (map (tree terms.now) named.now.list.now)
        && (list_all (form_names_only (is_at_hand_in names.now)) (map (formula terms.now) named.now.forms.now)
        && scripts_name_only (is_at_hand_in names.now) (scripts_tree terms.now named.now.scripts.now))) }
{
    terms_at_hand(terms, names, named.list)
        && forms_at_hand(terms, names, named.forms)
        && scripts_at_hand(terms, names, named.scripts)
}

impl Hand {
    /// Whether the names and tokens that a term names are at hand. Takes time in the size of its tree.
    pub fn has_names(&self, terms: &Terms, id: TermId) -> bool
        requires { IsTerm terms.now id }
        ensures { (e : Env) → Holds terms.now self.now e.terms e.hand →
            result ≡ names_only (is_at_hand e) (tree terms.now id) }
    {
        term_at_hand(terms, &self.names, id)
    }

    /// Whether the names and tokens that a formula names are at hand. Takes time in the size of its tree.
    pub fn has_names_of(&self, terms: &Terms, id: FormId) -> bool
        requires { IsForm terms.now id }
        ensures { (e : Env) → Holds terms.now self.now e.terms e.hand →
            result ≡ form_names_only (is_at_hand e) (formula terms.now id) }
    {
        form_at_hand(terms, &self.names, id)
    }

    /// A term with what its symbols stand for here. Takes time in the size of its tree.
    ///
    /// `TooLarge` is for a term of more than `MOST_NODES` nodes. After `Memory` the store may have gained nodes.
    pub fn read_term(&self, terms: &mut Terms, id: TermId) -> Result<TermId, TermStop>
        requires term { IsTerm terms.old id }
        requires ids { IsHandOf terms.old self.now }
        ensures built { (e : Env) → Holds terms.old self.now e.terms e.hand →
            BuildsTerm terms.new (read e (tree terms.old id)) result }
        ensures keeps { Extends terms.old terms.new }
    {
        sync_typing_reading::read_term(terms, &self.names, id)
    }

    /// A formula with what its symbols stand for here. Takes time in the size of its tree.
    ///
    /// `TooLarge` is for a formula of more than `MOST_NODES` nodes. After `Memory` the store may have gained nodes.
    pub fn read_form(&self, terms: &mut Terms, id: FormId) -> Result<FormId, TermStop>
        requires form { IsForm terms.old id }
        requires ids { IsHandOf terms.old self.now }
        ensures built { (e : Env) → Holds terms.old self.now e.terms e.hand →
            BuildsForm terms.new (read_form e (formula terms.old id)) result }
        ensures keeps { Extends terms.old terms.new }
    {
        sync_typing_reading::read_form(terms, &self.names, id)
    }
}
