//! Substitution: terms in the places of symbols.
ghost use Rattle.std.specs.Prelude.{◌≡◌, ◌<◌, ◌≤◌, All, IfOk, OnOk, IfNone, IfSome, OnErr, IsOk, IsTrue, IsSome, None, Some, Err, true, false};
ghost use Rattle.sync_terms.specs.Trees.{most_nodes};
ghost use Rattle.sync_terms.specs.Replacing.{symbol_at, term_at, form_at, new_term, new_form, renamed, renamed_form, is_replaced, new_size, under_way, IsChild, IsPartOf, IsPart, InRange, IsDone, IsStart, Steps};
ghost use Rattle.sync_terms.specs.Stored.{tree, formula, shape, form_shape, IsTerm, IsForm, EachChild, EachPart, HasChildren, HasParts, Extends};
ghost use Rattle.sync_terms.specs.Substitution.{substitution};
ghost use Rattle.sync_terms.specs.Trees.{formula_size, replaced, replaced_in};

use crate::nodes::{FormId, FormNode, Node, Sym, TermId};
use crate::store::{TermStop, Terms};
use std::alloc::{AllocError, Global};
use std::collections::HashMap;

/// A term or a formula that is to be replaced.
#[derive(Clone, Copy)]
enum Part {
    Term(TermId),
    Form(FormId),
}

/// What a substitution has replaced so far.
#[derive(Drop)]
struct Replaced {
    symbols: HashMap<Sym, TermId>,
    terms: HashMap<TermId, TermId>,
    forms: HashMap<FormId, FormId>,
}

impl Replaced {
    /// What a term has become, or the term where it is not replaced yet.
    fn new_term(&self, id: TermId) -> TermId
        ensures { result ≡ new_term self.now id }
    {
        self.terms.get(&id).copied().unwrap_or(id)
    }

    /// What a formula has become, or the formula where it is not replaced yet.
    fn new_form(&self, id: FormId) -> FormId
        ensures { result ≡ new_form self.now id }
    {
        self.forms.get(&id).copied().unwrap_or(id)
    }

    /// The term, where it is not replaced yet.
    fn missing_term(&self, id: TermId) -> Option<Part>
        ensures none { IfNone result (IsSome (term_at self.now id)) }
        ensures some { IfSome result (λ p. p ≡ Part.Term id) }
        ensures range { IfSome result InRange }
        ensures missing { IfSome result (λ p. is_replaced self.now p ≡ false) }
    {
        if self.terms.contains_key(&id) {
            None
        } else {
            Some(Part::Term(id))
        }
    }

    /// The formula, where it is not replaced yet.
    fn missing_form(&self, id: FormId) -> Option<Part>
        ensures none { IfNone result (IsSome (form_at self.now id)) }
        ensures some { IfSome result (λ p. p ≡ Part.Form id) }
        ensures range { IfSome result InRange }
        ensures missing { IfSome result (λ p. is_replaced self.now p ≡ false) }
    {
        if self.forms.contains_key(&id) {
            None
        } else {
            Some(Part::Form(id))
        }
    }

    /// The first child of a node that is not replaced yet.
    fn wanted(&self, node: Node) -> Option<Part>
        ensures none { IfNone result (EachChild (λ c. IsSome (term_at self.now c)) node) }
        ensures child { IfSome result (λ p. IsChild p node) }
        ensures range { IfSome result InRange }
        ensures missing { IfSome result (λ p. is_replaced self.now p ≡ false) }
    {
        match node {
            Node::Lit(_) | Node::Name(_) | Node::Nil => None,
            Node::Scale(_, a) | Node::Size(a) | Node::Sum(a) => self.missing_term(a),
            Node::Add(a, b)
            | Node::Sub(a, b)
            | Node::Get(a, b)
            | Node::Has(a, b)
            | Node::Del(a, b) => self.missing_term(a).or(self.missing_term(b)),
            Node::Put(a, b, c) | Node::Bump(a, b, c) => {
                self.missing_term(a)
                    .or(self.missing_term(b))
                    .or(self.missing_term(c))
            }
        }
    }

    /// The first part of a formula's node that is not replaced yet.
    fn wanted_part(&self, node: FormNode) -> Option<Part>
        ensures none { IfNone result (EachPart (λ a. IsSome (term_at self.now a)) (λ f. IsSome (form_at self.now f)) node) }
        ensures child { IfSome result (λ p. IsPartOf p node) }
        ensures range { IfSome result InRange }
        ensures missing { IfSome result (λ p. is_replaced self.now p ≡ false) }
    {
        match node {
            FormNode::Le(a, b) | FormNode::Lt(a, b) | FormNode::Eq(a, b) => {
                self.missing_term(a).or(self.missing_term(b))
            }
            FormNode::Not(f) => self.missing_form(f),
            FormNode::And(f, g) | FormNode::Or(f, g) | FormNode::Imp(f, g) => {
                self.missing_form(f).or(self.missing_form(g))
            }
        }
    }

    /// The node with what its children have become.
    fn renamed(&self, node: Node) -> Node
        ensures { result ≡ renamed (new_term self.now) node }
    {
        match node {
            Node::Lit(_) | Node::Name(_) | Node::Nil => node,
            Node::Add(a, b) => Node::Add(self.new_term(a), self.new_term(b)),
            Node::Sub(a, b) => Node::Sub(self.new_term(a), self.new_term(b)),
            Node::Scale(n, a) => Node::Scale(n, self.new_term(a)),
            Node::Get(m, k) => Node::Get(self.new_term(m), self.new_term(k)),
            Node::Has(m, k) => Node::Has(self.new_term(m), self.new_term(k)),
            Node::Size(m) => Node::Size(self.new_term(m)),
            Node::Sum(m) => Node::Sum(self.new_term(m)),
            Node::Put(m, k, v) => {
                Node::Put(self.new_term(m), self.new_term(k), self.new_term(v))
            }
            Node::Del(m, k) => Node::Del(self.new_term(m), self.new_term(k)),
            Node::Bump(m, k, n) => {
                Node::Bump(self.new_term(m), self.new_term(k), self.new_term(n))
            }
        }
    }

    /// The formula's node with what its parts have become.
    fn renamed_form(&self, node: FormNode) -> FormNode
        ensures { result ≡ renamed_form (new_term self.now) (new_form self.now) node }
    {
        match node {
            FormNode::Le(a, b) => FormNode::Le(self.new_term(a), self.new_term(b)),
            FormNode::Lt(a, b) => FormNode::Lt(self.new_term(a), self.new_term(b)),
            FormNode::Eq(a, b) => FormNode::Eq(self.new_term(a), self.new_term(b)),
            FormNode::Not(f) => FormNode::Not(self.new_form(f)),
            FormNode::And(f, g) => FormNode::And(self.new_form(f), self.new_form(g)),
            FormNode::Or(f, g) => FormNode::Or(self.new_form(f), self.new_form(g)),
            FormNode::Imp(f, g) => FormNode::Imp(self.new_form(f), self.new_form(g)),
        }
    }
}

/// The terms of a map's symbols, the first where a symbol stands twice. Nothing is replaced yet.
fn start(alloc: Global, map: &[(Sym, TermId)]) -> Result<Replaced, AllocError>
    ensures { IfOk result (IsStart map.now) }
{
    let mut symbols = HashMap::new(alloc);
    for i in (0..map.len()).rev() {
        symbols.insert(map[i].0, map[i].1)?;
    }
    Ok(Replaced {
        symbols,
        terms: HashMap::new(alloc),
        forms: HashMap::new(alloc),
    })
}

impl Terms {
    /// The formula with each symbol of the map replaced at once by the symbol's term, the first where a symbol
    /// stands twice.
    ///
    /// `TooLarge` is for a formula of more than `MOST_NODES` nodes. After `Memory` the store may have gained nodes.
    pub fn subst(&mut self, form: FormId, map: &[(Sym, TermId)]) -> Result<FormId, TermStop>
        requires form { IsForm self.old form }
        requires terms { All (λ p. IsTerm self.old p.1) map.now }
        ensures value { IfOk result (λ id. IsForm self.new id × (formula self.new id ≡ replaced_in (substitution self.old map.now) (formula self.old form))) }
        ensures fits { IsOk result → formula_size (replaced_in (substitution self.old map.now) (formula self.old form)) ≤ most_nodes }
        ensures too_large { result ≡ Err TermStop.TooLarge → most_nodes < formula_size (replaced_in (substitution self.old map.now) (formula self.old form)) }
        ensures keeps { Extends self.old self.new }
    {
        let Ok(mut done) = start(self.allocator(), map) else {
            return Err(TermStop::Memory);
        };
        self.replace(&mut done, form)
    }

    /// Replaces a formula, and before it all that it is made of, from below.
    fn replace(&mut self, done: &mut Replaced, form: FormId) -> Result<FormId, TermStop>
        requires form { IsForm self.old form }
        requires done { IsDone self.old done.old }
        requires missing { is_replaced done.old (Part.Form form) ≡ false }
        ensures value { IfOk result (λ id. IsForm self.new id × (formula self.new id ≡ replaced_in (under_way self.old done.old) (formula self.old form))) }
        ensures fits { IsOk result → formula_size (replaced_in (under_way self.old done.old) (formula self.old form)) ≤ most_nodes }
        ensures too_large { result ≡ Err TermStop.TooLarge → most_nodes < formula_size (replaced_in (under_way self.old done.old) (formula self.old form)) }
        ensures keeps { Extends self.old self.new }
    {
        let mut above = Vec::new(self.allocator());
        let mut part = Part::Form(form);
        loop {
            let first = match self.step(done, part) {
                Ok(first) => first,
                Err(stop) => return Err(stop),
            };
            if let Some(child) = first {
                if let Err(_) = above.push(part) {
                    return Err(TermStop::Memory);
                }
                part = child;
            } else if let Some(parent) = above.pop() {
                part = parent;
            } else {
                return Ok(done.new_form(form));
            }
        }
    }

    /// The node whose tree is that of this node with its symbols replaced, once its children are.
    fn replaced_node(&self, done: &Replaced, node: Node) -> Node
        requires done { IsDone self.now done.now }
        requires children { HasChildren self.now node }
        requires present { EachChild (λ c. IsSome (term_at done.now c)) node }
        ensures children { HasChildren self.now result }
        ensures shape { shape self.now result ≡ replaced (under_way self.now done.now) (shape self.now node) }
    {
        match node {
            Node::Name(symbol) => match done.symbols.get(&symbol) {
                Some(&term) => self.term(term),
                None => node,
            },
            _ => done.renamed(node),
        }
    }

    /// Replaces a term, or answers a child that has to be replaced before.
    fn step_term(&mut self, done: &mut Replaced, id: TermId) -> Result<Option<Part>, TermStop>
        requires term { IsTerm self.old id }
        requires done { IsDone self.old done.old }
        ensures keeps { Extends self.old self.new }
        ensures step { IfOk result (λ first. Steps self.old done.old (Part.Term id) self.new done.new first) }
        ensures too_large { result ≡ Err TermStop.TooLarge → most_nodes < new_size (under_way self.old done.old) self.old (Part.Term id) }
    {
        let node = self.term(id);
        if let Some(first) = done.wanted(node) {
            return Ok(Some(first));
        }
        let node = self.replaced_node(done, node);
        let new = match self.add_term(node) {
            Ok(new) => new,
            Err(stop) => return Err(stop),
        };
        if let Err(_) = done.terms.insert(id, new) {
            return Err(TermStop::Memory);
        }
        Ok(None)
    }

    /// Replaces a formula, or answers a part that has to be replaced before.
    fn step_form(&mut self, done: &mut Replaced, id: FormId) -> Result<Option<Part>, TermStop>
        requires form { IsForm self.old id }
        requires done { IsDone self.old done.old }
        ensures keeps { Extends self.old self.new }
        ensures step { IfOk result (λ first. Steps self.old done.old (Part.Form id) self.new done.new first) }
        ensures too_large { result ≡ Err TermStop.TooLarge → most_nodes < new_size (under_way self.old done.old) self.old (Part.Form id) }
    {
        let node = self.form(id);
        if let Some(first) = done.wanted_part(node) {
            return Ok(Some(first));
        }
        let new = match self.add_form(done.renamed_form(node)) {
            Ok(new) => new,
            Err(stop) => return Err(stop),
        };
        if let Err(_) = done.forms.insert(id, new) {
            return Err(TermStop::Memory);
        }
        Ok(None)
    }

    /// Replaces a part, or answers one of its own that has to be replaced before.
    fn step(&mut self, done: &mut Replaced, part: Part) -> Result<Option<Part>, TermStop>
        requires part { IsPart self.old part }
        requires done { IsDone self.old done.old }
        ensures keeps { Extends self.old self.new }
        ensures step { IfOk result (λ first. Steps self.old done.old part self.new done.new first) }
        ensures too_large { result ≡ Err TermStop.TooLarge → most_nodes < new_size (under_way self.old done.old) self.old part }
    {
        match part {
            Part::Term(id) => self.step_term(done, id),
            Part::Form(id) => self.step_form(done, id),
        }
    }
}
