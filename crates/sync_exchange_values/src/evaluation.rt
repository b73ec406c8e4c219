//! The walk over stored terms.
ghost use Rattle.std.specs.Prelude.{◌<◌, length};
ghost use Rattle.sync_terms.specs.Stored.{tree, formula, IsTerm, IsForm};
ghost use Rattle.sync_exchange_values.specs.Evaluations.{EvaluatesNumber, EvaluatesMap, EvaluatesTruth, EvaluatesAnswer};

use crate::changes::{bumped, copied, put, removed};
use crate::meanings::Meanings;
use crate::operators::{Connective, Operator, Relation, negated};
use crate::questions::Question;
use crate::stops::EvalStop;
use std::alloc::Global;
use sync_entries::Entries;
use sync_terms::{FormId, FormNode, Node, TermId, Terms};

/// A store, and what its symbols stand for.
#[derive(Drop)]
pub(crate) struct Evaluation<'a, M> {
    pub alloc: Global,
    pub terms: &'a Terms,
    pub names: &'a M,
}

impl<'a, M: Meanings> Evaluation<'a, M> {
    /// A term where a number is wanted.
    #[cycle(terms)]
    pub(crate) fn number(&self, t: TermId) -> Result<i128, EvalStop>
        requires { IsTerm self.now.terms.now t }
        ensures { EvaluatesNumber result (M.meaning self.now.names.now) (tree self.now.terms.now t) }
    {
        match self.terms.term(t) {
            Node::Lit(n) => Ok(n),
            Node::Name(x) => Ok(self.names.number(x)),
            Node::Add(a, b) => Operator::Plus.apply(self.number(a), self.number(b)),
            Node::Sub(a, b) => Operator::Minus.apply(self.number(a), self.number(b)),
            Node::Scale(times, a) => Operator::Times.apply(Ok(times), self.number(a)),
            Node::Get(m, k) => match self.number(k) {
                Ok(key) => self.ask(m, Question::Get(key)),
                Err(stop) => Err(stop),
            },
            Node::Has(m, k) => match self.number(k) {
                Ok(key) => self.ask(m, Question::Has(key)),
                Err(stop) => Err(stop),
            },
            Node::Size(m) => self.ask(m, Question::Size),
            Node::Sum(m) => self.ask(m, Question::Sum),
            Node::Nil | Node::Put(_, _, _) | Node::Del(_, _) | Node::Bump(_, _, _) => Ok(0),
        }
    }

    /// The answer of a term where a map is wanted. A named map that is at hand is not copied.
    #[cycle(terms)]
    fn ask(&self, m: TermId, question: Question) -> Result<i128, EvalStop>
        requires { IsTerm self.now.terms.now m }
        ensures { EvaluatesAnswer result (M.meaning self.now.names.now) question (tree self.now.terms.now m) }
    {
        match self.terms.term(m) {
            Node::Name(x) => match self.names.map(x) {
                Some(map) => question.of(map),
                None => match self.names.made(self.alloc, x) {
                    Ok(map) => question.of(&map),
                    Err(_) => Err(EvalStop::Memory),
                },
            },
            _ => match self.map(m) {
                Ok(map) => question.of(&map),
                Err(stop) => Err(stop),
            },
        }
    }

    /// A term where a map is wanted.
    #[cycle(terms)]
    pub(crate) fn map(&self, t: TermId) -> Result<Entries, EvalStop>
        requires { IsTerm self.now.terms.now t }
        ensures { EvaluatesMap result (M.meaning self.now.names.now) (tree self.now.terms.now t) }
    {
        match self.terms.term(t) {
            Node::Name(x) => match self.names.map(x) {
                Some(map) => copied(map),
                None => match self.names.made(self.alloc, x) {
                    Ok(map) => copied(&map),
                    Err(_) => Err(EvalStop::Memory),
                },
            },
            Node::Put(m, k, w) => put(self.map(m), self.number(k), self.number(w)),
            Node::Del(m, k) => removed(self.map(m), self.number(k)),
            Node::Bump(m, k, n) => bumped(self.map(m), self.number(k), self.number(n)),
            Node::Nil
            | Node::Lit(_)
            | Node::Add(_, _)
            | Node::Sub(_, _)
            | Node::Scale(_, _)
            | Node::Get(_, _)
            | Node::Has(_, _)
            | Node::Size(_)
            | Node::Sum(_) => Ok(Entries::new(self.alloc)),
        }
    }

    /// A formula, with all of its terms.
    pub(crate) fn truth(&self, f: FormId) -> Result<bool, EvalStop>
        requires { IsForm self.now.terms.now f }
        ensures { EvaluatesTruth result (M.meaning self.now.names.now) (formula self.now.terms.now f) }
    {
        match self.terms.form(f) {
            FormNode::Le(a, b) => Relation::Le.apply(self.number(a), self.number(b)),
            FormNode::Lt(a, b) => Relation::Lt.apply(self.number(a), self.number(b)),
            FormNode::Eq(a, b) => Relation::Eq.apply(self.number(a), self.number(b)),
            FormNode::Not(g) => negated(self.truth(g)),
            FormNode::And(g, h) => Connective::And.apply(self.truth(g), self.truth(h)),
            FormNode::Or(g, h) => Connective::Or.apply(self.truth(g), self.truth(h)),
            FormNode::Imp(g, h) => Connective::Imp.apply(self.truth(g), self.truth(h)),
        }
    }
}
