//! Formulas of a store and their negations.
ghost use Rattle.std.specs.Prelude.{◌≡◌, ◌≤◌, false};
ghost use Rattle.sync_terms.specs.Stored.{IsForm, IsShared, formula};
ghost use Rattle.sync_terms.specs.Trees.{neg, formula_size};
ghost use Rattle.sync_kernel_facts.specs.Literals.{IsEntry, denied_by};

use sync_terms::{FormId, FormNode, Terms};

/// A formula of a store, or `!` before one.
#[derive(Clone, Copy, PartialEq, Eq, Hash, Debug)]
pub struct Literal {
    pub form: FormId,
    pub negated: bool,
}

impl Literal {
    ghost use Rattle.sync_kernel_facts.specs.Literals.{literal_form, IsLiteral, IsBare};

    /// The formula as it is stored.
    pub fn plain(form: FormId) -> Literal
        ensures { result ≡ record { form = form; negated = false } }
    {
        Literal {
            form,
            negated: false,
        }
    }

    /// The negation of a formula: of `!F` it is F.
    pub fn denial(terms: &Terms, form: FormId) -> Literal
        requires { IsForm terms.now form }
        ensures form { literal_form terms.now result ≡ neg (formula terms.now form) }
        ensures stored { IsLiteral terms.now result }
    {
        match terms.form(form) {
            FormNode::Not(inner) => Literal::plain(inner),
            FormNode::Le(_, _)
            | FormNode::Lt(_, _)
            | FormNode::Eq(_, _)
            | FormNode::And(_, _)
            | FormNode::Or(_, _)
            | FormNode::Imp(_, _) => Literal {
                form,
                negated: true,
            },
        }
    }

    /// The same formula, so that a first `!` does not stand in what is stored.
    pub fn bare(self, terms: &Terms) -> Literal
        requires { IsLiteral terms.now self }
        ensures form { literal_form terms.now result ≡ literal_form terms.now self }
        ensures stored { IsLiteral terms.now result }
        ensures bare { IsBare terms.now result }
        ensures shared { IsShared terms.now }
    {
        let node = terms.form(self.form);
        if self.negated {
            return self;
        }
        match node {
            FormNode::Not(inner) => Literal {
                form: inner,
                negated: true,
            },
            FormNode::Le(_, _)
            | FormNode::Lt(_, _)
            | FormNode::Eq(_, _)
            | FormNode::And(_, _)
            | FormNode::Or(_, _)
            | FormNode::Imp(_, _) => self,
        }
    }

    /// What a bare literal denies: of `!F` it is F.
    pub fn denied(self, terms: &Terms) -> Option<Literal>
        requires stored { IsLiteral terms.now self }
        requires bare { IsBare terms.now self }
        ensures { IsEntry terms.now result (denied_by (literal_form terms.now self)) }
    {
        if self.negated {
            Some(Literal::plain(self.form).bare(terms))
        } else {
            None
        }
    }

    /// The number of nodes of the formula as a tree.
    #[tactic(auto, unfolding(sync_terms::specs::Trees::formula_size))]
    pub fn size(self, terms: &Terms) -> u64
        requires { IsLiteral terms.now self }
        ensures size { result ≡ formula_size (literal_form terms.now self) }
        ensures bound { result ≤ 1000001 }
    {
        let size = terms.size_of(self.form);
        if self.negated { size + 1 } else { size }
    }
}
