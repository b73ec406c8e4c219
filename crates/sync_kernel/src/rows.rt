//! Formulas as lines.
ghost use Rattle.std.specs.Prelude.{◌≡◌, Err, Some, IfOk, OnOk, IfSome, option_map};
ghost use Rattle.sync_terms.specs.Stored.{Stored, IsTerm, IsShared, HasParts, form_shape};
ghost use Rattle.sync_linear.specs.declared.stops.LinearStop.TheVariants.{Width};
ghost use Rattle.sync_linear.specs.Forms.{Narrow};
ghost use Rattle.sync_linear.specs.Stores.{IsLineOf};
ghost use Rattle.sync_kernel_facts.specs.Literals.{literal_form, IsLiteral};
ghost use Rattle.sync_kernel.specs.Rows.{row_of, row_of_not};
ghost use Rattle.sync_kernel.specs.Shapes.{shaped, row_shaped};

use std::alloc::Global;
use sync_kernel_facts::Literal;
use sync_linear::{Change, Linear, LinearStop};
use sync_terms::{FormNode, TermId, Terms};

/// What a line says of its value.
#[derive(Clone, Copy, PartialEq, Eq, Debug)]
pub enum Kind {
    AtMostZero,
    Zero,
    NotZero,
}

/// A line that was added, with its number.
#[derive(Clone, Copy, Debug)]
pub struct Used {
    pub times: i128,
    pub kind: Kind,
}

/// A line before it is computed: `left - right`, and 1 more where it is strict.
#[derive(Clone, Copy, Debug)]
pub(crate) struct Shape {
    pub kind: Kind,
    pub left: TermId,
    pub right: TermId,
    pub strict: bool,
}

impl Shape {
    /// The line of this shape; `Width` exactly where a step of it leaves signed 128 bits.
    pub(crate) fn line(self, alloc: Global, terms: &Terms) -> Result<Linear, LinearStop>
        requires left { IsTerm terms.now self.left }
        requires right { IsTerm terms.now self.right }
        ensures line { IfOk result (λ line. IsLineOf terms.now (row_shaped terms.now self).line line) }
        ensures narrow { OnOk result (Narrow (row_shaped terms.now self).line) }
        ensures width { result ≡ Err Width → Narrow (row_shaped terms.now self).line → ⊥ }
    {
        let left = Linear::of_term(alloc, terms, self.left)?;
        let right = Linear::of_term(alloc, terms, self.right)?;
        let line = left.changed(Change::Minus, &right)?;
        if self.strict {
            line.changed(Change::Plus, &Linear::number(alloc, 1))
        } else {
            Ok(line)
        }
    }
}

fn shape_with(kind: Kind, left: TermId, right: TermId, strict: bool) -> Option<Shape>
    ensures { result ≡ Some (record { kind = kind; left = left; right = right; strict = strict }) }
{
    Some(Shape {
        kind,
        left,
        right,
        strict,
    })
}

/// The line of the negation of a formula with this node.
#[tactic(auto, unfolding(sync_terms::specs::Stored::form_shape, sync_terms::specs::Stored::tree))]
fn shape_of_not(terms: &Terms, node: FormNode) -> Option<Shape>
    requires { HasParts terms.now node }
    ensures row { option_map (row_shaped terms.now) result ≡ row_of_not (form_shape terms.now node) }
    ensures stored { IfSome result (shaped terms.now) }
{
    match node {
        FormNode::Le(a, b) => shape_with(Kind::AtMostZero, b, a, true),
        FormNode::Lt(a, b) => shape_with(Kind::AtMostZero, b, a, false),
        FormNode::Eq(a, b) => shape_with(Kind::NotZero, a, b, false),
        FormNode::Not(_) | FormNode::And(_, _) | FormNode::Or(_, _) | FormNode::Imp(_, _) => None,
    }
}

/// The line of a formula with this node.
#[tactic(auto, unfolding(sync_terms::specs::Stored::form_shape, sync_terms::specs::Stored::tree, sync_terms::specs::Stored::formula))]
fn shape_of_node(terms: &Terms, node: FormNode) -> Option<Shape>
    requires { HasParts terms.now node }
    ensures row { option_map (row_shaped terms.now) result ≡ row_of (form_shape terms.now node) }
    ensures stored { IfSome result (shaped terms.now) }
{
    match node {
        FormNode::Le(a, b) => shape_with(Kind::AtMostZero, a, b, false),
        FormNode::Lt(a, b) => shape_with(Kind::AtMostZero, a, b, true),
        FormNode::Eq(a, b) => shape_with(Kind::Zero, a, b, false),
        FormNode::Not(inner) => shape_of_not(terms, terms.form(inner)),
        FormNode::And(_, _) | FormNode::Or(_, _) | FormNode::Imp(_, _) => None,
    }
}

/// The line of what a literal says.
pub(crate) fn shape_of(terms: &Terms, says: Literal) -> Option<Shape>
    requires { IsLiteral terms.now says }
    ensures row { option_map (row_shaped terms.now) result ≡ row_of (literal_form terms.now says) }
    ensures stored { IfSome result (shaped terms.now) }
    ensures shared { IsShared terms.now }
{
    let node = terms.form(says.form);
    if says.negated {
        shape_of_not(terms, node)
    } else {
        shape_of_node(terms, node)
    }
}
