//! What `parts` and `split` take a formula apart into.
ghost use Rattle.std.specs.Prelude.{◌≡◌, ◌<◌, IfOk, IfSome, Err, option_map};
ghost use Rattle.sync_terms.specs.declared.store.TermStop.TheVariants.{TooLarge};
ghost use Rattle.sync_terms.specs.Stored.{Extends, IsTerm, IsForm, HasParts, form_shape, tree};
ghost use Rattle.sync_terms.specs.Trees.{most_nodes, Lt, formula_size};
ghost use Rattle.sync_kernel_facts.specs.Literals.{literal_form, IsLiteral};
ghost use Rattle.sync_kernel.specs.Pairs.{pair_forms, IsPair, TakesApart};
ghost use Rattle.sync_kernel.specs.Taking.{Two, parts_of as wanted_parts, parts_of_not as wanted_parts_of_not, cases_of as wanted_cases, cases_of_not as wanted_cases_of_not};

use sync_kernel_facts::Literal;
use sync_terms::{FormNode, TermId, TermStop, Terms};

/// Two formulas.
#[derive(Clone, Copy, Debug)]
pub(crate) struct Pair {
    pub left: Literal,
    pub right: Literal,
}

/// The two formulas that hold where a formula with this node does not.
fn parts_of_not(terms: &Terms, node: FormNode) -> Option<Pair>
    requires { HasParts terms.now node }
    ensures pair { option_map (pair_forms terms.now) result ≡ wanted_parts_of_not (form_shape terms.now node) }
    ensures stored { IfSome result (IsPair terms.now) }
{
    match node {
        FormNode::Or(a, b) => Some(Pair {
            left: Literal::denial(terms, a),
            right: Literal::denial(terms, b),
        }),
        FormNode::Imp(a, b) => Some(Pair {
            left: Literal::plain(a),
            right: Literal::denial(terms, b),
        }),
        FormNode::Le(_, _)
        | FormNode::Lt(_, _)
        | FormNode::Eq(_, _)
        | FormNode::Not(_)
        | FormNode::And(_, _) => None,
    }
}

/// The two formulas that hold where this one does.
pub(crate) fn parts_of(terms: &Terms, says: Literal) -> Option<Pair>
    requires { IsLiteral terms.now says }
    ensures pair { option_map (pair_forms terms.now) result ≡ wanted_parts (literal_form terms.now says) }
    ensures stored { IfSome result (IsPair terms.now) }
{
    let node = terms.form(says.form);
    if says.negated {
        return parts_of_not(terms, node);
    }
    match node {
        FormNode::And(a, b) => Some(Pair {
            left: Literal::plain(a),
            right: Literal::plain(b),
        }),
        FormNode::Not(inner) => parts_of_not(terms, terms.form(inner)),
        FormNode::Le(_, _)
        | FormNode::Lt(_, _)
        | FormNode::Eq(_, _)
        | FormNode::Or(_, _)
        | FormNode::Imp(_, _) => None,
    }
}

/// One term below the other, and the other way round.
fn orders(terms: &mut Terms, left: TermId, right: TermId) -> Result<Pair, TermStop>
    requires left { IsTerm terms.old left }
    requires right { IsTerm terms.old right }
    ensures forms { IfOk result (λ p. pair_forms terms.new p ≡ record { left = Lt (tree terms.old left) (tree terms.old right); right = Lt (tree terms.old right) (tree terms.old left) }) }
    ensures stored { IfOk result (IsPair terms.new) }
    ensures too_large { result ≡ Err TooLarge → most_nodes < formula_size (Lt (tree terms.old left) (tree terms.old right)) }
    ensures keeps { Extends terms.old terms.new }
{
    let below = terms.add_form(FormNode::Lt(left, right))?;
    let above = terms.add_form(FormNode::Lt(right, left))?;
    Ok(Pair {
        left: Literal::plain(below),
        right: Literal::plain(above),
    })
}

/// The two formulas of which one holds where a formula with this node does not.
fn cases_of_not(terms: &mut Terms, node: FormNode) -> Result<Option<Pair>, TermStop>
    requires { HasParts terms.old node }
    ensures cases { TakesApart terms.new result (wanted_cases_of_not (form_shape terms.old node)) }
    ensures keeps { Extends terms.old terms.new }
{
    match node {
        FormNode::And(a, b) => Ok(Some(Pair {
            left: Literal::denial(terms, a),
            right: Literal::denial(terms, b),
        })),
        FormNode::Eq(t, u) => match orders(terms, t, u) {
            Ok(pair) => Ok(Some(pair)),
            Err(stop) => Err(stop),
        },
        FormNode::Le(_, _)
        | FormNode::Lt(_, _)
        | FormNode::Not(_)
        | FormNode::Or(_, _)
        | FormNode::Imp(_, _) => Ok(None),
    }
}

/// The two formulas of which one holds where this one does.
pub(crate) fn cases_of(terms: &mut Terms, says: Literal) -> Result<Option<Pair>, TermStop>
    requires { IsLiteral terms.old says }
    ensures cases { TakesApart terms.new result (wanted_cases (literal_form terms.old says)) }
    ensures keeps { Extends terms.old terms.new }
{
    let node = terms.form(says.form);
    if says.negated {
        return cases_of_not(terms, node);
    }
    match node {
        FormNode::Or(a, b) => Ok(Some(Pair {
            left: Literal::plain(a),
            right: Literal::plain(b),
        })),
        FormNode::Imp(a, b) => Ok(Some(Pair {
            left: Literal::denial(terms, a),
            right: Literal::plain(b),
        })),
        FormNode::Not(inner) => {
            let node = terms.form(inner);
            cases_of_not(terms, node)
        }
        FormNode::Le(_, _) | FormNode::Lt(_, _) | FormNode::Eq(_, _) | FormNode::And(_, _) => Ok(
            None,
        ),
    }
}
