//! What comes of building nodes over what a store has: the tree, or that it is too large, unless memory is wanting.
ghost use Rattle.sync_terms.specs.Stored.{tree, HasChildren, HasParts, IsTerm, Extends};
ghost use Rattle.sync_terms.specs.Building.{BuildsTerm, BuildsForm, node_tree, node_formula};

use crate::nodes::{FormId, FormNode, Node, TermId};
use crate::store::{MOST_NODES, TermStop, Terms};

/// The term with this node.
pub fn term(terms: &mut Terms, node: Node) -> Result<TermId, TermStop>
    requires { HasChildren terms.old node }
    ensures built { BuildsTerm terms.new (node_tree terms.old node) result }
    ensures keeps { Extends terms.old terms.new }
{
    terms.add_term(node)
}

/// The formula with this node.
pub fn form(terms: &mut Terms, node: FormNode) -> Result<FormId, TermStop>
    requires { HasParts terms.old node }
    ensures built { BuildsForm terms.new (node_formula terms.old node) result }
    ensures keeps { Extends terms.old terms.new }
{
    terms.add_form(node)
}

/// A term that is stored, which is never too large.
pub fn stored_term(terms: &Terms, term: TermId) -> Result<TermId, TermStop>
    requires { IsTerm terms.now term }
    ensures { BuildsTerm terms.now (tree terms.now term) result }
{
    prove!(terms.term_size(term) <= MOST_NODES);
    Ok(term)
}
