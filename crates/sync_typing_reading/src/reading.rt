//! Terms and formulas with what their symbols stand for.
ghost use Rattle.std.specs.Prelude.{◌≡◌, IfOk, IfErr};
ghost use Rattle.sync_terms.specs.Building.{BuildsForm, BuildsTerm, StopsBuilding};
ghost use Rattle.sync_terms.specs.Stored.{tree, formula, IsForm, IsTerm, Extends};
ghost use Rattle.sync_terms.specs.Trees.{Name, replaced, replaced_in};
ghost use Rattle.sync_typing_reading.specs.Nodes.{children_of, child_size, node_over, compared_over, joined_over, IsChildBelow, IsChildOf, IsRead};
ghost use Rattle.sync_typing_reading.specs.Sayings.{stands_in, AreSaidOf};

use crate::sayings::{Saying, said};
use sync_terms::building::{form, stored_term, term};
use sync_terms::{FormId, FormNode, Node, Sym, TermId, TermStop, Terms};
use sync_typing_ledgers::Ledger;

/// The children of a node, in order.
#[derive(Clone, Copy)]
struct Children {
    first: Option<TermId>,
    second: Option<TermId>,
    third: Option<TermId>,
}

/// The children of a node.
fn children_of(node: Node) -> Children
    ensures { result ≡ children_of node }
{
    let (first, second, third) = match node {
        Node::Lit(_) | Node::Name(_) | Node::Nil => (None, None, None),
        Node::Scale(_, a) | Node::Size(a) | Node::Sum(a) => (Some(a), None, None),
        Node::Add(a, b) | Node::Sub(a, b) | Node::Get(a, b) | Node::Has(a, b) | Node::Del(a, b) => {
            (Some(a), Some(b), None)
        }
        Node::Put(a, b, c) | Node::Bump(a, b, c) => (Some(a), Some(b), Some(c)),
    };
    Children {
        first,
        second,
        third,
    }
}

/// A node over other children, its own where one is wanting.
fn over(node: Node, new: Children) -> Node
    ensures { result ≡ node_over node new }
{
    match node {
        Node::Lit(_) | Node::Name(_) | Node::Nil => node,
        Node::Add(a, b) => Node::Add(new.first.unwrap_or(a), new.second.unwrap_or(b)),
        Node::Sub(a, b) => Node::Sub(new.first.unwrap_or(a), new.second.unwrap_or(b)),
        Node::Scale(n, a) => Node::Scale(n, new.first.unwrap_or(a)),
        Node::Get(m, k) => Node::Get(new.first.unwrap_or(m), new.second.unwrap_or(k)),
        Node::Has(m, k) => Node::Has(new.first.unwrap_or(m), new.second.unwrap_or(k)),
        Node::Size(m) => Node::Size(new.first.unwrap_or(m)),
        Node::Sum(m) => Node::Sum(new.first.unwrap_or(m)),
        Node::Put(m, k, v) => Node::Put(
            new.first.unwrap_or(m),
            new.second.unwrap_or(k),
            new.third.unwrap_or(v),
        ),
        Node::Del(m, k) => Node::Del(new.first.unwrap_or(m), new.second.unwrap_or(k)),
        Node::Bump(m, k, n) => Node::Bump(
            new.first.unwrap_or(m),
            new.second.unwrap_or(k),
            new.third.unwrap_or(n),
        ),
    }
}

/// What a symbol stands for; the term that names it where that is nothing else.
fn read_name(terms: &Terms, names: &Ledger, symbol: Sym, own: TermId) -> Result<TermId, TermStop>
    requires own { IsTerm terms.now own }
    requires named { tree terms.now own ≡ Name symbol.0 }
    requires said { AreSaidOf terms.now names.now }
    ensures { BuildsTerm terms.now (stands_in terms.now names.now symbol.0) result }
{
    match said(names, symbol) {
        Saying::Term(id) => stored_term(terms, id),
        Saying::Itself | Saying::Nothing => stored_term(terms, own),
    }
}

/// A term with what its symbols stand for. Takes time in the size of its tree.
///
/// `TooLarge` is for a term of more than `MOST_NODES` nodes. After `Memory` the store may have gained nodes.
#[cycle(terms)]
pub fn read_term(terms: &mut Terms, names: &Ledger, id: TermId) -> Result<TermId, TermStop>
    requires term { IsTerm terms.old id }
    requires said { AreSaidOf terms.old names.now }
    ensures built { BuildsTerm terms.new (replaced (stands_in terms.old names.now) (tree terms.old id)) result }
    ensures keeps { Extends terms.old terms.new }
{
    let node = terms.term(id);
    if let Node::Name(symbol) = node {
        return read_name(terms, names, symbol, id);
    }
    let old = children_of(node);
    let first = read_child(terms, names, id, old.first)?;
    let second = read_child(terms, names, id, old.second)?;
    let third = read_child(terms, names, id, old.third)?;
    term(
        terms,
        over(
            node,
            Children {
                first,
                second,
                third,
            },
        ),
    )
}

/// A child of a term, if it is there, with what its symbols stand for.
#[cycle(terms)]
fn read_child(
    terms: &mut Terms,
    names: &Ledger,
    parent: TermId,
    child: Option<TermId>,
) -> Result<Option<TermId>, TermStop>
    requires child { IsChildOf terms.old child }
    requires below { IsChildBelow parent.0 child }
    requires said { AreSaidOf terms.old names.now }
    ensures read { IfOk result (IsRead (replaced (stands_in terms.old names.now)) terms.old terms.new child) }
    ensures stop { IfErr result
        (StopsBuilding (child_size (replaced (stands_in terms.old names.now)) terms.old child)) }
    ensures keeps { Extends terms.old terms.new }
{
    match child {
        None => Ok(None),
        Some(id) => {
            let new = read_term(terms, names, id)?;
            Ok(Some(new))
        }
    }
}

/// The node of a comparison of other terms.
fn compared(node: FormNode, left: TermId, right: TermId) -> FormNode
    ensures { result ≡ compared_over node left right }
{
    match node {
        FormNode::Le(_, _) => FormNode::Le(left, right),
        FormNode::Lt(_, _) => FormNode::Lt(left, right),
        FormNode::Eq(_, _) => FormNode::Eq(left, right),
        FormNode::Not(_) | FormNode::And(_, _) | FormNode::Or(_, _) | FormNode::Imp(_, _) => node,
    }
}

/// The node of other formulas joined alike.
fn joined(node: FormNode, left: FormId, right: FormId) -> FormNode
    ensures { result ≡ joined_over node left right }
{
    match node {
        FormNode::And(_, _) => FormNode::And(left, right),
        FormNode::Or(_, _) => FormNode::Or(left, right),
        FormNode::Imp(_, _) => FormNode::Imp(left, right),
        FormNode::Le(_, _) | FormNode::Lt(_, _) | FormNode::Eq(_, _) | FormNode::Not(_) => node,
    }
}

/// A formula with what its symbols stand for. Takes time in the size of its tree.
///
/// `TooLarge` is for a formula of more than `MOST_NODES` nodes. After `Memory` the store may have gained nodes.
pub fn read_form(terms: &mut Terms, names: &Ledger, id: FormId) -> Result<FormId, TermStop>
    requires form { IsForm terms.old id }
    requires said { AreSaidOf terms.old names.now }
    ensures built { BuildsForm terms.new (replaced_in (stands_in terms.old names.now) (formula terms.old id)) result }
    ensures keeps { Extends terms.old terms.new }
{
    let node = terms.form(id);
    match node {
        FormNode::Le(a, b) | FormNode::Lt(a, b) | FormNode::Eq(a, b) => {
            let left = read_term(terms, names, a)?;
            let right = read_term(terms, names, b)?;
            form(terms, compared(node, left, right))
        }
        FormNode::Not(f) => {
            let new = read_form(terms, names, f)?;
            form(terms, FormNode::Not(new))
        }
        FormNode::And(f, g) | FormNode::Or(f, g) | FormNode::Imp(f, g) => {
            let left = read_form(terms, names, f)?;
            let right = read_form(terms, names, g)?;
            form(terms, joined(node, left, right))
        }
    }
}
