//! Numbers and formulas over terms of a store, before they are built in it.
ghost use Rattle.std.specs.Prelude.{◌≡◌};
ghost use Rattle.sync_terms.specs.Stored.{Stored, tree, formula, Extends, HasParts, IsTerm, IsForm};
ghost use Rattle.sync_terms.specs.Trees.{Add, Sub};
ghost use Rattle.sync_terms.specs.Building.{BuildsTerm, BuildsForm, node_formula};
ghost use Rattle.sync_kernel_facts.specs.Drafts.{part_tree, IsPart, value_tree, IsValue, compared, joined, draft_formula, IsDraft};

use sync_terms::building::{form, stored_term, term};
use sync_terms::{FormId, FormNode, Node, TermId, TermStop, Terms};

/// A number: a stored term, or one node over stored terms.
#[derive(Clone, Copy)]
pub(crate) enum Part {
    Stored(TermId),
    Number(i128),
    Get(TermId, TermId),
    Has(TermId, TermId),
    Size(TermId),
    Sum(TermId),
}

/// A number: a part, or parts that are added and one that is taken away.
#[derive(Clone, Copy)]
pub(crate) enum Value {
    Only(Part),
    Plus(Part, Part),
    Minus(Part, Part),
    PlusMinus(Part, Part, Part),
}

/// How two numbers stand to each other.
#[derive(Clone, Copy)]
pub(crate) enum Relation {
    AtMost,
    Below,
    Equal,
}

/// How two formulas make one.
#[derive(Clone, Copy)]
pub(crate) enum Connective {
    And,
    Or,
    Implies,
}

/// A formula over stored terms.
#[derive(Clone, Copy)]
pub(crate) enum Draft<'a> {
    Test(Relation, Value, Value),
    Not(&'a Draft<'a>),
    Join(Connective, &'a Draft<'a>, &'a Draft<'a>),
}

/// Builds a part.
fn single(terms: &mut Terms, part: Part) -> Result<TermId, TermStop>
    requires { IsPart terms.old part }
    ensures built { BuildsTerm terms.new (part_tree terms.old part) result }
    ensures keeps { Extends terms.old terms.new }
{
    match part {
        Part::Stored(id) => stored_term(terms, id),
        Part::Number(number) => term(terms, Node::Lit(number)),
        Part::Get(map, key) => term(terms, Node::Get(map, key)),
        Part::Has(map, key) => term(terms, Node::Has(map, key)),
        Part::Size(map) => term(terms, Node::Size(map)),
        Part::Sum(map) => term(terms, Node::Sum(map)),
    }
}

/// Builds the sum of two parts.
fn added(terms: &mut Terms, left: Part, right: Part) -> Result<TermId, TermStop>
    requires left { IsPart terms.old left }
    requires right { IsPart terms.old right }
    ensures built { BuildsTerm terms.new (Add (part_tree terms.old left) (part_tree terms.old right)) result }
    ensures keeps { Extends terms.old terms.new }
{
    let left = single(terms, left)?;
    let right = single(terms, right)?;
    term(terms, Node::Add(left, right))
}

/// Builds the difference of two parts.
fn lessened(terms: &mut Terms, left: Part, right: Part) -> Result<TermId, TermStop>
    requires left { IsPart terms.old left }
    requires right { IsPart terms.old right }
    ensures built { BuildsTerm terms.new (Sub (part_tree terms.old left) (part_tree terms.old right)) result }
    ensures keeps { Extends terms.old terms.new }
{
    let left = single(terms, left)?;
    let right = single(terms, right)?;
    term(terms, Node::Sub(left, right))
}

/// Builds a number.
fn number(terms: &mut Terms, value: Value) -> Result<TermId, TermStop>
    requires { IsValue terms.old value }
    ensures built { BuildsTerm terms.new (value_tree terms.old value) result }
    ensures keeps { Extends terms.old terms.new }
{
    match value {
        Value::Only(part) => single(terms, part),
        Value::Plus(left, right) => added(terms, left, right),
        Value::Minus(left, right) => lessened(terms, left, right),
        Value::PlusMinus(left, right, less) => {
            let more = added(terms, left, right)?;
            lessened(terms, Part::Stored(more), less)
        }
    }
}

/// The node of a comparison.
fn test_node(relation: Relation, left: TermId, right: TermId) -> FormNode
    ensures formula { (s : Stored) → node_formula s result ≡ compared relation (tree s left) (tree s right) }
    ensures parts { (s : Stored) → IsTerm s left → IsTerm s right → HasParts s result }
{
    match relation {
        Relation::AtMost => FormNode::Le(left, right),
        Relation::Below => FormNode::Lt(left, right),
        Relation::Equal => FormNode::Eq(left, right),
    }
}

/// The node of two formulas that make one.
fn join_node(connective: Connective, left: FormId, right: FormId) -> FormNode
    ensures formula { (s : Stored) → node_formula s result ≡ joined connective (formula s left) (formula s right) }
    ensures parts { (s : Stored) → IsForm s left → IsForm s right → HasParts s result }
{
    match connective {
        Connective::And => FormNode::And(left, right),
        Connective::Or => FormNode::Or(left, right),
        Connective::Implies => FormNode::Imp(left, right),
    }
}

/// Builds a comparison of two numbers.
fn test(
    terms: &mut Terms,
    relation: Relation,
    left: Value,
    right: Value,
) -> Result<FormId, TermStop>
    requires left { IsValue terms.old left }
    requires right { IsValue terms.old right }
    ensures built { BuildsForm terms.new (compared relation (value_tree terms.old left) (value_tree terms.old right)) result }
    ensures keeps { Extends terms.old terms.new }
{
    let left = number(terms, left)?;
    let right = number(terms, right)?;
    form(terms, test_node(relation, left, right))
}

/// Builds a formula.
pub(crate) fn formula(terms: &mut Terms, draft: &Draft<'_>) -> Result<FormId, TermStop>
    requires { IsDraft terms.old draft.now }
    ensures built { BuildsForm terms.new (draft_formula terms.old draft.now) result }
    ensures keeps { Extends terms.old terms.new }
{
    match draft {
        Draft::Test(relation, left, right) => test(terms, *relation, *left, *right),
        Draft::Not(inner) => {
            let inner = formula(terms, inner)?;
            form(terms, FormNode::Not(inner))
        }
        Draft::Join(connective, left, right) => {
            let left = formula(terms, left)?;
            let right = formula(terms, right)?;
            form(terms, join_node(*connective, left, right))
        }
    }
}
