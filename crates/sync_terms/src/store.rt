//! The store of terms and formulas, in which equal trees are one.
ghost use Rattle.std.specs.Prelude.{◌≡◌, ◌+◌, ◌<◌, ◌≤◌, ◌↔◌, ◌⊎◌, ◌++◌, [], ◌∷◌, length, slice_get, vec_len, IfOk, OnOk, OnErr, Err};
ghost use Rattle.indexmap.specs.IndexSet.{IsUnique, index_set_len};
ghost use Rattle.sync_terms.specs.declared.store.TermStop.TheVariants.{TooLarge, Memory};
ghost use Rattle.sync_terms.specs.Trees.{most_nodes};
ghost use Rattle.sync_terms.specs.Inserted.{IsInserted, IsAt};
ghost use Rattle.sync_terms.specs.Stored.{tree, formula, shape, form_shape, IsTerm, IsForm, ChildrenBelow, PartsBelow, HasChildren, HasParts, Extends, GainsTerm, GainsForm, IsShared};
ghost use Rattle.sync_terms.specs.Trees.{tree_size, formula_size};

use crate::nodes::{FormId, FormNode, Node, TermId};
use indexmap::IndexSet;
use std::alloc::{AllocError, AllocFailed, Global};
use std::hash::Hash;
use std::marker::Model;
use sync_base::NoMemory;
use thiserror::Error;

/// The most nodes that a term or a formula of a store has.
pub const MOST_NODES: u64 = 1_000_000;

/// Why a store takes no tree.
#[derive(Clone, Copy, PartialEq, Eq, Debug, Error)]
pub enum TermStop {
    /// The tree has more than `MOST_NODES` nodes, those of its parts each time that they occur.
    #[error("a tree of more than 1,000,000 nodes")]
    TooLarge,
    /// Memory is wanting, or the numbers that ids have.
    #[error("no memory")]
    Memory,
}

impl From<AllocError> for TermStop {
    ghost from_gives = { λ _ e. e ≡ Memory };

    fn from(_e: AllocError) -> TermStop {
        TermStop::Memory
    }
}

impl<T: Drop> From<AllocFailed<T>> for TermStop {
    ghost from_gives = { λ _ e. e ≡ Memory };

    fn from(_e: AllocFailed<T>) -> TermStop {
        TermStop::Memory
    }
}

impl From<NoMemory> for TermStop {
    ghost from_gives = { λ _ e. e ≡ Memory };

    fn from(_e: NoMemory) -> TermStop {
        TermStop::Memory
    }
}

/// Terms and formulas, each tree once. An id is the place of its node, and the parts of a node stand before it.
#[derive(Drop)]
pub struct Terms {
    alloc: Global,
    nodes: IndexSet<Node>,
    sizes: Vec<u32>,
    forms: IndexSet<FormNode>,
    form_sizes: Vec<u32>,
}

impl Model for Terms {
    ghost use Rattle.sync_terms.specs.Stored.{Stored};
    ghost use Rattle.sync_terms.specs.StoreLists.{AreInOrder};

    ghost Value = { Stored };

    ghost view = { λ t. record { nodes = t.nodes.keys; forms = t.forms.keys } };

    ghost invariant = { λ t. AreInOrder (record { nodes = t.nodes.keys; forms = t.forms.keys }) t.sizes.items t.form_sizes.items };
}

impl Terms {
    /// An empty store that takes its memory from this allocator. It takes none yet.
    pub fn new(alloc: Global) -> Terms
        ensures { result ≡ record { nodes = []; forms = [] } }
    {
        Terms {
            alloc,
            nodes: IndexSet::new(alloc),
            sizes: Vec::new(alloc),
            forms: IndexSet::new(alloc),
            form_sizes: Vec::new(alloc),
        }
    }

    /// A store with the same ids, the same trees under them, and an allocator of its own.
    pub fn copy(&self, alloc: Global) -> Result<Terms, NoMemory>
        ensures { IfOk result (λ t. t ≡ self.now) }
    {
        Ok(Terms {
            alloc,
            nodes: copied(alloc, &self.nodes)?,
            sizes: Vec::from_slice(alloc, self.sizes.as_slice())?,
            forms: copied(alloc, &self.forms)?,
            form_sizes: Vec::from_slice(alloc, self.form_sizes.as_slice())?,
        })
    }

    /// The number of nodes that are stored, those of terms and those of formulas.
    pub fn count(&self) -> u64
        ensures { result ≡ length self.now.nodes + length self.now.forms }
    {
        self.nodes.len() as u64 + self.forms.len() as u64
    }

    /// The node of a term.
    pub fn term(&self, id: TermId) -> Node
        requires { IsTerm self.now id }
        ensures value { shape self.now result ≡ tree self.now id }
        ensures children { HasChildren self.now result }
        ensures earlier { ChildrenBelow id.0 result }
        ensures shared { IsShared self.now }
    {
        self.nodes.as_slice()[id.0 as usize]
    }

    /// The node of a formula.
    pub fn form(&self, id: FormId) -> FormNode
        requires { IsForm self.now id }
        ensures value { form_shape self.now result ≡ formula self.now id }
        ensures children { HasParts self.now result }
        ensures earlier { PartsBelow (length self.now.nodes) id.0 result }
        ensures shared { IsShared self.now }
    {
        self.forms.as_slice()[id.0 as usize]
    }

    /// The number of nodes of a term as a tree, in constant time.
    pub fn term_size(&self, id: TermId) -> u64
        requires { IsTerm self.now id }
        ensures size { result ≡ tree_size (tree self.now id) }
        ensures some { 1 ≤ result }
        ensures bound { result ≤ most_nodes }
    {
        u64::from(self.sizes[id.0 as usize])
    }

    /// The number of nodes of a formula as a tree, those of its terms among them, in constant time.
    pub fn size_of(&self, id: FormId) -> u64
        requires { IsForm self.now id }
        ensures size { result ≡ formula_size (formula self.now id) }
        ensures some { 1 ≤ result }
        ensures bound { result ≤ most_nodes }
    {
        u64::from(self.form_sizes[id.0 as usize])
    }

    /// The allocator that the store takes its memory from.
    pub(crate) fn allocator(&self) -> Global {
        self.alloc
    }

    /// The number of nodes that the tree of a node would have.
    #[tactic(auto, unfolding(crate::specs::Stored::shape, crate::specs::Stored::tree, crate::specs::Trees::tree_size))]
    fn node_size(&self, node: Node) -> u64
        requires { HasChildren self.now node }
        ensures size { result ≡ tree_size (shape self.now node) }
        ensures bound { result ≤ 3000001 }
    {
        match node {
            Node::Lit(_) | Node::Name(_) | Node::Nil => 1,
            Node::Scale(_, a) | Node::Size(a) | Node::Sum(a) => self.term_size(a) + 1,
            Node::Add(a, b)
            | Node::Sub(a, b)
            | Node::Get(a, b)
            | Node::Has(a, b)
            | Node::Del(a, b) => self.term_size(a) + self.term_size(b) + 1,
            Node::Put(a, b, c) | Node::Bump(a, b, c) => {
                self.term_size(a) + self.term_size(b) + self.term_size(c) + 1
            }
        }
    }

    /// The number of nodes that the tree of a formula's node would have.
    #[tactic(auto, unfolding(crate::specs::Stored::form_shape, crate::specs::Stored::tree, crate::specs::Stored::formula, crate::specs::Trees::formula_size))]
    fn form_node_size(&self, node: FormNode) -> u64
        requires { HasParts self.now node }
        ensures size { result ≡ formula_size (form_shape self.now node) }
        ensures bound { result ≤ 2000001 }
    {
        match node {
            FormNode::Le(a, b) | FormNode::Lt(a, b) | FormNode::Eq(a, b) => {
                self.term_size(a) + self.term_size(b) + 1
            }
            FormNode::Not(f) => self.size_of(f) + 1,
            FormNode::And(f, g) | FormNode::Or(f, g) | FormNode::Imp(f, g) => {
                self.size_of(f) + self.size_of(g) + 1
            }
        }
    }

    /// The id of the term with this node, which is added if it is not there.
    pub fn add_term(&mut self, node: Node) -> Result<TermId, TermStop>
        requires children { HasChildren self.old node }
        ensures id { IfOk result (λ id. IsTerm self.new id × (tree self.new id ≡ shape self.old node)) }
        ensures too_large { (result ≡ Err TermStop.TooLarge) ↔ (most_nodes < tree_size (shape self.old node)) }
        ensures keeps { Extends self.old self.new }
        ensures gains { OnOk result (GainsTerm self.old node self.new) }
        ensures shared { OnOk result (IsShared self.new) }
        ensures err { OnErr result (self.new ≡ self.old) }
    {
        let size = self.node_size(node);
        if size > MOST_NODES {
            return Err(TermStop::TooLarge);
        }
        let Ok(at) = insert_node(&mut self.nodes, &mut self.sizes, node, size as u32) else {
            return Err(TermStop::Memory);
        };
        Ok(TermId(at))
    }

    /// The id of the formula with this node, which is added if it is not there.
    pub fn add_form(&mut self, node: FormNode) -> Result<FormId, TermStop>
        requires children { HasParts self.old node }
        ensures id { IfOk result (λ id. IsForm self.new id × (formula self.new id ≡ form_shape self.old node)) }
        ensures too_large { (result ≡ Err TermStop.TooLarge) ↔ (most_nodes < formula_size (form_shape self.old node)) }
        ensures keeps { Extends self.old self.new }
        ensures gains { OnOk result (GainsForm self.old node self.new) }
        ensures shared { OnOk result (IsShared self.new) }
        ensures err { OnErr result (self.new ≡ self.old) }
    {
        let size = self.form_node_size(node);
        if size > MOST_NODES {
            return Err(TermStop::TooLarge);
        }
        let Ok(at) = insert_node(&mut self.forms, &mut self.form_sizes, node, size as u32) else {
            return Err(TermStop::Memory);
        };
        Ok(FormId(at))
    }
}

/// The place of a node in a set, to which it is added, with its size, if no node there is equal to it.
fn insert_node<N: Eq + Hash + Drop>(
    nodes: &mut IndexSet<N>,
    sizes: &mut Vec<u32>,
    node: N,
    size: u32,
) -> Result<u32, NoMemory>
    ensures placed { IfOk result (λ _. IsInserted nodes.old.keys sizes.old.items node size nodes.new.keys sizes.new.items) }
    ensures at { IfOk result (λ at. IsAt N.eq node nodes.new.keys at) }
    ensures unique { IfOk result (λ _. IsUnique N.eq nodes.new) }
    ensures err_nodes { OnErr result (nodes.new.keys ≡ nodes.old.keys) }
    ensures err_sizes { OnErr result (sizes.new.items ≡ sizes.old.items) }
{
    sizes.reserve(1)?;
    if nodes.len() > u32::MAX as usize {
        return Err(NoMemory);
    }
    let (index, added) = nodes.insert_full(node)?;
    if added {
        sizes.push(size).unwrap();
    }
    Ok(index as u32)
}

/// A set with the same nodes at the same places.
fn copied<N: Eq + Hash + Copy + Drop>(
    alloc: Global,
    nodes: &IndexSet<N>,
) -> Result<IndexSet<N>, NoMemory>
    ensures { IfOk result (λ set. set.keys ≡ nodes.now.keys) }
{
    Ok(nodes.iter().copied().collect(alloc)?)
}
