//! The facts of a branch, by their names.
ghost use Rattle.std.specs.Prelude.{◌≡◌, ◌≤◌, ◌+◌, ◌-◌, ◌++◌, ◌∷◌, [], map, not, nat_lt, length, take, OnOk, OnErr, option_map};
ghost use Rattle.sync_terms.specs.Trees.{most_nodes};
ghost use Rattle.sync_terms.specs.Stored.{Stored};

use crate::literals::Literal;
use sqlite_items::Items;
use std::alloc::{AllocError, Global};
use std::collections::HashMap;
use std::marker::Model;
use sync_terms::{HypName, MOST_NODES, Sym, Terms};

/// A fact: its name, its parameters, what it says, and the nodes of that.
#[derive(Debug, Drop)]
pub struct Said {
    pub name: HypName,
    pub params: Items<Sym>,
    pub says: Literal,
    pub size: u64,
}

/// What a fact says, and whether it has no parameters.
#[derive(Clone, Copy, Debug)]
pub struct Known {
    pub says: Literal,
    pub plain: bool,
}

impl Said {
    ghost use Rattle.sync_kernel_facts.specs.Literals.{IsLiteral};
    ghost use Rattle.sync_kernel_facts.specs.Branches.{IsSaid};
    ghost use Rattle.sync_kernel_facts.specs.Knowing.{known_of};

    /// A fact with these parameters.
    pub fn new(terms: &Terms, name: HypName, params: Items<Sym>, says: Literal) -> Said
        requires { IsLiteral terms.now says }
        ensures name { result.name ≡ name }
        ensures params { result.params ≡ params }
        ensures says { result.says ≡ says }
        ensures said { IsSaid terms.now result }
    {
        Said {
            name,
            params,
            says,
            size: says.size(terms),
        }
    }

    pub fn known(&self) -> Known
        ensures { result ≡ known_of self.now }
    {
        Known {
            says: self.says,
            plain: self.params.is_empty(),
        }
    }
}

/// A fact on the stack, with the place of the fact that its name stood for before, and the nodes of all facts up to it.
#[derive(Debug, Drop)]
pub struct Held {
    pub said: Said,
    pub hides: Option<usize>,
    pub total: u64,
}

/// The facts of a branch, newest last. A name stands for its newest fact.
#[derive(Drop)]
pub struct Branch {
    facts: Vec<Held>,
    places: HashMap<HypName, usize>,
}

impl Model for Branch {
    ghost use Rattle.std.specs.Prelude.{List, ◌≡◌};
    ghost use Rattle.std.specs.HashMap.{get};
    ghost use Rattle.sync_terms.specs.declared.scripts.HypName.{HypName};
    ghost use Rattle.sync_kernel_facts.specs.declared.branches.Said.{Said};

    ghost Value = { List Said };

    ghost use Rattle.sync_kernel_facts.specs.Branches.{equal_names, place_from};
    ghost use Rattle.sync_kernel_facts.specs.Stacks.{saids, IsStack};

    ghost view = { λ b. saids b.facts.items };

    ghost invariant = { λ b. ((name : HypName) → get equal_names b.places name ≡ place_from 0 name (saids b.facts.items)) × IsStack b.facts.items };
}

impl Branch {
    ghost use Rattle.sync_kernel_facts.specs.Branches.{newest_said, said_size, capped};
    ghost use Rattle.sync_kernel_facts.specs.Stacks.{saids};
    ghost use Rattle.sync_kernel_facts.specs.Knowing.{known_of};

    /// A branch without facts.
    pub fn new(alloc: Global) -> Branch
        ensures { result ≡ [] }
    {
        Branch {
            facts: Vec::new(alloc),
            places: HashMap::new(alloc),
        }
    }

    /// The number of facts.
    pub fn len(&self) -> usize
        ensures { result ≡ length self.now }
    {
        self.facts.len()
    }

    /// The facts, oldest first.
    pub fn held(&self) -> &[Held]
        ensures { saids result.now ≡ self.now }
    {
        self.facts.as_slice()
    }

    /// The number of nodes of all facts, as far as the type goes.
    pub fn size(&self) -> u64
        ensures { result ≡ capped (said_size self.now) }
    {
        match self.facts.last() {
            Some(held) => held.total,
            None => 0,
        }
    }

    /// Whether facts with so many nodes more are within the limit.
    pub fn fits(&self, more: u64) -> bool
        ensures { result ≡ not (nat_lt most_nodes (said_size self.now + more)) }
    {
        self.size().saturating_add(more) <= MOST_NODES
    }

    /// The newest fact of a name.
    pub fn find(&self, name: HypName) -> Option<&Said>
        ensures { option_map (λ r. r.now) result ≡ newest_said name self.now }
    {
        match self.places.get(&name) {
            Some(&place) => Some(&self.facts[place].said),
            None => None,
        }
    }

    /// What the newest fact of a name says.
    pub fn known(&self, name: HypName) -> Option<Known>
        ensures { result ≡ option_map known_of (newest_said name self.now) }
    {
        match self.find(name) {
            Some(said) => Some(said.known()),
            None => None,
        }
    }

    /// Adds a fact.
    pub fn push(&mut self, said: Said) -> Result<(), AllocError>
        ensures ok { OnOk result (self.new ≡ self.old ++ said ∷ []) }
        ensures err { OnErr result (self.new ≡ self.old) }
    {
        let total = self.size().saturating_add(said.size);
        let place = self.facts.len();
        self.facts.reserve(1)?;
        let hides = self.places.insert(said.name, place)?;
        let pushed: Result<(), _> = self.facts.push(Held { said, hides, total });
        pushed.unwrap();
        Ok(())
    }

    /// Takes the newest fact away.
    fn pop(&mut self)
        ensures { self.new ≡ take (length self.old - 1) self.old }
    {
        let Some(held) = self.facts.pop() else {
            return;
        };
        match held.hides {
            Some(place) => {
                let put: Result<_, _> = self.places.insert(held.said.name, place);
                put.unwrap();
            }
            None => {
                self.places.remove(&held.said.name);
            }
        }
    }

    /// Leaves the first facts, so many, and takes those behind them away.
    pub fn cut_back(&mut self, len: usize)
        ensures { self.new ≡ take len self.old }
    {
        while self.len() > len {
            self.pop();
        }
    }
}
