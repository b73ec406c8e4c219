//! Terms and formulas: a store in which equal trees are one, and the trees of proof scripts.
#![tactic(auto)]

pub mod building;
mod nodes;
mod proofs;
mod scripts;
mod store;
mod subst;

pub use nodes::{FormId, FormNode, Node, Sym, TermId};
pub use proofs::{Claim, Obligation, Proof, Proofs};
pub use scripts::{Block, HypName, Part, Script, ScriptStep, StepKind};
pub use store::{MOST_NODES, TermStop, Terms};
