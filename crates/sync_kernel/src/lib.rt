//! The proof kernel: it checks that the script of a sequent proves it.
#![tactic(auto)]

mod blocks;
mod hypotheses;
mod lines;
mod notes;
mod provers;
mod readings;
mod rows;
mod sames;
mod seen;
mod splits;
mod steps;
mod stops;
mod sums;

pub use hypotheses::Hypotheses;
pub use provers::{prove, prove_by_names, prove_from};
pub use sync_kernel_facts::{Hyp, Sequent};
pub use sync_terms::{Block, HypName, Part, Script, ScriptStep, StepKind};
