//! Whether a machine's invariants are inductive: every reached state meets them, and no condition ever fails.
#![tactic(auto)]

mod checking;
mod closing;
mod duties;
mod holding;
mod index;
mod laws;
mod operations;
mod sizes;
mod starts;
mod statements;
mod walks;

pub use checking::inductive;
pub use holding::Inductive;
pub use laws::checked_are_listed;
pub use sync_terms::{Proof, Proofs};
