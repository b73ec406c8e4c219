//! From the raw tree of a text to its machine and proofs: what each name stands for, with the first rule N that is broken.
#![tactic(auto)]

mod acts;
mod machines;
mod scripts;
mod texts;

pub use acts::few_before;
pub use machines::machine;
pub use scripts::{numbers, proofs, script};
pub use texts::{Resolved, first_scope, resolve};
