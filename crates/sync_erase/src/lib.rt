//! The program that runs: without tokens, proofs, keeps and labels; and its text.
#![tactic(auto)]

mod erasing;
mod printing;

pub use erasing::erase;
pub use printing::print_code;
