//! The canonical form of a text.
#![tactic(auto)]

mod exprs;
mod lexemes;
mod machines;
mod scripts;

pub use exprs::expr;
pub use lexemes::{name, number, sign};
pub use machines::{machine, print, proofs, version};
pub use scripts::block;
