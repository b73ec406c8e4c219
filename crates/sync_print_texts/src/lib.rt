//! The canonical form of statements, programs and whole texts, with what reading it gives.
#![tactic(auto)]

mod printing;
mod programs;
mod starts;
mod statements;

pub use printing::print_whole;
