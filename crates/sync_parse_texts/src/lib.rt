//! Whole texts: a machine, its proofs, and a program where there is one; and what programs spell by their productions.
#![tactic(auto)]

mod laws;
mod program_reader;
mod start_reader;
mod statement_reader;
mod text_reader;

pub use laws::{no_terminals_spell_two_programs, what_is_read_is_spelled, what_is_spelled_is_read};
pub use text_reader::{RawWholeText, read_whole};
