//! What the rules on programs ask of a list of statements by its text alone.
#![tactic(auto)]

mod blocks;
mod deeds;
mod endings;
mod locals;
mod silences;

pub use blocks::is_block_shaped;
pub use deeds::is_complete;
pub use endings::{end_line, has_break, has_meet};
pub use locals::assigned_locals;
pub use silences::{Silence, silent_jumps};
