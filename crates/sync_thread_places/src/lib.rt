//! How a thread of code goes on between its shared steps: its place is a way of numbers, and nothing is copied.
#![tactic(auto)]

mod leaving;
mod resuming;
mod running;
mod sizes;
mod standings;
mod values;

pub use resuming::resume;
pub use running::advance;
pub use sizes::{nesting, width};
pub use standings::{Hop, Outcome, Standing};
pub use values::value;
