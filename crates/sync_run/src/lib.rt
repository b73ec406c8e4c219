//! A run of code on one thread, in turn.
#![tactic(auto)]

mod reports;
mod runs;
mod turns;

pub use reports::{Ended, Report};
pub use runs::run;
pub use turns::{Interpreter, run_in_turn};
