//! A table of shared atomic words. Every use of it, from whatever threads, comes from one legal list of entries.
#![tactic(auto)]

mod entries;
mod finish;
mod finished;
mod laws;
mod plays;
mod rule;
mod seat;
mod seats;
mod steps;
mod words;

pub use entries::{Entry, Operation};
pub use finished::Finished;
pub use laws::{logs_agree, numbers_agree};
pub use rule::View;
pub use seat::Seat;
pub use words::Words;
