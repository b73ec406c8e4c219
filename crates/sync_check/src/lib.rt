//! Checks texts: whether a text is a machine whose proofs prove it, and what has to be proved of it.
#![tactic(auto)]

mod checking;
mod listing;
mod reading;

pub use checking::{accepted_machine, check};
pub use listing::list;
pub use reading::{Text, read};
