//! What numbers stand for, the newest first: entries are taken back, and older ones put below a floor.
#![tactic(auto)]

mod ledgers;

pub use ledgers::{Found, Ledger};
