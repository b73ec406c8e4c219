//! Finite maps from numbers to numbers of 128 bits, and sums that stay exact.
#![tactic(auto)]

mod entries;
mod totals;

pub use entries::Entries;
