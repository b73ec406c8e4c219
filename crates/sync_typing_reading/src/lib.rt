//! What symbols stand for at a place of a program, and terms and formulas read by it.
#![tactic(auto)]

mod reading;
mod sayings;

pub use reading::{read_form, read_term};
pub use sayings::{Saying, said, say};
