//! Values of terms and formulas, with exact width.
#![tactic(auto)]

mod changes;
mod evaluation;
mod meanings;
mod operators;
mod questions;
mod stops;
mod values;

pub use meanings::Meanings;
pub use stops::EvalStop;
pub use values::{map_of, number_of, truth_of};
