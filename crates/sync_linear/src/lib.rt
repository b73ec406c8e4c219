//! Linear normal forms of terms: a constant and a number of times each atom, all within signed 128 bits.
#![tactic(auto)]

mod atoms;
mod changes;
mod laws;
mod leaves;
mod lines;
mod stops;
mod terms;

pub use changes::Change;
pub use laws::lines_are_worth;
pub use lines::Linear;
pub use stops::LinearStop;
