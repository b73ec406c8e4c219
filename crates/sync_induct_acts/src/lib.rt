//! What statements ask, promise and leave, built in a store of terms.
#![tactic(auto)]

mod conditions;
mod nodes;
mod places;
mod statements;
mod values;

pub use statements::{condition, enabling, safety};
pub use values::after;
