//! What the strategies allow, what has to be proved of a machine, and the slots of its operations: which tokens they take and give.
#![tactic(auto)]

mod acts;
mod checking;
mod field_sets;
mod kinds;
mod listing;
mod locality;
mod matrix;
mod mentions;
mod order;
mod plain;
mod shapes;
mod signing;
mod slots;
mod statements;
mod variables;

pub use acts::{field_of, strategy_of};
pub use checking::check_ops;
pub use kinds::OpKind;
pub use listing::obligations;
pub use matrix::{MATRIX, allowed, matrix_is_exact};
pub use plain::is_plain;
pub use signing::{signature, variable_slots};
pub use slots::{Role, Slot};
pub use sync_terms::{Claim, Obligation};
