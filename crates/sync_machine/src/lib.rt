//! Transition systems whose fields have sharding strategies: their trees, and whether they are well formed.
#![tactic(auto)]

mod fields;
mod laws;
mod machine;
mod naming;
mod scope;

pub use fields::{Field, strategy_at};
pub use laws::{conditions_are_tests, safety_is_a_test};
pub use machine::{Act, Invariant, Machine, Operation, Pattern, Place, Step};
pub use naming::well_formed;
pub use sync_base::{OpMode, Strategy};
