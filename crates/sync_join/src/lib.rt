//! Shards of a state: tokens and the records that are kept beside them, and the state that they are the shards of.
#![tactic(auto)]

mod joining;
mod laws;
mod parts;
mod sums;
mod tokens;
mod values;

pub use joining::join;
pub use laws::{bag_order, other_fields};
pub use parts::map_of_tokens;
pub use sums::JoinStop;
pub use sync_entries::Entries;
pub use tokens::{Bag, PERM, Rest, Token};
pub use values::{State, Value};
