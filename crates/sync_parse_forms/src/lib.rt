//! Grammars as data: what productions spell, how they are read and shown, and the laws of all of them at once.
#![tactic(auto)]

mod rows;
mod tests_ahead;

pub use rows::{ListItem, RowItem, in_list, in_row};
pub use tests_ahead::{begins_name, begins_number};
