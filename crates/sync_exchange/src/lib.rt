//! Operations of a machine done locally, on the tokens that one holder has, and lists of them by any holders.
#![tactic(auto)]

mod cases;
mod changes;
mod evaluation;
mod exchanging;
mod hands;
mod laws;
mod moves;
mod scopes;
mod splitting;
mod statements;
mod works;

pub use exchanging::exchange;
pub use hands::{Bound, Hand, Held, Names, XStop};
pub use laws::{
    bound_alone, copy_keeps, exchanges_are_starts, exchanges_are_steps, merge_keeps,
    plain_operations_read_no_state, split_keeps,
};
pub use moves::{moves_are_steps, names_stay_apart, starts_go_on};
pub use splitting::{copy_token, merge_tokens, split_token};
