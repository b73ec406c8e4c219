//! What is known at a place of a thread: what symbols stand for, the tokens at hand, the facts; and what is shown there.
#![tactic(auto)]

mod clearing;
mod dues;
mod hands;
mod marks;
mod naming;
mod places;
mod renewing;

pub use clearing::is_clear;
pub use dues::{Scripts, form_made, literal, made, name_of, refused, spare, wants};
pub use hands::{Hand, Token};
pub use marks::Mark;
pub use places::{NamedToken, Place, PlaceMark};
