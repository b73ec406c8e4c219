//! Facts of proofs: what they say, those of a branch by their names, and formulas on maps that are true whatever their
//! symbols stand for.
#![tactic(auto)]

mod branches;
mod drafts;
mod laws;
mod lemmas;
mod literals;
mod sequents;
mod trails;

pub use branches::{Branch, Held, Known, Said};
pub use laws::facts_are_true;
pub use lemmas::{cong_fact, read_fact, size_fact, total_fact};
pub use literals::Literal;
pub use sequents::{Hyp, Sequent};
pub use trails::Trail;
