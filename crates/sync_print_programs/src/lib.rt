//! The canonical form of what stands in a program beside statements of threads: operands, keeps, proof statements.
#![tactic(auto)]

mod keeps;
mod lexemes;
mod lists;
mod operands;
mod proof_statements;

pub use keeps::{DeclarationItem, keep};
pub use lexemes::{name, sign};
pub use lists::{Repeated, args, in_row, label, scripts};
pub use operands::{calculated, condition, index, operand, stored, word_operation};
pub use proof_statements::{closing, do_form, in_squares_number, plain_proof, proof_block};
