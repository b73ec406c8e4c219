//! What the names of a text stand for at a place, and its expressions as terms and formulas of a store, with the first
//! rule of names, sorts and limits that is broken.
#![tactic(auto)]

mod exprs;
mod scopes;

pub use exprs::{form_of, term_of};
pub use scopes::{
    Meaning, Owner, Owners, Scope, Sight, Sort, broken, refused, symbol_of, with_flag,
};
