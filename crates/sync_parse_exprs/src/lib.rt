//! Terminals of a text one after the other, and expressions, with the rule that is broken first.
#![tactic(auto)]

mod expr_reader;
mod expressions;
mod faults;
mod raw_names;
mod terminals;

pub use expr_reader::{expr, exprs, signed};
pub use expressions::{Function, Operator, RawExpr, RawExprKind, Special};
pub use faults::{Fault, Halt};
pub use raw_names::RawName;
pub use terminals::{
    Read, begins_with, deep, first_line, goes_on, name, names, next, number, sign, strategy, wanted,
};
