//! From the raw tree of a program to its plain tree over a machine: what each name stands for, with the first rule N that
//! is broken.
#![tactic(auto)]

mod declarations;
mod keeps;
mod operands;
mod programs;
mod proof_statements;
mod scopes;
mod shapes;
mod statements;

pub use programs::program;
pub use scopes::{
    Aims, Call, Declared, Entrance, ProgramScope, Purpose, Room, Standing, WordCounts, scope_behind,
};
