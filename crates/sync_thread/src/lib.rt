//! Programs of threads over words and cells: their trees, and what the program that runs without tokens does.
#![tactic(auto)]

mod laws;
mod operands;
mod program;

pub use laws::{
    Ruled, events_rest, logs_are_cut, schedules_go_on, schedules_rest, steps_are_alone, steps_tell,
};
pub use operands::{Calc, CodeDecl, Cond, Line, Moved, Opd, Rel, Tok, WordOp};
pub use program::{
    Atomic, CaseForm, Cell, Clause, Closing, Code, CodeStmt, CodeThread, Decl, DoForm, Idx, Keep,
    KeepFact, KeepLine, List, Program, ProofKind, ProofStmt, Shape, Start, Stmt, StmtKind, Tail,
    Thread, When, Word,
};
