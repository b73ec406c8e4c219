//! Programs: raw trees, the productions of their grammar as data, and reading all that has no statements in it.
#![tactic(auto)]

ghost use Rattle.sync_parse_programs.specs.Begun.{OneAheadDecides};

mod keep_reader;
mod lists;
mod operand_reader;
mod operands;
mod proof_reader;
mod proof_statements;
mod statements;

pub use keep_reader::{declaration, keep};
pub use lists::{args, label, scripts};
pub use operand_reader::{calculated, condition, index, operand, stored, word_operation};
pub use operands::{
    RawCalculation, RawCas, RawChange, RawCondition, RawIndex, RawLoad, RawNumber, RawOperand,
    RawRelation, RawWordOperation,
};
pub use proof_reader::{
    begins_plain_proof, closing, do_form, in_squares_number, plain_proof, proof_block,
};
pub use proof_statements::{
    RawAssert, RawCase, RawCell, RawClause, RawClosing, RawCopy, RawDeclaration, RawDoForm,
    RawGive, RawKeep, RawKeepFact, RawKeepLine, RawLet, RawMerge, RawMove, RawOpen, RawPlainProof,
    RawProofKind, RawProofStatement, RawSeal, RawShape, RawSplit, RawStartKind, RawStartStatement,
    RawToken, RawWord,
};
pub use statements::{
    RawAtomic, RawIf, RawJump, RawList, RawLoop, RawPeek, RawProgram, RawRead, RawRightSide,
    RawStart, RawStatement, RawStatementKind, RawStore, RawTail, RawThread, RawWhen, RawWrite,
};

/// One terminal ahead decides everywhere in statements, and in a program behind which nothing stands.
pub fn one_terminal_ahead_decides()
    ensures { OneAheadDecides }
{}
