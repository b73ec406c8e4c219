//! Statements, threads and programs.
use crate::operands::{
    RawCalculation, RawChange, RawCondition, RawIndex, RawOperand, RawWordOperation,
};
use crate::proof_statements::{
    RawDeclaration, RawDoForm, RawKeep, RawPlainProof, RawProofStatement, RawStartStatement,
};
use sqlite_items::Items;
use sync_parse::RawScript;
use sync_parse_exprs::{RawExpr, RawName};

/// A word operation with its label.
#[derive(Drop)]
pub struct RawAtomic {
    pub operation: RawWordOperation,
    pub label: Option<RawName>,
}

/// `store` with its label.
#[derive(Drop)]
pub struct RawStore {
    pub change: RawChange,
    pub label: Option<RawName>,
}

/// A cell that is read, with the name of its permission.
#[derive(Drop)]
pub struct RawRead {
    pub cell: RawName,
    pub index: RawIndex,
    pub permission: RawName,
    pub scripts: Items<RawScript>,
}

/// A cell that is read through a property with a guard.
#[derive(Drop)]
pub struct RawPeek {
    pub cell: RawName,
    pub index: RawIndex,
    pub via: RawDoForm,
}

/// A cell that is written, with the name of its permission.
#[derive(Drop)]
pub struct RawWrite {
    pub cell: RawName,
    pub index: RawIndex,
    pub operand: RawOperand,
    pub permission: RawName,
    pub scripts: Items<RawScript>,
}

/// What a jump gives to its keep.
#[derive(Drop)]
pub struct RawJump {
    pub args: Items<RawExpr>,
    pub scripts: Items<RawScript>,
}

/// Statements in braces, with the line of the closing one.
#[derive(Drop)]
#[cycle(statements)]
pub struct RawList {
    pub statements: Items<RawStatement>,
    pub end_line: u32,
}

#[derive(Drop)]
#[cycle(statements)]
pub struct RawIf {
    pub condition: RawCondition,
    pub label: Option<RawName>,
    pub yes: RawList,
    pub no: RawList,
    pub joined: Option<RawKeep>,
}

/// A loop; the line is that of `from`.
#[derive(Drop)]
#[cycle(statements)]
pub struct RawLoop {
    pub keep: RawKeep,
    pub from_line: u32,
    pub args: Items<RawExpr>,
    pub scripts: Items<RawScript>,
    pub body: RawList,
    pub after: Option<RawKeep>,
}

/// What an atomic statement does for each outcome of a condition.
#[derive(Drop)]
#[cycle(statements)]
pub struct RawWhen {
    pub condition: RawCondition,
    pub label: Option<RawName>,
    pub yes_proof: Items<RawProofStatement>,
    pub yes: RawList,
    pub no_proof: Items<RawProofStatement>,
    pub no: RawList,
    pub joined: Option<RawKeep>,
}

/// How an atomic statement ends: without a proof block, with one, or with one for each outcome of a condition.
#[derive(Drop)]
#[cycle(statements)]
pub enum RawTail {
    Plain,
    Block(Items<RawProofStatement>),
    When(RawWhen),
}

/// What a local is given.
#[derive(Drop)]
#[cycle(statements)]
pub enum RawRightSide {
    Atomic(RawAtomic, RawTail),
    Read(RawRead),
    Peek(RawPeek),
    Calculated(RawCalculation, Option<RawName>),
}

#[derive(Drop)]
#[cycle(statements)]
pub enum RawStatementKind {
    Store(RawStore, RawTail),
    Write(RawWrite),
    Print(RawName, RawOperand),
    If(RawIf),
    Loop(RawLoop),
    Next(RawJump),
    Break(RawJump),
    Meet(RawJump),
    End(RawJump),
    Proof(RawPlainProof),
    Assign(RawName, RawRightSide),
}

/// A statement, with the line of its first terminal.
#[derive(Drop)]
#[cycle(statements)]
pub struct RawStatement {
    pub what: RawStatementKind,
    pub line: u32,
}

/// The start, with the line of `start`.
#[derive(Drop)]
pub struct RawStart {
    pub form: RawDoForm,
    pub statements: Items<RawStartStatement>,
    pub line: u32,
}

/// A thread, with the line of `thread`.
#[derive(Drop)]
pub struct RawThread {
    pub name: RawName,
    pub takes: RawKeep,
    pub ends: RawKeep,
    pub body: RawList,
    pub line: u32,
}

/// A program, with the line of `program`.
#[derive(Drop)]
pub struct RawProgram {
    pub declarations: Items<RawDeclaration>,
    pub start: RawStart,
    pub threads: Items<RawThread>,
    pub last: Option<RawList>,
    pub line: u32,
}
