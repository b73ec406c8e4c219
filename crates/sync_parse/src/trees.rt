//! What a text says, with names as numbers and a line wherever a rule on names or limits may want one.
use crate::scripts::RawScript;
use sqlite_items::Items;
use sync_base::{NameList, OpMode, Strategy};
use sync_parse_exprs::{RawExpr, RawName};

/// A machine and its proofs, and the names of the text.
#[derive(Debug, Drop)]
pub struct RawText {
    pub machine: RawMachine,
    pub proofs: Items<RawProof>,
    pub names: NameList,
}

/// A machine; the line is that of `machine`.
#[derive(Debug, Drop)]
pub struct RawMachine {
    pub name: RawName,
    pub fields: Items<RawField>,
    pub operations: Items<RawOperation>,
    pub invariants: Items<RawInvariant>,
    pub line: u32,
}

/// A field; the line is that of `field`.
#[derive(Clone, Copy, PartialEq, Eq, Debug)]
pub struct RawField {
    pub name: RawName,
    pub strategy: Strategy,
    pub line: u32,
}

/// An operation; the line is that of its first terminal.
#[derive(Debug, Drop)]
pub struct RawOperation {
    pub mode: OpMode,
    pub name: RawName,
    pub params: Items<RawName>,
    pub steps: Items<RawStep>,
    pub line: u32,
}

/// A statement of an operation; the line is that of its first terminal.
#[derive(Debug, Drop)]
pub struct RawStep {
    pub what: RawAct,
    pub line: u32,
}

/// What a statement does. The name is that of a field.
#[derive(Debug, Drop)]
pub enum RawAct {
    Init(RawName, RawExpr),
    Require(RawExpr),
    Assert(RawExpr),
    Update(RawName, RawExpr),
    /// `have f;`
    HaveVariable(RawName),
    Have(RawName, RawPlace),
    Guard(RawName, RawPlace),
    Add(RawName, RawPlace),
    Deposit(RawName, RawPlace),
    Remove(RawName, RawPlace),
    Withdraw(RawName, RawPlace),
}

/// What a statement says of a field: a value, a key, or a key with a value.
#[derive(Debug, Drop)]
pub enum RawPlace {
    /// `(v)`
    Value(RawPattern),
    /// `[k]`
    Key(RawExpr),
    /// `[k => v]`
    Entry(RawExpr, RawPattern),
}

/// A value: `?v`, a name that is bound to it, or a term.
#[derive(Debug, Drop)]
pub enum RawPattern {
    Bind(RawName),
    Term(RawExpr),
}

/// An invariant; the line is that of `invariant`.
#[derive(Debug, Drop)]
pub struct RawInvariant {
    pub name: RawName,
    pub params: Items<RawName>,
    pub form: RawExpr,
    pub line: u32,
}

/// A proof of an obligation of the named operation; the line is that of this name.
#[derive(Debug, Drop)]
pub struct RawProof {
    pub operation: RawName,
    pub claim: RawClaim,
    pub script: RawScript,
}

/// What is proved of an operation.
#[derive(Clone, Copy, PartialEq, Eq, Debug)]
pub enum RawClaim {
    /// It keeps the named invariant.
    Keeps(RawName),
    /// The safety condition of its statement with this number, from 1; 4,294,967,295 stands for all numbers from there on.
    At(u32),
}
