//! Proof statements of programs, and what they are made of.
use crate::operands::RawNumber;
use sqlite_items::Items;
use sync_parse::{RawPlace, RawScript};
use sync_parse_exprs::{RawExpr, RawName};

/// A token's form: a field, none for `perm`, and its place; the line is that of the field or of `perm`.
#[derive(Drop)]
pub struct RawShape {
    pub field: Option<RawName>,
    pub place: RawPlace,
    pub line: u32,
}

/// A token by its name; in the start also a permission of a cell, by the cell's name and its number there.
#[derive(Clone, Copy)]
pub struct RawToken {
    pub name: RawName,
    pub at: Option<u128>,
}

/// An operation with its arguments, the tokens that it takes and gives, and its label.
#[derive(Drop)]
pub struct RawDoForm {
    pub operation: RawName,
    pub args: Items<RawExpr>,
    pub tokens: Items<RawToken>,
    pub given: Items<RawName>,
    pub label: Option<RawName>,
    pub scripts: Items<RawScript>,
}

/// The values of a word's `with` names, and a token for each of its clauses, or `no`.
#[derive(Drop)]
pub struct RawClosing {
    pub args: Items<RawExpr>,
    pub tokens: Items<Option<RawToken>>,
    pub scripts: Items<RawScript>,
}

#[derive(Drop)]
pub struct RawLet {
    pub name: RawName,
    pub value: RawExpr,
}

#[derive(Drop)]
pub struct RawSplit {
    pub token: RawName,
    pub first: RawName,
    pub second: RawName,
    pub amount: RawExpr,
    pub scripts: Items<RawScript>,
}

#[derive(Clone, Copy)]
pub struct RawMerge {
    pub first: RawName,
    pub second: RawName,
    pub given: RawName,
}

#[derive(Clone, Copy)]
pub struct RawCopy {
    pub token: RawName,
    pub given: RawName,
}

#[derive(Clone, Copy)]
pub struct RawMove {
    pub token: RawToken,
    pub given: RawName,
}

#[derive(Drop)]
pub struct RawAssert {
    pub form: RawExpr,
    pub label: Option<RawName>,
    pub scripts: Items<RawScript>,
}

/// A proof statement that may stand in the start, in a proof block and among statements.
#[derive(Drop)]
pub enum RawPlainProof {
    Let(RawLet),
    Do(RawDoForm),
    Split(RawSplit),
    Merge(RawMerge),
    Copy(RawCopy),
    Move(RawMove),
    Assert(RawAssert),
}

/// `open`, with the names of the word's values and of its tokens.
#[derive(Drop)]
pub struct RawOpen {
    pub names: Items<RawName>,
    pub tokens: Items<RawName>,
    pub label: Option<RawName>,
}

/// `case`, with the clause's number; the name of its token, or none for `no`.
#[derive(Drop)]
pub struct RawCase {
    pub clause: u128,
    pub yes: Option<RawName>,
    pub scripts: Items<RawScript>,
}

#[derive(Drop)]
pub enum RawProofKind {
    Plain(RawPlainProof),
    Open(RawOpen),
    Case(RawCase),
    Close(RawClosing),
    Still(Items<RawScript>),
}

/// A statement of a proof block, with the line of its first terminal.
#[derive(Drop)]
pub struct RawProofStatement {
    pub what: RawProofKind,
    pub line: u32,
}

#[derive(Drop)]
pub struct RawSeal {
    pub word: RawName,
    pub at: u128,
    pub closing: RawClosing,
}

#[derive(Drop)]
pub struct RawGive {
    pub thread: RawName,
    pub args: Items<RawExpr>,
    pub scripts: Items<RawScript>,
}

#[derive(Drop)]
pub enum RawStartKind {
    Plain(RawPlainProof),
    Seal(RawSeal),
    Give(RawGive),
}

/// A statement of the start, with the line of its first terminal.
#[derive(Drop)]
pub struct RawStartStatement {
    pub what: RawStartKind,
    pub line: u32,
}

/// A token that a keep names, with its form.
#[derive(Drop)]
pub struct RawKeepLine {
    pub name: RawName,
    pub shape: RawShape,
}

/// A formula that a keep states, with the line of `fact`.
#[derive(Drop)]
pub struct RawKeepFact {
    pub form: RawExpr,
    pub label: Option<RawName>,
    pub line: u32,
}

/// What is known at a place, with the line of its first bracket.
#[derive(Drop)]
pub struct RawKeep {
    pub names: Items<RawName>,
    pub lines: Items<RawKeepLine>,
    pub facts: Items<RawKeepFact>,
    pub line: u32,
}

/// A clause of a word, with the line of `holds`.
#[derive(Drop)]
pub struct RawClause {
    pub shape: RawShape,
    pub guard: Option<RawExpr>,
    pub line: u32,
}

/// An array of words, with the line of `word`.
#[derive(Drop)]
pub struct RawWord {
    pub name: RawName,
    pub length: RawNumber,
    pub value: RawNumber,
    pub with: Option<Items<RawName>>,
    pub clauses: Items<RawClause>,
    pub fact: Option<RawExpr>,
    pub line: u32,
}

/// An array of cells, with the line of `cell`.
#[derive(Clone, Copy)]
pub struct RawCell {
    pub name: RawName,
    pub length: RawNumber,
    pub value: RawNumber,
    pub line: u32,
}

#[derive(Drop)]
pub enum RawDeclaration {
    Word(RawWord),
    Cell(RawCell),
}
