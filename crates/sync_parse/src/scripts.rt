//! Proof scripts.
use sqlite_items::Items;
use sync_parse_exprs::{RawExpr, RawName, Special};

/// `by` and a block, with the line of `by`.
#[derive(Debug, Drop)]
pub struct RawScript {
    pub block: RawBlock,
    pub line: u32,
}

/// The steps between two braces, with the line of the closing one.
#[derive(Debug, Drop)]
#[cycle(scripts)]
pub struct RawBlock {
    pub steps: Items<RawScriptStep>,
    pub end_line: u32,
}

/// A step, with the line of its first terminal.
#[derive(Debug, Drop)]
#[cycle(scripts)]
pub struct RawScriptStep {
    pub what: RawStepKind,
    pub line: u32,
}

/// What a step does. The last name of a step, and the second last of `Parts`, are given by it.
#[derive(Debug, Drop)]
#[cycle(scripts)]
pub enum RawStepKind {
    Same,
    Sum(Items<RawPart>),
    Inst(RawHypName, Items<RawExpr>, RawName),
    Parts(RawHypName, RawName, RawName),
    Split(RawHypName, RawName, RawBlock, RawBlock),
    Cut(RawExpr, RawName, RawBlock),
    Read(RawExpr, RawExpr, RawName),
    Size(RawExpr, RawExpr, RawName),
    Total(RawExpr, RawExpr, RawName),
    Cong(RawExpr, RawExpr, RawExpr, RawName),
}

/// One part of a `sum`: a number times a hypothesis.
#[derive(Clone, Copy, PartialEq, Eq, Debug)]
pub struct RawPart {
    pub times: i128,
    pub hyp: RawHypName,
}

/// How a script names a hypothesis.
#[derive(Clone, Copy, PartialEq, Eq, Debug)]
pub enum RawHypName {
    Denied,
    Label(RawName),
    /// The condition of the statement with this number, from 1; 4,294,967,295 stands for all numbers from there on.
    At(u32),
    Low(RawSubject),
    High(RawSubject),
}

/// What `low` and `high` speak of.
#[derive(Clone, Copy, PartialEq, Eq, Debug)]
pub enum RawSubject {
    Name(RawName),
    /// `old`, `new` or `wrap`, with its line.
    Special(Special, u32),
}
