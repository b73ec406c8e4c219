//! Proof scripts as trees, with a line for each step.
use crate::nodes::{FormId, TermId};
use sqlite_items::Items;

/// How a script names a hypothesis. A name stands for its newest hypothesis.
#[derive(Clone, Copy, PartialEq, Eq, PartialOrd, Ord, Hash, Debug)]
pub enum HypName {
    /// A name, by its number in the text's list.
    Label(u32),
    /// The negation of the claim.
    Denied,
    /// The condition of the statement with this number, from 1.
    At(u32),
    /// The lower bound of a symbol.
    Low(u32),
    /// The upper bound of a symbol.
    High(u32),
}

/// One part of a `sum`: a number times the line of a hypothesis.
#[derive(Clone, Copy, PartialEq, Eq, Debug)]
pub struct Part {
    pub times: i128,
    pub hyp: HypName,
}

/// `by` and a block, with the line of `by`.
#[derive(Debug, Drop)]
pub struct Script {
    pub block: Block,
    pub line: u32,
}

/// The steps between two braces, with the line of the closing one.
#[derive(Debug, Drop)]
#[cycle(script)]
pub struct Block {
    pub steps: Items<ScriptStep>,
    pub end_line: u32,
}

/// A step, with the line of its first lexeme.
#[derive(Debug, Drop)]
#[cycle(script)]
pub struct ScriptStep {
    pub what: StepKind,
    pub line: u32,
}

/// What a step does. The last number of a step is the name that it gives; `Parts` gives two.
#[derive(Debug, Drop)]
#[cycle(script)]
pub enum StepKind {
    Same,
    Sum(Items<Part>),
    Inst(HypName, Items<TermId>, u32),
    Parts(HypName, u32, u32),
    Split(HypName, u32, Block, Block),
    Cut(FormId, u32, Block),
    Read(TermId, TermId, u32),
    Size(TermId, TermId, u32),
    Total(TermId, TermId, u32),
    Cong(TermId, TermId, TermId, u32),
}
