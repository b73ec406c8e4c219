//! The proofs that a text gives of what has to be proved of its machine.
use crate::scripts::Script;
use sqlite_items::Items;

/// What an obligation claims of its operation.
#[derive(Clone, Copy, PartialEq, Eq, PartialOrd, Ord, Hash, Debug)]
pub enum Claim {
    /// The safety condition of the statement with this number, from 1.
    At(u32),
    /// The invariant with this number, from 0, is kept.
    Keeps(u32),
}

/// An obligation: its operation's number from 0, its claim, and its line.
#[derive(Clone, Copy, PartialEq, Eq, Debug)]
pub struct Obligation {
    pub op: u32,
    pub claim: Claim,
    pub line: u32,
}

/// A proof of an obligation: the operation's number from 0, what is claimed of it, the script, and the line of the
/// proof's first lexeme.
#[derive(Debug, Drop)]
pub struct Proof {
    pub op: u32,
    pub claim: Claim,
    pub script: Script,
    pub line: u32,
}

/// A text's proofs, in order.
#[derive(Debug, Drop)]
pub struct Proofs {
    pub list: Items<Proof>,
}
