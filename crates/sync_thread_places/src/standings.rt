//! Where a thread stands between its events.

/// A form round a list of statements: its number in its own list, and through which of its lists the way goes.
#[derive(Clone, Copy, PartialEq, Eq, Debug)]
pub struct Hop {
    pub at: usize,
    pub second: bool,
}

/// Where a thread stands, and its locals.
#[derive(Drop)]
pub struct Standing {
    /// It waits before a shared step; else it has not begun, or has ended.
    pub waits: bool,
    /// The forms round the list in which it waits are the first `depth` of these, outermost first.
    pub hops: Vec<Hop>,
    pub depth: usize,
    /// The step's number in its list.
    pub at: usize,
    /// The locals by their numbers. Those past the end are 0.
    pub locals: Vec<u64>,
}

/// How a list of statements ends.
#[derive(Clone, Copy, PartialEq, Eq, Debug)]
pub enum Outcome {
    /// Before a shared step.
    Waits,
    Next,
    Break,
    End,
    /// Nothing is left of it.
    Over,
    /// It cannot go on.
    Stuck,
}
