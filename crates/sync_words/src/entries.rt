//! What a step on the table leaves on record.

/// What a step did to its word. The old value is what the step found there; a store finds nothing.
#[derive(Clone, Copy, PartialEq, Eq, Debug)]
pub enum Operation {
    /// The old value.
    Load(u64),
    /// The new value.
    Store(u64),
    /// The new value and the old one.
    Swap(u64, u64),
    /// What was added, and the old value.
    Add(u64, u64),
    /// What was taken off, and the old value.
    Sub(u64, u64),
    /// The value that was asked for, the new value and the old one.
    Cas(u64, u64, u64),
}

/// One step: the thread that made it, its word (from 0) and what it did there. Only proofs make entries.
#[derive(Clone, Copy, PartialEq, Eq, Debug)]
pub struct Entry {
    pub thread: u32,
    pub word: usize,
    pub operation: Operation,
}
