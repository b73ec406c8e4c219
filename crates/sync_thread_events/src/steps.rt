//! Shared steps with their values, and where words and cells are.

/// What a step does to a word.
#[derive(Clone, Copy, PartialEq, Eq, Debug)]
pub enum WordStep {
    Load,
    Store(u64),
    Swap(u64),
    Add(u64),
    Sub(u64),
    /// The value that is asked for, and the new one.
    Cas(u64, u64),
}

/// A shared step: on a word or a cell by its number, or a line that is printed.
#[derive(Clone, Copy, PartialEq, Eq, Debug)]
pub enum SharedStep {
    Word(usize, WordStep),
    Read(usize),
    Write(usize, u64),
    Print(u32, u64),
}

/// The numbers of an array: the first one, and how many there are.
#[derive(Clone, Copy, PartialEq, Eq, Debug)]
pub struct Span {
    pub base: usize,
    pub len: u32,
}

/// The arrays of words and of cells, by their names.
#[derive(Drop)]
pub struct Spans {
    pub words: Vec<Option<Span>>,
    pub cells: Vec<Option<Span>>,
}
