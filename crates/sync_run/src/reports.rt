//! What a run tells.

use sync_thread::Line;

/// How a run ended.
#[derive(Clone, Copy, PartialEq, Eq, Debug)]
pub enum Ended {
    /// All threads have ended, and the final block has.
    All,
    /// The first that has not ended; it has used its budget. The final block has the number of threads.
    Budget(u32),
}

/// What a run printed, how many steps each has made (the final block last), and the words and cells that it left.
#[derive(Drop)]
pub struct Report {
    pub ended: Ended,
    pub lines: Vec<Line>,
    pub steps: Vec<u64>,
    pub words: Vec<u64>,
    pub cells: Vec<u64>,
}
