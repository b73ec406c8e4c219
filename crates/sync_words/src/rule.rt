//! What a seat knows, and the rule that the table keeps between any two steps.
ghost use Rattle.std.specs.Prelude.{ℕ};

use crate::entries::Entry;
use atomic_table::TableRule;
use std::collections::LinkedList;

/// What a seat knows. It is plain data of proofs, and no value of it is made.
pub struct View {
    /// The first words of the table.
    pub words: LinkedList<u64>,
    /// The table's thread numbers are those below this.
    pub threads: u32,
    /// The seat's thread numbers.
    pub numbers: LinkedList<u32>,
    /// The entries of these numbers up to the seat's last split or merge. Each number's stand in its order.
    pub past: LinkedList<Entry>,
    /// The entries that the seat made since then, in the order in which it made them.
    pub since: LinkedList<Entry>,
}

/// What the table is told once, when it is made.
#[derive(Drop)]
pub struct About {
    pub words: Vec<u64>,
    pub threads: u32,
}

pub struct Law;

impl TableRule<u8, View, About> for Law {
    ghost use Rattle.sync_words.specs.Rule.{Kept};
    ghost use Rattle.sync_words.specs.Views.{opened};

    ghost holds = { λ about s. Kept about.words.items about.threads s };

    ghost first = { λ about. opened about.words.items about.threads };
}
