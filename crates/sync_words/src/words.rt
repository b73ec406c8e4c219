//! The table, which owns the words.
ghost use Rattle.std.specs.Prelude.{◌≡◌, ◌<◌, length};

use crate::rule::{About, Law, View};
use atomic_table::Table;
use std::alloc::Global;

/// A table of atomic words. Each step takes a seat and the number of the thread that makes it.
#[derive(Drop)]
pub struct Words {
    pub(crate) table: Table<u8, View, About, Law, Global>,
    ghost some: { 0 < table.shared.table_id.words },
    ghost sized: { table.shared.table_id.words ≡ length table.shared.key.words.items },
    ghost bare: { table.shared.table_id.slots ≡ 0 },
}
