//! What becomes of records.
ghost use Rattle.std.specs.Prelude.{◌≡◌, ◌<◌, List, map, length, slice_index_or, IfOk};
ghost use Rattle.sync_join.specs.declared.values.Value.{Value as Recorded};
ghost use Rattle.sync_join.specs.Join as shards;
ghost use Rattle.sync_join.specs.Views.{value_tree};
ghost use Rattle.sync_exchange.specs.Works as works;

use sqlite_items::Items;
use std::alloc::Global;
use sync_base::NoMemory;
use sync_join::{Entries, Value};

/// What becomes of a record: another number, another map, or one more entry.
#[derive(Drop)]
pub(crate) enum Change {
    Number(i128),
    Map(Entries),
    Put(i128, i128),
}

/// What becomes of a field's record.
#[derive(Drop)]
pub(crate) struct Recording {
    pub field: u32,
    pub change: Change,
}

impl Change {
    /// The changed record.
    fn of(&self, alloc: Global, recorded: &Value) -> Result<Value, NoMemory>
        ensures { IfOk result (λ v. value_tree v ≡ works.changed self.now (value_tree recorded.now)) }
    {
        match self {
            Change::Number(n) => Ok(Value::Number(*n)),
            Change::Map(entries) => Ok(Value::Map(entries.copy()?)),
            Change::Put(key, value) => {
                let mut entries = entries_of(alloc, recorded)?;
                entries.put(*key, *value)?;
                Ok(Value::Map(entries))
            }
        }
    }
}

/// A copy of a record's map; that of a number is empty.
fn entries_of(alloc: Global, recorded: &Value) -> Result<Entries, NoMemory>
    ensures { IfOk result (λ m. m ≡ shards.entries_of (value_tree recorded.now)) }
{
    match recorded {
        Value::Map(entries) => entries.copy(),
        Value::Number(_) => Ok(Entries::new(alloc)),
    }
}

/// The records that changes replace, one place for each record.
pub(crate) fn made(
    alloc: Global,
    records: &[Value],
    changes: &[Recording],
) -> Result<Items<Option<Value>>, NoMemory>
    ensures changes { IfOk result (λ ns. map value_tree (works.laid_over ns records.now) ≡ works.recorded changes.now (map value_tree records.now)) }
    ensures len { IfOk result (λ ns. length ns ≡ length records.now) }
{
    let mut news = unchanged(alloc, records.len())?;
    for r in changes {
        let at = r.field as usize;
        if at >= records.len() {
            continue;
        }
        let value = r.change.of(alloc, latest(news.as_slice(), records, at))?;
        news.set(at, Some(value));
    }
    Ok(news)
}

/// As many places without a new record.
fn unchanged(alloc: Global, count: usize) -> Result<Items<Option<Value>>, NoMemory>
    ensures none { IfOk result (λ ns. (vs : List Recorded) → works.laid_over ns vs ≡ vs) }
    ensures len { IfOk result (λ ns. length ns ≡ count) }
{
    let mut news = Items::new(alloc);
    for _ in 0..count {
        news.push(None)?;
    }
    Ok(news)
}

/// The record at a place: the new one, or else the old one.
fn latest<'a>(news: &'a [Option<Value>], records: &'a [Value], at: usize) -> &'a Value
    requires old { at < length records.now }
    requires new { at < length news.now }
    ensures { (d : Recorded) → result.now ≡ slice_index_or (works.laid_over news.now records.now) at d }
{
    match &news[at] {
        Some(value) => value,
        None => &records[at],
    }
}

/// Replaces records.
pub(crate) fn settle(records: &mut Items<Value>, news: Items<Option<Value>>)
    requires { length news ≡ length records.old }
    ensures { records.new ≡ works.laid_over news records.old }
{
    let mut left = news;
    while let Some(new) = left.pop() {
        if let Some(value) = new {
            records.set(left.len(), value);
        }
    }
}
