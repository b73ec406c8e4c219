//! Values of fields, and states.
ghost use Rattle.std.specs.Prelude.{◌≡◌, IfOk};

use sqlite_items::Items;
use sync_base::NoMemory;
use sync_entries::Entries;

/// The value of a field: a number, or a finite map from numbers to numbers.
#[derive(Drop)]
pub enum Value {
    Number(i128),
    Map(Entries),
}

/// A state: a value for each field, in the order of declaration.
#[derive(Drop)]
pub struct State {
    pub values: Items<Value>,
}

impl Value {
    /// The same value once more.
    pub fn copy(&self) -> Result<Value, NoMemory>
        ensures { IfOk result (λ v. v ≡ self.now) }
    {
        match self {
            Value::Number(n) => Ok(Value::Number(*n)),
            Value::Map(entries) => Ok(Value::Map(entries.copy()?)),
        }
    }
}
