//! What an exchange stands on, and what places ask for.
ghost use Rattle.std.specs.Prelude.{◌≡◌, pos};
ghost use Rattle.sync_terms.specs.Maps as maps;
ghost use Rattle.sync_machine.specs.States as states;
ghost use Rattle.sync_join.specs.Join as shards;
ghost use Rattle.sync_exchange.specs.Works as works;

use crate::changes::Change;
use crate::scopes::Outer;
use std::alloc::Global;
use sync_join::Token;
use sync_machine::Machine;

/// The allocator, a machine, what symbols stand for before the first slot, and the names said slot by slot.
#[derive(Clone, Copy)]
pub(crate) struct Case<'a> {
    pub alloc: Global,
    pub m: &'a Machine,
    pub outer: Outer<'a>,
    pub tokens: &'a [u32],
    pub given: &'a [u32],
}

/// The key and the value that a place asks for.
#[derive(Clone, Copy, PartialEq, Eq, Debug)]
pub(crate) struct Asked {
    pub key: i128,
    pub value: i128,
}

impl Asked {
    /// A token of a field with this key and this value.
    pub(crate) fn token(self, field: u32) -> Token
        ensures { result ≡ record { field = field; key = self.key; value = self.value } }
    {
        Token {
            field,
            key: self.key,
            value: self.value,
        }
    }

    /// That a record has this key with this value.
    pub(crate) fn entry(self) -> Change
        ensures { (old : states.Value) → works.changed result old ≡ states.Mapped (maps.put (shards.entries_of old) self.key self.value) }
    {
        Change::Put(self.key, self.value)
    }

    /// That a record has this key.
    pub(crate) fn element(self) -> Change
        ensures { (old : states.Value) → works.changed result old ≡ states.Mapped (maps.put (shards.entries_of old) self.key (pos 1)) }
    {
        Change::Put(self.key, 1)
    }

    /// That a record becomes this value.
    pub(crate) fn mark(self) -> Change
        ensures { (old : states.Value) → works.changed result old ≡ states.Number self.value }
    {
        Change::Number(self.value)
    }
}
