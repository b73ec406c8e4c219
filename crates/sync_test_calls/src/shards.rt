//! What is held and kept in a call, and how it is printed.
use crate::machines::{STORE, field_name};
use sqlite_items::Items;
use std::alloc::Global;
use std::io;
use sync_base::NoMemory;
use sync_exchange::{Hand, Held};
use sync_join::{Entries, Rest, Token, Value};

/// The tokens of one holder, and what is kept beside all tokens.
#[derive(Drop)]
pub(crate) struct Shards {
    pub hand: Hand,
    pub rest: Rest,
}

/// A token of this name, field, key and value.
pub(crate) fn held(name: u32, field: u32, key: i128, value: i128) -> Held {
    let token = Token { field, key, value };
    Held { name, token }
}

/// The records of a map, a store, a count, a variable, a field without tokens, all 0, and a persistent map with 5 at 0.
fn records(alloc: Global) -> Result<Items<Value>, NoMemory> {
    let mut marks = Entries::new(alloc);
    marks.put(0, 5)?;
    let mut records = Items::new(alloc);
    for _ in 0..5 {
        records.push(Value::Number(0))?;
    }
    records.push(Value::Map(marks))?;
    Ok(records)
}

impl Shards {
    /// These tokens, the records of the start, and a stored object.
    pub(crate) fn new(alloc: Global, held: &[Held]) -> Result<Shards, NoMemory> {
        let held = Items::from_slice(alloc, held)?;
        let records = records(alloc)?;
        let object = Token {
            field: STORE,
            key: 3,
            value: 9,
        };
        let stored = Items::from_slice(alloc, &[object])?;
        Ok(Shards {
            hand: Hand { held },
            rest: Rest { records, stored },
        })
    }
}

/// Prints a token: its field, key and value.
fn print_token(rt: &HostRuntime, token: Token) -> io::Result<()> {
    print!(rt;
        "({}, {}, {})",
        field_name(token.field),
        token.key,
        token.value
    )
}

/// Prints tokens with their names.
pub(crate) fn print_hand(rt: &HostRuntime, held: &[Held]) -> io::Result<()> {
    print!(rt; " hand")?;
    for h in held {
        print!(rt; " {} ", h.name)?;
        print_token(rt, h.token)?;
    }
    Ok(())
}

/// Prints values: a number, or a map's number of keys and the sum of its values.
pub(crate) fn print_values(rt: &HostRuntime, values: &[Value]) -> io::Result<()> {
    for value in values {
        match value {
            Value::Number(n) => print!(rt; " {n}")?,
            Value::Map(map) => {
                print!(rt; " {{{} with sum {}}}", map.len(), map.sum().unwrap_or(0))?
            }
        }
    }
    Ok(())
}

/// Prints what is held and kept, and ends the line.
pub(crate) fn print_shards(rt: &HostRuntime, shards: &Shards) -> io::Result<()> {
    print_hand(rt, shards.hand.held.as_slice())?;
    print!(rt; "; records")?;
    print_values(rt, shards.rest.records.as_slice())?;
    print!(rt; "; stored")?;
    for token in shards.rest.stored.as_slice() {
        print!(rt; " ")?;
        print_token(rt, *token)?;
    }
    println!(rt; "")
}
