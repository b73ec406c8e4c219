//! Exchanges, and what they leave.
ghost use Rattle.sync_machine.specs.Views.{HasOwnIds};

use crate::machines::{
    COUNT, ENTRIES, FETCH, LATE, MARKS, PAY, RAISE, TALLY, TRADE, TWICE, VARIABLE, ZERO,
};
use crate::shards::{Shards, print_shards};
use sqlite_items::Items;
use std::alloc::{AllocError, Global};
use std::io;
use sync_base::NoMemory;
use sync_exchange::{Bound, Held, Names, XStop, exchange};
use sync_join::{Entries, State, Token, Value};
use sync_machine::Machine;

/// A call: the number of the operation, its arguments, what is held, and the names that are said slot by slot.
#[derive(Clone, Copy)]
struct Call {
    title: &'static str,
    op: u32,
    args: &'static [i128],
    held: &'static [Held],
    tokens: &'static [u32],
    given: &'static [u32],
}

const CALLS: [Call; 10] = [
    Call {
        title: "a trade",
        op: TRADE,
        args: &[7],
        held: &[
            Held {
                name: 10,
                token: Token {
                    field: VARIABLE,
                    key: 0,
                    value: 4,
                },
            },
            Held {
                name: 11,
                token: Token {
                    field: ENTRIES,
                    key: 7,
                    value: 9,
                },
            },
        ],
        tokens: &[10, 11],
        given: &[12, 13],
    },
    Call {
        title: "one token twice",
        op: TWICE,
        args: &[7],
        held: &[Held {
            name: 10,
            token: Token {
                field: ENTRIES,
                key: 7,
                value: 1,
            },
        }],
        tokens: &[10, 10],
        given: &[],
    },
    Call {
        title: "another key",
        op: TWICE,
        args: &[7],
        held: &[
            Held {
                name: 10,
                token: Token {
                    field: ENTRIES,
                    key: 7,
                    value: 1,
                },
            },
            Held {
                name: 11,
                token: Token {
                    field: ENTRIES,
                    key: 8,
                    value: 1,
                },
            },
        ],
        tokens: &[10, 11],
        given: &[],
    },
    Call {
        title: "a withdrawal",
        op: FETCH,
        args: &[3],
        held: &[],
        tokens: &[],
        given: &[10],
    },
    Call {
        title: "one of another key",
        op: FETCH,
        args: &[4],
        held: &[],
        tokens: &[],
        given: &[10],
    },
    Call {
        title: "another amount",
        op: PAY,
        args: &[],
        held: &[Held {
            name: 10,
            token: Token {
                field: COUNT,
                key: 0,
                value: 5,
            },
        }],
        tokens: &[10],
        given: &[],
    },
    Call {
        title: "a false require",
        op: ZERO,
        args: &[],
        held: &[Held {
            name: 10,
            token: Token {
                field: VARIABLE,
                key: 0,
                value: 1,
            },
        }],
        tokens: &[10],
        given: &[],
    },
    Call {
        title: "a sum that is too large",
        op: RAISE,
        args: &[],
        held: &[Held {
            name: 10,
            token: Token {
                field: VARIABLE,
                key: 0,
                value: i128::MAX,
            },
        }],
        tokens: &[10],
        given: &[],
    },
    Call {
        title: "a failure behind a withdrawal",
        op: LATE,
        args: &[],
        held: &[Held {
            name: 10,
            token: Token {
                field: COUNT,
                key: 0,
                value: 5,
            },
        }],
        tokens: &[10],
        given: &[],
    },
    Call {
        title: "a tally",
        op: TALLY,
        args: &[],
        held: &[],
        tokens: &[],
        given: &[],
    },
];

/// The names of a call.
fn names_of(alloc: Global, call: Call) -> Result<Names, AllocError> {
    Ok(Names {
        tokens: Items::from_slice(alloc, call.tokens)?,
        given: Items::from_slice(alloc, call.given)?,
    })
}

/// Prints the values that an exchange binds, or why it does not happen.
fn print_answer(rt: &HostRuntime, answer: Result<Bound, XStop>) -> io::Result<()> {
    match answer {
        Ok(bound) => print!(rt; "Ok({:?});", bound.values.as_slice()),
        Err(stop) => print!(rt; "Err({stop:?});"),
    }
}

/// Makes a call, and prints what it answers, and what is held and kept then.
fn print_call(rt: &HostRuntime, m: &Machine, whole: &State, call: Call) -> io::Result<()>
    requires { HasOwnIds m.now }
{
    let alloc = rt.alloc();
    print!(rt; "{}: ", call.title)?;
    if call.op as usize >= m.ops.len() {
        return println!(rt; "no operation");
    }
    let Ok(names) = names_of(alloc, call) else {
        return println!(rt; "no memory");
    };
    let Ok(mut shards) = Shards::new(alloc, call.held) else {
        return println!(rt; "no memory");
    };
    let Shards { hand, rest } = &mut shards;
    let answer = exchange(
        alloc,
        m,
        call.op,
        call.args,
        &names,
        Some(whole),
        hand,
        rest,
    );
    print_answer(rt, answer)?;
    print_shards(rt, &shards)
}

/// A state in which the map has 1 at 1 and at 2, and all else is 0 or empty.
fn state(alloc: Global) -> Result<State, NoMemory> {
    let mut map = Entries::new(alloc);
    map.put(1, 1)?;
    map.put(2, 1)?;
    let mut values = Items::new(alloc);
    values.push(Value::Map(map))?;
    values.push(Value::Map(Entries::new(alloc)))?;
    for _ in 2..MARKS {
        values.push(Value::Number(0))?;
    }
    values.push(Value::Map(Entries::new(alloc)))?;
    Ok(State { values })
}

/// Prints what exchanges answer and leave.
pub(crate) fn print_exchanges(rt: &HostRuntime, m: &Machine) -> io::Result<()>
    requires { HasOwnIds m.now }
{
    let Ok(whole) = state(rt.alloc()) else {
        return println!(rt; "no memory");
    };
    for call in CALLS {
        print_call(rt, m, &whole, call)?;
    }
    Ok(())
}
