//! Tokens that are split, merged and copied.
ghost use Rattle.std.specs.Prelude.{◌≡◌};
ghost use Rattle.sync_exchange.specs.Exchange as exchanges;

use crate::machines::{COUNT, MARKS, VARIABLE};
use crate::shards::{Shards, held, print_hand, print_values};
use sqlite_items::Items;
use std::alloc::{AllocError, Global};
use std::io;
use sync_exchange::{Hand, Held, copy_token, merge_tokens, split_token};
use sync_join::{Bag, Token, join};
use sync_machine::Machine;

/// The token of this name, the first one where there are several.
fn token_of(held: &[Held], name: u32) -> Option<Token>
    ensures { result ≡ exchanges.held_as name held.now }
{
    for h in held {
        if name == h.name {
            return Some(h.token);
        }
    }
    None
}

/// Splits the token 10, if it has this amount, into tokens 11 and 12.
fn split(alloc: Global, m: &Machine, hand: &mut Hand, amount: i128) -> bool {
    let Some(token) = token_of(hand.held.as_slice(), 10) else {
        return false;
    };
    if amount < 0 || amount > token.value {
        return false;
    }
    split_token(alloc, m, hand, 10, amount, 11, 12).is_ok()
}

/// Merges the tokens 11 and 12 into token 13.
fn merge(m: &Machine, hand: &mut Hand) -> bool {
    let Some(first) = token_of(hand.held.as_slice(), 11) else {
        return false;
    };
    let Some(second) = token_of(hand.held.as_slice(), 12) else {
        return false;
    };
    if first.value.checked_add(second.value).is_none() {
        return false;
    }
    merge_tokens(m, hand, 11, 12, 13);
    true
}

/// Copies the token 10 as token 11.
fn copy(alloc: Global, m: &Machine, hand: &mut Hand) -> bool {
    let Some(_token) = token_of(hand.held.as_slice(), 10) else {
        return false;
    };
    copy_token(alloc, m, hand, 10, 11).is_ok()
}

/// Prints a token of 5 that is split and merged.
pub(crate) fn print_split(rt: &HostRuntime, m: &Machine) -> io::Result<()> {
    let alloc = rt.alloc();
    let Ok(mut shards) = Shards::new(alloc, &[held(10, COUNT, 0, 5)]) else {
        return println!(rt; "no memory");
    };
    print!(rt; "5 split at 2: {}", split(alloc, m, &mut shards.hand, 2))?;
    print_hand(rt, shards.hand.held.as_slice())?;
    print!(rt; "\nthese two merged: {}", merge(m, &mut shards.hand))?;
    print_hand(rt, shards.hand.held.as_slice())?;
    println!(rt; "")
}

/// The tokens of a hand as a bag.
fn bag_of(alloc: Global, hand: &Hand) -> Result<Bag, AllocError> {
    let mut tokens = Items::new(alloc);
    for h in hand.held.as_slice() {
        tokens.push(h.token)?;
    }
    Ok(Bag { tokens })
}

/// Prints the state that the tokens of a hand make with the rest.
fn print_joined(rt: &HostRuntime, m: &Machine, shards: &Shards) -> io::Result<()> {
    let alloc = rt.alloc();
    let Ok(bag) = bag_of(alloc, &shards.hand) else {
        return println!(rt; "no memory");
    };
    if shards.rest.records.len() != m.fields.len() {
        return println!(rt; "another number of records");
    }
    print!(rt; "joined")?;
    if let Ok(Some(state)) = join(alloc, m, &bag, &shards.rest) {
        print_values(rt, state.values.as_slice())?;
    }
    println!(rt; "")
}

/// Prints a persistent token and its copy, which change nothing of the state.
pub(crate) fn print_copy(rt: &HostRuntime, m: &Machine) -> io::Result<()> {
    let alloc = rt.alloc();
    let tokens = [held(9, VARIABLE, 0, 1), held(10, MARKS, 0, 5)];
    let Ok(mut shards) = Shards::new(alloc, &tokens) else {
        return println!(rt; "no memory");
    };
    print_joined(rt, m, &shards)?;
    print!(rt;
        "a copy of a persistent token: {}",
        copy(alloc, m, &mut shards.hand)
    )?;
    print_hand(rt, shards.hand.held.as_slice())?;
    print!(rt; "; ")?;
    print_joined(rt, m, &shards)
}
