//! Tokens that are split, merged and copied.
ghost use Rattle.std.specs.Prelude.{◌≡◌, ◌≢◌, pos, ◌+ℤ◌, ◌-ℤ◌, ◌≤ℤ◌, position, nat_eq, true, OnOk, OnErr, FitsSigned};
ghost use Rattle.std.specs.Int.{w128};
ghost use Rattle.sync_exchange.specs.declared.hands.Held.{Held as Owned};
ghost use Rattle.sync_base.specs.declared.strategies.Strategy.TheVariants.{Count};
ghost use Rattle.sync_machine.specs.States.{strategy_at};
ghost use Rattle.sync_exchange.specs.Splitting.{held, split_of, merged_of, copied_of, is_persistent, OfHeld, OfBoth, IsHeld, KeepsHand};

use crate::hands::{Hand, Held};
use std::alloc::Global;
use sync_base::NoMemory;
use sync_join::Token;
use sync_machine::Machine;

/// The place of the token of this name.
fn place_of(held: &[Held], name: u32) -> Option<usize>
    ensures { result ≡ position (λ (h : Owned). nat_eq name h.name) held.now }
{
    held.iter().position(|h| name == h.name)
}

/// What is left of a token without an amount.
fn rest_of(name: u32, token: Token, amount: i128) -> Held
    requires natural { pos 0 ≤ℤ amount }
    requires within { amount ≤ℤ token.value }
    ensures { result ≡ held name token (token.value -ℤ amount) }
{
    Held::new(name, token, token.value - amount)
}

/// A token with the amounts of two.
fn sum_of(name: u32, token: Token, other: Token) -> Held
    requires { FitsSigned w128 (token.value +ℤ other.value) }
    ensures { result ≡ held name token (token.value +ℤ other.value) }
{
    Held::new(name, token, token.value + other.value)
}

/// The same token under another name.
fn same_as(name: u32, token: Token) -> Held
    ensures { result ≡ held name token token.value }
{
    Held { name, token }
}

/// Splits a token of a count: one of this amount takes its place in the hand, and one of the rest comes last.
///
/// The amount is from 0 to the token's; the two new names differ, and neither is held. Of a field of another strategy
/// nothing is promised of the whole. After want of memory the hand is as it was.
pub fn split_token(
    _alloc: Global,
    _m: &Machine,
    hand: &mut Hand,
    name: u32,
    amount: i128,
    first: u32,
    second: u32,
) -> Result<(), NoMemory>
    requires held { IsHeld hand.old.held name }
    requires natural { pos 0 ≤ℤ amount }
    requires within { OfHeld hand.old.held name (λ t. amount ≤ℤ t.value) }
    ensures split { OfHeld hand.old.held name (λ t. OnOk result (hand.new.held ≡ split_of name t amount first second hand.old.held)) }
    ensures keeps { OfHeld hand.old.held name (λ t. strategy_at _m.now.fields t.field ≡ Count → OnOk result (KeepsHand _m.now hand.old hand.new)) }
    ensures unchanged { OnErr result (hand.new ≡ hand.old) }
{
    let Some(at) = place_of(hand.held.as_slice(), name) else {
        unreachable!()
    };
    let token = hand.held.as_slice()[at].token;
    hand.held.push(rest_of(second, token, amount))?;
    hand.held.set(at, Held::new(first, token, amount));
    Ok(())
}

/// Merges two tokens of a count into one with their sum, in the place of the first of them. It takes no memory.
///
/// The two are different ones of one count field, their sum is within signed 128 bits, and the new name is not held. Of
/// others nothing is promised of the whole.
pub fn merge_tokens(_m: &Machine, hand: &mut Hand, a: u32, b: u32, into: u32)
    requires first { IsHeld hand.old.held a }
    requires second { IsHeld hand.old.held b }
    requires apart { a ≢ b }
    requires fits { OfBoth hand.old.held a b (λ t u. FitsSigned w128 (t.value +ℤ u.value)) }
    ensures merged { OfBoth hand.old.held a b (λ t u. hand.new.held ≡ merged_of a t b u into hand.old.held) }
    ensures keeps { OfBoth hand.old.held a b (λ t u. u.field ≡ t.field → strategy_at _m.now.fields t.field ≡ Count → KeepsHand _m.now hand.old hand.new) }
{
    let Some(second) = place_of(hand.held.as_slice(), b) else {
        unreachable!()
    };
    let other = hand.held.remove(second);
    let Some(first) = place_of(hand.held.as_slice(), a) else {
        unreachable!()
    };
    let token = hand.held.as_slice()[first].token;
    hand.held.set(first, sum_of(into, token, other.token));
}

/// Copies a token of a persistent field: an equal one comes last in the hand.
///
/// The new name is not held. Of a field of another strategy nothing is promised of the whole: its token is there once.
/// After want of memory the hand is as it was.
pub fn copy_token(
    _alloc: Global,
    _m: &Machine,
    hand: &mut Hand,
    name: u32,
    new: u32,
) -> Result<(), NoMemory>
    requires { IsHeld hand.old.held name }
    ensures copied { OfHeld hand.old.held name (λ t. OnOk result (hand.new.held ≡ copied_of t new hand.old.held)) }
    ensures keeps { OfHeld hand.old.held name (λ t. is_persistent (strategy_at _m.now.fields t.field) ≡ true → OnOk result (KeepsHand _m.now hand.old hand.new)) }
    ensures unchanged { OnErr result (hand.new ≡ hand.old) }
{
    let Some(at) = place_of(hand.held.as_slice(), name) else {
        unreachable!()
    };
    let token = hand.held.as_slice()[at].token;
    hand.held.push(same_as(new, token))?;
    Ok(())
}
