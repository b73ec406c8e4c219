//! Reading operands, conditions, calculations and word operations. `left` is 65 less the number of brackets that are open.
ghost use Rattle.std.specs.Prelude.{◌≡◌};
ghost use Rattle.sync_parse_exprs.specs.Faults.{Reads};
ghost use Rattle.sync_parse_programs.specs.Operands.{operand, relation, condition, calculated, index, load, change, stored, cas, word_operation};
ghost use Rattle.sync_parse_programs.specs.Programs.{read};

use crate::lists::{numbered, scripts};
use crate::operands::{
    RawCalculation, RawCas, RawChange, RawCondition, RawIndex, RawLoad, RawOperand, RawRelation,
    RawWordOperation,
};
use std::alloc::Global;
use sync_lex::{Sign, Terminal};
use sync_parse_exprs::{Read, begins_with, name, sign};
use sync_parse_forms::begins_number;

/// A number or a local.
#[tactic(auto, unfolding(crate::specs::Operands::operand))]
pub fn operand<'a>(terminals: &'a [Terminal], left: u32) -> Read<'a, RawOperand>
    ensures { Reads (λ x. (x.0, x.1.now)) result (read operand left terminals.now) }
{
    if begins_number(terminals) {
        let (number, rest) = numbered(terminals, left)?;
        return Ok((RawOperand::Number(number), rest));
    }
    let (local, rest) = name(terminals, left)?;
    Ok((RawOperand::Local(local), rest))
}

#[tactic(auto, unfolding(crate::specs::Operands::relation))]
fn relation<'a>(terminals: &'a [Terminal], left: u32) -> Read<'a, RawRelation>
    ensures { Reads (λ x. (x.0, x.1.now)) result (read relation left terminals.now) }
{
    if begins_with(terminals, Sign::Equal) {
        let (_, rest) = sign(terminals, left, Sign::Equal)?;
        Ok((RawRelation::Equal, rest))
    } else if begins_with(terminals, Sign::NotEqual) {
        let (_, rest) = sign(terminals, left, Sign::NotEqual)?;
        Ok((RawRelation::NotEqual, rest))
    } else if begins_with(terminals, Sign::Below) {
        let (_, rest) = sign(terminals, left, Sign::Below)?;
        Ok((RawRelation::Below, rest))
    } else {
        let (_, rest) = sign(terminals, left, Sign::AtMost)?;
        Ok((RawRelation::AtMost, rest))
    }
}

/// Two operands, and how they compare.
#[tactic(auto, unfolding(crate::specs::Operands::condition))]
pub fn condition<'a>(terminals: &'a [Terminal], left: u32) -> Read<'a, RawCondition>
    ensures { Reads (λ x. (x.0, x.1.now)) result (read condition left terminals.now) }
{
    let (first, rest) = operand(terminals, left)?;
    let (relation, rest) = relation(rest, left)?;
    let (second, rest) = operand(rest, left)?;
    Ok((
        RawCondition {
            left: first,
            relation,
            right: second,
        },
        rest,
    ))
}

/// An operand, or an operator between two.
#[tactic(auto, unfolding(crate::specs::Operands::calculated))]
pub fn calculated<'a>(terminals: &'a [Terminal], left: u32) -> Read<'a, RawCalculation>
    ensures { Reads (λ x. (x.0, x.1.now)) result (read calculated left terminals.now) }
{
    let (first, rest) = operand(terminals, left)?;
    if begins_with(rest, Sign::Plus) {
        let (_, rest) = sign(rest, left, Sign::Plus)?;
        let (second, rest) = operand(rest, left)?;
        Ok((RawCalculation::Plus(first, second), rest))
    } else if begins_with(rest, Sign::Minus) {
        let (_, rest) = sign(rest, left, Sign::Minus)?;
        let (second, rest) = operand(rest, left)?;
        Ok((RawCalculation::Minus(first, second), rest))
    } else if begins_with(rest, Sign::Star) {
        let (_, rest) = sign(rest, left, Sign::Star)?;
        let (factor, rest) = numbered(rest, left)?;
        Ok((RawCalculation::Times(first, factor), rest))
    } else if begins_with(rest, Sign::Slash) {
        let (_, rest) = sign(rest, left, Sign::Slash)?;
        let (divisor, rest) = numbered(rest, left)?;
        Ok((RawCalculation::Over(first, divisor), rest))
    } else if begins_with(rest, Sign::Percent) {
        let (_, rest) = sign(rest, left, Sign::Percent)?;
        let (divisor, rest) = numbered(rest, left)?;
        Ok((RawCalculation::Modulo(first, divisor), rest))
    } else {
        Ok((RawCalculation::Plain(first), rest))
    }
}

/// An operand and scripts in square brackets.
#[tactic(auto, unfolding(crate::specs::Operands::index))]
pub fn index<'a>(alloc: Global, terminals: &'a [Terminal], left: u32) -> Read<'a, RawIndex>
    ensures { Reads (λ x. (x.0, x.1.now)) result (read index left terminals.now) }
{
    let (_, rest) = sign(terminals, left, Sign::OpenSquare)?;
    let (operand, rest) = operand(rest, left - 1)?;
    let (scripts, rest) = scripts(alloc, rest, left - 1)?;
    let (_, rest) = sign(rest, left - 1, Sign::CloseSquare)?;
    Ok((RawIndex { operand, scripts }, rest))
}

#[tactic(auto, unfolding(crate::specs::Operands::load))]
fn load<'a>(alloc: Global, terminals: &'a [Terminal], left: u32) -> Read<'a, RawLoad>
    ensures { Reads (λ x. (x.0, x.1.now)) result (read load left terminals.now) }
{
    let (word, rest) = name(terminals, left)?;
    let (index, rest) = index(alloc, rest, left)?;
    Ok((RawLoad { word, index }, rest))
}

#[tactic(auto, unfolding(crate::specs::Operands::change))]
fn change<'a>(alloc: Global, terminals: &'a [Terminal], left: u32) -> Read<'a, RawChange>
    ensures { Reads (λ x. (x.0, x.1.now)) result (read change left terminals.now) }
{
    let (word, rest) = name(terminals, left)?;
    let (index, rest) = index(alloc, rest, left)?;
    let (operand, rest) = operand(rest, left)?;
    Ok((
        RawChange {
            word,
            index,
            operand,
        },
        rest,
    ))
}

/// A word, its index, `=` and an operand.
#[tactic(auto, unfolding(crate::specs::Operands::stored))]
pub fn stored<'a>(alloc: Global, terminals: &'a [Terminal], left: u32) -> Read<'a, RawChange>
    ensures { Reads (λ x. (x.0, x.1.now)) result (read stored left terminals.now) }
{
    let (word, rest) = name(terminals, left)?;
    let (index, rest) = index(alloc, rest, left)?;
    let (_, rest) = sign(rest, left, Sign::Equal)?;
    let (operand, rest) = operand(rest, left)?;
    Ok((
        RawChange {
            word,
            index,
            operand,
        },
        rest,
    ))
}

#[tactic(auto, unfolding(crate::specs::Operands::cas))]
fn cas<'a>(alloc: Global, terminals: &'a [Terminal], left: u32) -> Read<'a, RawCas>
    ensures { Reads (λ x. (x.0, x.1.now)) result (read cas left terminals.now) }
{
    let (word, rest) = name(terminals, left)?;
    let (index, rest) = index(alloc, rest, left)?;
    let (expected, rest) = operand(rest, left)?;
    let (changed, rest) = operand(rest, left)?;
    Ok((
        RawCas {
            word,
            index,
            expected,
            changed,
        },
        rest,
    ))
}

/// A word operation whose old value a local is given.
#[tactic(auto, unfolding(crate::specs::Operands::word_operation))]
pub fn word_operation<'a>(
    alloc: Global,
    terminals: &'a [Terminal],
    left: u32,
) -> Read<'a, RawWordOperation>
    ensures { Reads (λ x. (x.0, x.1.now)) result (read word_operation left terminals.now) }
{
    if begins_with(terminals, Sign::Load) {
        let (_, rest) = sign(terminals, left, Sign::Load)?;
        let (load, rest) = load(alloc, rest, left)?;
        Ok((RawWordOperation::Load(load), rest))
    } else if begins_with(terminals, Sign::Swap) {
        let (_, rest) = sign(terminals, left, Sign::Swap)?;
        let (change, rest) = change(alloc, rest, left)?;
        Ok((RawWordOperation::Swap(change), rest))
    } else if begins_with(terminals, Sign::Add) {
        let (_, rest) = sign(terminals, left, Sign::Add)?;
        let (change, rest) = change(alloc, rest, left)?;
        Ok((RawWordOperation::Add(change), rest))
    } else if begins_with(terminals, Sign::Sub) {
        let (_, rest) = sign(terminals, left, Sign::Sub)?;
        let (change, rest) = change(alloc, rest, left)?;
        Ok((RawWordOperation::Sub(change), rest))
    } else {
        let (_, rest) = sign(terminals, left, Sign::Cas)?;
        let (cas, rest) = cas(alloc, rest, left)?;
        Ok((RawWordOperation::Cas(cas), rest))
    }
}
