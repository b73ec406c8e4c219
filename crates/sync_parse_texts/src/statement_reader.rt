//! Reading statements. `left` is 65 less the number of brackets that are open.
ghost use Rattle.std.specs.Prelude.{◌≡◌};
ghost use Rattle.sync_parse_exprs.specs.Faults.{Reads};
ghost use Rattle.sync_parse_forms.specs.Readings.{tests};
ghost use Rattle.sync_parse_programs.specs.Known.{◌▸◌};
ghost use Rattle.sync_parse_programs.specs.Programs.{read, statement_at};
ghost use Rattle.sync_parse_programs.specs.Statements.{statement_row, list, joined, behind_loop, atomic, store, when_form, ending, read_form, peek, right_side, write_form, if_form, loop_form, jump, print_form, assignment, statement_kind, statement, at_atomic};

use sqlite_items::Items;
use std::alloc::Global;
use sync_lex::{Sign, Terminal};
use sync_parse_exprs::{RawName, Read, begins_with, first_line, goes_on, name, sign};
use sync_parse_programs::{
    RawAtomic, RawIf, RawJump, RawKeep, RawList, RawLoop, RawOperand, RawPeek, RawRead,
    RawRightSide, RawStatement, RawStatementKind, RawStore, RawTail, RawWhen, RawWrite, args,
    begins_plain_proof, calculated, condition, do_form, index, keep, label, operand, plain_proof,
    proof_block, scripts, stored, word_operation,
};

// ---- what has no statements in it

/// A word operation and its label.
#[tactic(auto, unfolding(sync_parse_programs::specs::Statements::atomic))]
fn atomic<'a>(alloc: Global, terminals: &'a [Terminal], left: u32) -> Read<'a, RawAtomic>
    ensures { Reads (λ x. (x.0, x.1.now)) result (read atomic left terminals.now) }
{
    let (operation, rest) = word_operation(alloc, terminals, left)?;
    let (label, rest) = label(rest, left)?;
    Ok((RawAtomic { operation, label }, rest))
}

#[tactic(auto, unfolding(sync_parse_programs::specs::Statements::store))]
fn store<'a>(alloc: Global, terminals: &'a [Terminal], left: u32) -> Read<'a, RawStore>
    ensures { Reads (λ x. (x.0, x.1.now)) result (read store left terminals.now) }
{
    let (_, rest) = sign(terminals, left, Sign::Store)?;
    let (change, rest) = stored(alloc, rest, left)?;
    let (label, rest) = label(rest, left)?;
    Ok((RawStore { change, label }, rest))
}

#[tactic(auto, unfolding(sync_parse_programs::specs::Statements::read_form))]
fn read_form<'a>(alloc: Global, terminals: &'a [Terminal], left: u32) -> Read<'a, RawRead>
    ensures { Reads (λ x. (x.0, x.1.now)) result (read read_form left terminals.now) }
{
    let (_, rest) = sign(terminals, left, Sign::Read)?;
    let (cell, rest) = name(rest, left)?;
    let (index, rest) = index(alloc, rest, left)?;
    let (_, rest) = sign(rest, left, Sign::With)?;
    let (permission, rest) = name(rest, left)?;
    let (scripts, rest) = scripts(alloc, rest, left)?;
    let (_, rest) = sign(rest, left, Sign::Semicolon)?;
    Ok((
        RawRead {
            cell,
            index,
            permission,
            scripts,
        },
        rest,
    ))
}

#[tactic(auto, unfolding(sync_parse_programs::specs::Statements::peek))]
fn peek<'a>(alloc: Global, terminals: &'a [Terminal], left: u32) -> Read<'a, RawPeek>
    ensures { Reads (λ x. (x.0, x.1.now)) result (read peek left terminals.now) }
{
    let (_, rest) = sign(terminals, left, Sign::Peek)?;
    let (cell, rest) = name(rest, left)?;
    let (index, rest) = index(alloc, rest, left)?;
    let (_, rest) = sign(rest, left, Sign::Via)?;
    let (via, rest) = do_form(alloc, rest, left)?;
    let (_, rest) = sign(rest, left, Sign::Semicolon)?;
    Ok((RawPeek { cell, index, via }, rest))
}

#[tactic(auto, unfolding(sync_parse_programs::specs::Statements::write_form))]
fn write_form<'a>(alloc: Global, terminals: &'a [Terminal], left: u32) -> Read<'a, RawWrite>
    ensures { Reads (λ x. (x.0, x.1.now)) result (read write_form left terminals.now) }
{
    let (_, rest) = sign(terminals, left, Sign::Write)?;
    let (cell, rest) = name(rest, left)?;
    let (index, rest) = index(alloc, rest, left)?;
    let (_, rest) = sign(rest, left, Sign::Equal)?;
    let (operand, rest) = operand(rest, left)?;
    let (_, rest) = sign(rest, left, Sign::With)?;
    let (permission, rest) = name(rest, left)?;
    let (scripts, rest) = scripts(alloc, rest, left)?;
    let (_, rest) = sign(rest, left, Sign::Semicolon)?;
    Ok((
        RawWrite {
            cell,
            index,
            operand,
            permission,
            scripts,
        },
        rest,
    ))
}

#[tactic(auto, unfolding(sync_parse_programs::specs::Statements::print_form))]
fn print_form<'a>(terminals: &'a [Terminal], left: u32) -> Read<'a, (RawName, RawOperand)>
    ensures { Reads (λ x. (x.0, x.1.now)) result (read print_form left terminals.now) }
{
    let (_, rest) = sign(terminals, left, Sign::Print)?;
    let (local, rest) = name(rest, left)?;
    let (operand, rest) = operand(rest, left)?;
    let (_, rest) = sign(rest, left, Sign::Semicolon)?;
    Ok(((local, operand), rest))
}

/// A sign, and what a jump gives to its keep.
#[tactic(auto, unfolding(sync_parse_programs::specs::Statements::jump))]
fn jump<'a>(alloc: Global, terminals: &'a [Terminal], left: u32, first: Sign) -> Read<'a, RawJump>
    ensures { Reads (λ x. (x.0, x.1.now)) result (read (first ▸ jump) left terminals.now) }
{
    let (_, rest) = sign(terminals, left, first)?;
    let (args, rest) = args(alloc, rest, left)?;
    let (scripts, rest) = scripts(alloc, rest, left)?;
    let (_, rest) = sign(rest, left, Sign::Semicolon)?;
    Ok((RawJump { args, scripts }, rest))
}

/// `join` and a keep, or nothing.
#[tactic(auto, unfolding(sync_parse_programs::specs::Statements::joined))]
fn joined<'a>(alloc: Global, terminals: &'a [Terminal], left: u32) -> Read<'a, Option<RawKeep>>
    ensures { Reads (λ x. (x.0, x.1.now)) result (read joined left terminals.now) }
{
    if begins_with(terminals, Sign::Join) {
        let (_, rest) = sign(terminals, left, Sign::Join)?;
        let (keep, rest) = keep(alloc, rest, left)?;
        return Ok((Some(keep), rest));
    }
    Ok((None, terminals))
}

/// `after` and a keep, or nothing.
#[tactic(auto, unfolding(sync_parse_programs::specs::Statements::behind_loop))]
fn behind_loop<'a>(alloc: Global, terminals: &'a [Terminal], left: u32) -> Read<'a, Option<RawKeep>>
    ensures { Reads (λ x. (x.0, x.1.now)) result (read behind_loop left terminals.now) }
{
    if begins_with(terminals, Sign::After) {
        let (_, rest) = sign(terminals, left, Sign::After)?;
        let (keep, rest) = keep(alloc, rest, left)?;
        return Ok((Some(keep), rest));
    }
    Ok((None, terminals))
}

/// Whether a word operation begins here whose old value a local is given.
fn begins_atomic(terminals: &[Terminal]) -> bool
    ensures { result ≡ tests at_atomic terminals.now }
{
    begins_with(terminals, Sign::Load)
        || begins_with(terminals, Sign::Swap)
        || begins_with(terminals, Sign::Add)
        || begins_with(terminals, Sign::Sub)
        || begins_with(terminals, Sign::Cas)
}

// ---- statements

/// Statements up to a closing brace.
#[cycle(statement)]
#[tactic(auto, unfolding(sync_parse_programs::specs::Statements::statement_row, sync_parse_exprs::specs::Terminals::row))]
fn statement_row<'a>(
    alloc: Global,
    terminals: &'a [Terminal],
    left: u32,
) -> Read<'a, Items<RawStatement>>
    ensures { Reads (λ x. (x.0, x.1.now)) result (read statement_row left terminals.now) }
{
    let mut held = Items::new(alloc);
    let mut rest = terminals;
    for _ in 0..terminals.len() {
        if goes_on(rest) {
            let (item, after) = statement(alloc, rest, left)?;
            held.push(item)?;
            rest = after;
        } else {
            return Ok((held, rest));
        }
    }
    Ok((held, rest))
}

/// Statements in braces, with the line of the closing one.
#[cycle(statement)]
#[tactic(auto, unfolding(sync_parse_programs::specs::Statements::list))]
pub(crate) fn list<'a>(alloc: Global, terminals: &'a [Terminal], left: u32) -> Read<'a, RawList>
    ensures { Reads (λ x. (x.0, x.1.now)) result (read list left terminals.now) }
{
    let (_, rest) = sign(terminals, left, Sign::OpenBrace)?;
    let (statements, rest) = statement_row(alloc, rest, left - 1)?;
    let (end_line, rest) = sign(rest, left - 1, Sign::CloseBrace)?;
    Ok((
        RawList {
            statements,
            end_line,
        },
        rest,
    ))
}

#[cycle(statement)]
#[tactic(auto, unfolding(sync_parse_programs::specs::Statements::when_form))]
fn when_form<'a>(alloc: Global, terminals: &'a [Terminal], left: u32) -> Read<'a, RawWhen>
    ensures { Reads (λ x. (x.0, x.1.now)) result (read when_form left terminals.now) }
{
    let (_, rest) = sign(terminals, left, Sign::When)?;
    let (condition, rest) = condition(rest, left)?;
    let (label, rest) = label(rest, left)?;
    let (_, rest) = sign(rest, left, Sign::Proof)?;
    let (yes_proof, rest) = proof_block(alloc, rest, left)?;
    let (yes, rest) = list(alloc, rest, left)?;
    let (_, rest) = sign(rest, left, Sign::Else)?;
    let (_, rest) = sign(rest, left, Sign::Proof)?;
    let (no_proof, rest) = proof_block(alloc, rest, left)?;
    let (no, rest) = list(alloc, rest, left)?;
    let (joined, rest) = joined(alloc, rest, left)?;
    Ok((
        RawWhen {
            condition,
            label,
            yes_proof,
            yes,
            no_proof,
            no,
            joined,
        },
        rest,
    ))
}

/// `;`, a proof block and `;`, or a proof block for each outcome of a condition.
#[cycle(statement)]
#[tactic(auto, unfolding(sync_parse_programs::specs::Statements::ending))]
fn ending<'a>(alloc: Global, terminals: &'a [Terminal], left: u32) -> Read<'a, RawTail>
    ensures { Reads (λ x. (x.0, x.1.now)) result (read ending left terminals.now) }
{
    if begins_with(terminals, Sign::Semicolon) {
        let (_, rest) = sign(terminals, left, Sign::Semicolon)?;
        Ok((RawTail::Plain, rest))
    } else if begins_with(terminals, Sign::Proof) {
        let (_, rest) = sign(terminals, left, Sign::Proof)?;
        let (block, rest) = proof_block(alloc, rest, left)?;
        let (_, rest) = sign(rest, left, Sign::Semicolon)?;
        Ok((RawTail::Block(block), rest))
    } else {
        let (when, rest) = when_form(alloc, terminals, left)?;
        Ok((RawTail::When(when), rest))
    }
}

/// What a local is given.
#[cycle(statement)]
#[tactic(auto, unfolding(sync_parse_programs::specs::Statements::right_side))]
fn right_side<'a>(alloc: Global, terminals: &'a [Terminal], left: u32) -> Read<'a, RawRightSide>
    ensures { Reads (λ x. (x.0, x.1.now)) result (read right_side left terminals.now) }
{
    if begins_atomic(terminals) {
        let (atomic, rest) = atomic(alloc, terminals, left)?;
        let (tail, rest) = ending(alloc, rest, left)?;
        Ok((RawRightSide::Atomic(atomic, tail), rest))
    } else if begins_with(terminals, Sign::Read) {
        let (read, rest) = read_form(alloc, terminals, left)?;
        Ok((RawRightSide::Read(read), rest))
    } else if begins_with(terminals, Sign::Peek) {
        let (peek, rest) = peek(alloc, terminals, left)?;
        Ok((RawRightSide::Peek(peek), rest))
    } else {
        let (calculation, rest) = calculated(terminals, left)?;
        let (label, rest) = label(rest, left)?;
        let (_, rest) = sign(rest, left, Sign::Semicolon)?;
        Ok((RawRightSide::Calculated(calculation, label), rest))
    }
}

#[cycle(statement)]
#[tactic(auto, unfolding(sync_parse_programs::specs::Statements::if_form))]
fn if_form<'a>(alloc: Global, terminals: &'a [Terminal], left: u32) -> Read<'a, RawIf>
    ensures { Reads (λ x. (x.0, x.1.now)) result (read if_form left terminals.now) }
{
    let (_, rest) = sign(terminals, left, Sign::If)?;
    let (condition, rest) = condition(rest, left)?;
    let (label, rest) = label(rest, left)?;
    let (yes, rest) = list(alloc, rest, left)?;
    let (_, rest) = sign(rest, left, Sign::Else)?;
    let (no, rest) = list(alloc, rest, left)?;
    let (joined, rest) = joined(alloc, rest, left)?;
    Ok((
        RawIf {
            condition,
            label,
            yes,
            no,
            joined,
        },
        rest,
    ))
}

#[cycle(statement)]
#[tactic(auto, unfolding(sync_parse_programs::specs::Statements::loop_form))]
fn loop_form<'a>(alloc: Global, terminals: &'a [Terminal], left: u32) -> Read<'a, RawLoop>
    ensures { Reads (λ x. (x.0, x.1.now)) result (read loop_form left terminals.now) }
{
    let (_, rest) = sign(terminals, left, Sign::Loop)?;
    let (keep, rest) = keep(alloc, rest, left)?;
    let (from_line, rest) = sign(rest, left, Sign::From)?;
    let (args, rest) = args(alloc, rest, left)?;
    let (scripts, rest) = scripts(alloc, rest, left)?;
    let (body, rest) = list(alloc, rest, left)?;
    let (after, rest) = behind_loop(alloc, rest, left)?;
    Ok((
        RawLoop {
            keep,
            from_line,
            args,
            scripts,
            body,
            after,
        },
        rest,
    ))
}

/// A local, `=` and what it is given.
#[cycle(statement)]
#[tactic(auto, unfolding(sync_parse_programs::specs::Statements::assignment))]
fn assignment<'a>(
    alloc: Global,
    terminals: &'a [Terminal],
    left: u32,
) -> Read<'a, (RawName, RawRightSide)>
    ensures { Reads (λ x. (x.0, x.1.now)) result (read assignment left terminals.now) }
{
    let (local, rest) = name(terminals, left)?;
    let (_, rest) = sign(rest, left, Sign::Equal)?;
    let (given, rest) = right_side(alloc, rest, left)?;
    Ok(((local, given), rest))
}

#[cycle(statement)]
#[tactic(auto, unfolding(sync_parse_programs::specs::Statements::statement_kind))]
fn statement_kind<'a>(
    alloc: Global,
    terminals: &'a [Terminal],
    left: u32,
) -> Read<'a, RawStatementKind>
    ensures { Reads (λ x. (x.0, x.1.now)) result (read statement_kind left terminals.now) }
{
    if begins_with(terminals, Sign::Store) {
        let (store, rest) = store(alloc, terminals, left)?;
        let (tail, rest) = ending(alloc, rest, left)?;
        Ok((RawStatementKind::Store(store, tail), rest))
    } else if begins_with(terminals, Sign::Write) {
        let (write, rest) = write_form(alloc, terminals, left)?;
        Ok((RawStatementKind::Write(write), rest))
    } else if begins_with(terminals, Sign::Print) {
        let ((local, operand), rest) = print_form(terminals, left)?;
        Ok((RawStatementKind::Print(local, operand), rest))
    } else if begins_with(terminals, Sign::If) {
        let (branches, rest) = if_form(alloc, terminals, left)?;
        Ok((RawStatementKind::If(branches), rest))
    } else if begins_with(terminals, Sign::Loop) {
        let (repeated, rest) = loop_form(alloc, terminals, left)?;
        Ok((RawStatementKind::Loop(repeated), rest))
    } else if begins_with(terminals, Sign::Next) {
        let (jump, rest) = jump(alloc, terminals, left, Sign::Next)?;
        Ok((RawStatementKind::Next(jump), rest))
    } else if begins_with(terminals, Sign::Break) {
        let (jump, rest) = jump(alloc, terminals, left, Sign::Break)?;
        Ok((RawStatementKind::Break(jump), rest))
    } else if begins_with(terminals, Sign::Meet) {
        let (jump, rest) = jump(alloc, terminals, left, Sign::Meet)?;
        Ok((RawStatementKind::Meet(jump), rest))
    } else if begins_with(terminals, Sign::End) {
        let (jump, rest) = jump(alloc, terminals, left, Sign::End)?;
        Ok((RawStatementKind::End(jump), rest))
    } else if begins_plain_proof(terminals) {
        let (proof, rest) = plain_proof(alloc, terminals, left)?;
        Ok((RawStatementKind::Proof(proof), rest))
    } else {
        let ((local, given), rest) = assignment(alloc, terminals, left)?;
        Ok((RawStatementKind::Assign(local, given), rest))
    }
}

/// A statement by its production, once unrolled.
#[cycle(statement)]
#[tactic(auto, unfolding(sync_parse_programs::specs::Statements::statement))]
fn placed_statement<'a>(
    alloc: Global,
    terminals: &'a [Terminal],
    left: u32,
) -> Read<'a, RawStatement>
    ensures { Reads (λ x. (x.0, x.1.now)) result (read statement left terminals.now) }
{
    let line = first_line(terminals);
    let (what, rest) = statement_kind(alloc, terminals, left)?;
    Ok((RawStatement { what, line }, rest))
}

#[cycle(statement)]
#[tactic(auto, using(sync_parse_programs::proofs::Decided::statement_reads))]
fn statement<'a>(alloc: Global, terminals: &'a [Terminal], left: u32) -> Read<'a, RawStatement>
    ensures { Reads (λ x. (x.0, x.1.now)) result (statement_at left terminals.now) }
{
    placed_statement(alloc, terminals, left)
}
