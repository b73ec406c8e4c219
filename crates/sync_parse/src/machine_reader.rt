//! Reading machines, proofs and texts. `left` is 65 less the number of brackets that are open.
ghost use Rattle.std.specs.Prelude.{◌≡◌, length, IfOk};
ghost use Rattle.sync_base.specs.Outcome.{Gives};
ghost use Rattle.sync_parse_exprs.specs.Faults.{Reads};
ghost use Rattle.sync_parse.specs.Faults.{refusal_of};
ghost use Rattle.sync_parse.specs.Machines.{field_at, fields, mode_of, mode_at, begins_operation, operation_at, operations, invariant_at, invariants, machine_at, claim_at, proof_at, proof_row, proofs_at, version_at, text_of, parsed};

use crate::act_reader::{acts, closed_expr};
use crate::script_reader::{script, statement_number};
use crate::trees::{RawClaim, RawField, RawInvariant, RawMachine, RawOperation, RawProof, RawText};
use sqlite_items::Items;
use std::alloc::Global;
use sync_base::{OpMode, Refusal, Rule, Stop};
use sync_lex::{Sign, Terminal, read_terminals};
use sync_parse_exprs::{
    Fault, Halt, Read, begins_with, deep, first_line, goes_on, name, names, next, number, sign,
    strategy, wanted,
};

/// The levels of a text: 64 brackets may be open before a lexeme.
const LEVELS: u32 = 65;

#[tactic(auto, unfolding(crate::specs::Machines::field_at))]
fn field<'a>(terminals: &'a [Terminal], left: u32) -> Read<'a, RawField>
    ensures { Reads (λ x. (x.0, x.1.now)) result (field_at left terminals.now) }
{
    let (line, rest) = sign(terminals, left, Sign::Field)?;
    let (name, rest) = name(rest, left)?;
    let (_, rest) = sign(rest, left, Sign::Colon)?;
    let (strategy, rest) = strategy(rest, left)?;
    let (_, rest) = sign(rest, left, Sign::Semicolon)?;
    Ok((
        RawField {
            name,
            strategy,
            line,
        },
        rest,
    ))
}

#[tactic(auto, unfolding(crate::specs::Machines::fields, sync_parse_exprs::specs::Terminals::row))]
fn fields<'a>(alloc: Global, terminals: &'a [Terminal], left: u32) -> Read<'a, Items<RawField>>
    ensures { Reads (λ x. (x.0, x.1.now)) result (fields left terminals.now) }
{
    let mut held = Items::new(alloc);
    let mut rest = terminals;
    for _ in 0..terminals.len() {
        if begins_with(rest, Sign::Field) {
            let (item, after) = field(rest, left)?;
            held.push(item)?;
            rest = after;
        } else {
            return Ok((held, rest));
        }
    }
    Ok((held, rest))
}

#[tactic(auto, unfolding(crate::specs::Machines::mode_of))]
fn mode_of(terminal: Terminal) -> Option<OpMode>
    ensures { result ≡ mode_of terminal }
{
    if terminal.is(Sign::Init) {
        Some(OpMode::Init)
    } else if terminal.is(Sign::Transition) {
        Some(OpMode::Transition)
    } else if terminal.is(Sign::Property) {
        Some(OpMode::Property)
    } else {
        None
    }
}

fn begins_operation(terminals: &[Terminal]) -> bool
    ensures { result ≡ begins_operation terminals.now }
{
    match next(terminals) {
        Some((terminal, _)) => mode_of(terminal).is_some(),
        None => false,
    }
}

#[tactic(auto, unfolding(crate::specs::Machines::mode_at))]
fn mode<'a>(terminals: &'a [Terminal], left: u32) -> Read<'a, OpMode>
    ensures { Reads (λ x. (x.0, x.1.now)) result (mode_at left terminals.now) }
{
    let (terminal, rest) = next(terminals).ok_or(Halt::Fault(Fault::Ended))?;
    let Some(mode) = mode_of(terminal) else {
        return Err(wanted(terminal.line));
    };
    if left == 0 {
        return Err(deep(terminal.line));
    }
    Ok((mode, rest))
}

#[tactic(auto, unfolding(crate::specs::Machines::operation_at))]
fn operation<'a>(alloc: Global, terminals: &'a [Terminal], left: u32) -> Read<'a, RawOperation>
    ensures { Reads (λ x. (x.0, x.1.now)) result (operation_at left terminals.now) }
{
    let line = first_line(terminals);
    let (mode, rest) = mode(terminals, left)?;
    let (name, rest) = name(rest, left)?;
    let (params, rest) = names(alloc, rest, left)?;
    let (_, rest) = sign(rest, left, Sign::OpenBrace)?;
    let (steps, rest) = acts(alloc, rest, left - 1)?;
    let (_, rest) = sign(rest, left - 1, Sign::CloseBrace)?;
    Ok((
        RawOperation {
            mode,
            name,
            params,
            steps,
            line,
        },
        rest,
    ))
}

#[tactic(auto, unfolding(crate::specs::Machines::operations, sync_parse_exprs::specs::Terminals::row))]
fn operations<'a>(
    alloc: Global,
    terminals: &'a [Terminal],
    left: u32,
) -> Read<'a, Items<RawOperation>>
    ensures { Reads (λ x. (x.0, x.1.now)) result (operations left terminals.now) }
{
    let mut held = Items::new(alloc);
    let mut rest = terminals;
    for _ in 0..terminals.len() {
        if begins_operation(rest) {
            let (item, after) = operation(alloc, rest, left)?;
            held.push(item)?;
            rest = after;
        } else {
            return Ok((held, rest));
        }
    }
    Ok((held, rest))
}

#[tactic(auto, unfolding(crate::specs::Machines::invariant_at))]
fn invariant<'a>(alloc: Global, terminals: &'a [Terminal], left: u32) -> Read<'a, RawInvariant>
    ensures { Reads (λ x. (x.0, x.1.now)) result (invariant_at left terminals.now) }
{
    let (line, rest) = sign(terminals, left, Sign::Invariant)?;
    let (name, rest) = name(rest, left)?;
    let (params, rest) = names(alloc, rest, left)?;
    let (_, rest) = sign(rest, left, Sign::Colon)?;
    let (form, rest) = closed_expr(alloc, rest, left)?;
    Ok((
        RawInvariant {
            name,
            params,
            form,
            line,
        },
        rest,
    ))
}

#[tactic(auto, unfolding(crate::specs::Machines::invariants, sync_parse_exprs::specs::Terminals::row))]
fn invariants<'a>(
    alloc: Global,
    terminals: &'a [Terminal],
    left: u32,
) -> Read<'a, Items<RawInvariant>>
    ensures { Reads (λ x. (x.0, x.1.now)) result (invariants left terminals.now) }
{
    let mut held = Items::new(alloc);
    let mut rest = terminals;
    for _ in 0..terminals.len() {
        if begins_with(rest, Sign::Invariant) {
            let (item, after) = invariant(alloc, rest, left)?;
            held.push(item)?;
            rest = after;
        } else {
            return Ok((held, rest));
        }
    }
    Ok((held, rest))
}

/// `machine`, its name, its fields, operations and invariants.
#[tactic(auto, unfolding(crate::specs::Machines::machine_at))]
pub fn machine<'a>(alloc: Global, terminals: &'a [Terminal], left: u32) -> Read<'a, RawMachine>
    ensures { Reads (λ x. (x.0, x.1.now)) result (machine_at left terminals.now) }
{
    let (line, rest) = sign(terminals, left, Sign::Machine)?;
    let (name, rest) = name(rest, left)?;
    let (_, rest) = sign(rest, left, Sign::OpenBrace)?;
    let (fields, rest) = fields(alloc, rest, left - 1)?;
    let (operations, rest) = operations(alloc, rest, left - 1)?;
    let (invariants, rest) = invariants(alloc, rest, left - 1)?;
    let (_, rest) = sign(rest, left - 1, Sign::CloseBrace)?;
    Ok((
        RawMachine {
            name,
            fields,
            operations,
            invariants,
            line,
        },
        rest,
    ))
}

#[tactic(auto, unfolding(crate::specs::Machines::claim_at))]
fn claim<'a>(terminals: &'a [Terminal], left: u32) -> Read<'a, RawClaim>
    ensures { Reads (λ x. (x.0, x.1.now)) result (claim_at left terminals.now) }
{
    if begins_with(terminals, Sign::At) {
        let (_, rest) = sign(terminals, left, Sign::At)?;
        let (at, rest) = number(rest, left)?;
        return Ok((RawClaim::At(statement_number(at)), rest));
    }
    let (_, rest) = sign(terminals, left, Sign::Keeps)?;
    let (name, rest) = name(rest, left)?;
    Ok((RawClaim::Keeps(name), rest))
}

#[tactic(auto, unfolding(crate::specs::Machines::proof_at))]
fn proof<'a>(alloc: Global, terminals: &'a [Terminal], left: u32) -> Read<'a, RawProof>
    ensures { Reads (λ x. (x.0, x.1.now)) result (proof_at left terminals.now) }
{
    let (operation, rest) = name(terminals, left)?;
    let (claim, rest) = claim(rest, left)?;
    let (script, rest) = script(alloc, rest, left)?;
    Ok((
        RawProof {
            operation,
            claim,
            script,
        },
        rest,
    ))
}

#[tactic(auto, unfolding(crate::specs::Machines::proof_row, sync_parse_exprs::specs::Terminals::row))]
fn proof_row<'a>(alloc: Global, terminals: &'a [Terminal], left: u32) -> Read<'a, Items<RawProof>>
    ensures { Reads (λ x. (x.0, x.1.now)) result (proof_row left terminals.now) }
{
    let mut held = Items::new(alloc);
    let mut rest = terminals;
    for _ in 0..terminals.len() {
        if goes_on(rest) {
            let (item, after) = proof(alloc, rest, left)?;
            held.push(item)?;
            rest = after;
        } else {
            return Ok((held, rest));
        }
    }
    Ok((held, rest))
}

/// The proofs, or none where they do not begin.
#[tactic(auto, unfolding(crate::specs::Machines::proofs_at))]
pub fn proofs<'a>(alloc: Global, terminals: &'a [Terminal], left: u32) -> Read<'a, Items<RawProof>>
    ensures { Reads (λ x. (x.0, x.1.now)) result (proofs_at left terminals.now) }
{
    if !begins_with(terminals, Sign::Proofs) {
        return Ok((Items::new(alloc), terminals));
    }
    let (_, rest) = sign(terminals, left, Sign::Proofs)?;
    let (_, rest) = sign(rest, left, Sign::OpenBrace)?;
    let (proofs, rest) = proof_row(alloc, rest, left - 1)?;
    let (_, rest) = sign(rest, left - 1, Sign::CloseBrace)?;
    Ok((proofs, rest))
}

/// `version` and the number 1; the line of `version`.
#[tactic(auto, unfolding(crate::specs::Machines::version_at))]
pub fn version<'a>(terminals: &'a [Terminal], left: u32) -> Read<'a, u32>
    ensures { Reads (λ x. (x.0, x.1.now)) result (version_at left terminals.now) }
{
    let (line, rest) = sign(terminals, left, Sign::Version)?;
    let number_line = first_line(rest);
    let (version, rest) = number(rest, left)?;
    if version != 1 {
        return Err(Halt::Fault(Fault::Version(number_line)));
    }
    Ok((line, rest))
}

/// The machine and the proofs that the terminals of a text spell.
#[tactic(auto, unfolding(crate::specs::Machines::text_of))]
fn text_of(alloc: Global, terminals: &[Terminal]) -> Result<(RawMachine, Items<RawProof>), Halt>
    ensures { Reads (λ x. x) result (text_of terminals.now) }
{
    let (_, rest) = version(terminals, LEVELS)?;
    let (_, rest) = sign(rest, LEVELS, Sign::Semicolon)?;
    let (machine, rest) = machine(alloc, rest, LEVELS)?;
    let (proofs, rest) = proofs(alloc, rest, LEVELS)?;
    match next(rest) {
        Some((terminal, _)) if terminal.is(Sign::Program) => Err(Halt::Fault(Fault::Unbuilt(
            terminal.line,
        ))),
        Some((terminal, _)) => Err(wanted(terminal.line)),
        None => Ok((machine, proofs)),
    }
}

/// The rule that a fault breaks, in a text whose last line this is.
#[tactic(auto, unfolding(crate::specs::Faults::refusal_of))]
pub fn refusal_of(last_line: u32, fault: Fault) -> Refusal
    ensures { result ≡ refusal_of last_line fault }
{
    let (line, rule) = match fault {
        Fault::Ended => (last_line, Rule::G2),
        Fault::Wanted(line) => (line, Rule::G1),
        Fault::Deep(line) => (line, Rule::G3),
        Fault::Version(line) => (line, Rule::G4),
        Fault::Unbuilt(line) => (line, Rule::G9),
    };
    Refusal { line, rule }
}

/// The raw tree that a text spells: a machine and its proofs, with names and sorts as they are written.
///
/// Refuses with L1 to L4 over the whole text, then with the first of G1 to G4. A program is not read yet: where it
/// begins, the answer is G9.
#[tactic(auto, unfolding(crate::specs::Machines::parsed))]
pub fn parse(alloc: Global, text: &[u8]) -> Result<RawText, Stop>
    ensures { Gives (λ t. t) result (parsed text.now) }
{
    let terminals = read_terminals(alloc, text)?;
    match text_of(alloc, terminals.list.as_slice()) {
        Ok((machine, proofs)) => Ok(RawText {
            machine,
            proofs,
            names: terminals.names,
        }),
        Err(Halt::Fault(fault)) => Err(Stop::Refused(refusal_of(terminals.last_line, fault))),
        Err(Halt::Memory) => Err(Stop::Memory),
    }
}
