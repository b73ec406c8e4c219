//! Reading one lexeme. `left` is 65 less the number of brackets that are open before it: at 0 it is too deep.
ghost use Rattle.std.specs.Prelude.{◌≡◌, ◌<◌, [], ◌∷◌, IfOk, MatchOption};
ghost use Rattle.sync_parse_exprs.specs.Faults.{Reads};
ghost use Rattle.sync_parse_exprs.specs.Terminals.{first_line, begins_with, goes_on, sign_at, name_at, number_at, strategy_at, series, names_at};

use crate::faults::{Fault, Halt};
use crate::raw_names::RawName;
use sqlite_items::Items;
use std::alloc::Global;
use sync_base::Strategy;
use sync_lex::{Sign, Terminal, TerminalKind};

/// A value and the terminals behind it.
pub type Read<'a, T> = Result<(T, &'a [Terminal]), Halt>;

/// The first terminal and those behind it.
pub fn next(terminals: &[Terminal]) -> Option<(Terminal, &[Terminal])>
    ensures { MatchOption result (terminals.now ≡ []) (λ p. terminals.now ≡ p.0 ∷ p.1.now) }
{
    let (first, rest) = terminals.split_first()?;
    Some((*first, rest))
}

pub fn first_line(terminals: &[Terminal]) -> u32
    ensures { result ≡ first_line terminals.now }
{
    match next(terminals) {
        Some((terminal, _)) => terminal.line,
        None => 0,
    }
}

/// Whether the terminals begin with this sign.
pub fn begins_with(terminals: &[Terminal], sign: Sign) -> bool
    ensures { result ≡ begins_with sign terminals.now }
{
    match next(terminals) {
        Some((terminal, _)) => terminal.is(sign),
        None => false,
    }
}

/// Whether the terminals go on within braces.
pub fn goes_on(terminals: &[Terminal]) -> bool
    ensures { result ≡ goes_on terminals.now }
{
    match next(terminals) {
        Some((terminal, _)) => !terminal.is(Sign::CloseBrace),
        None => false,
    }
}

pub fn wanted(line: u32) -> Halt
    ensures { result ≡ Halt.Fault (Fault.Wanted line) }
{
    Halt::Fault(Fault::Wanted(line))
}

pub fn deep(line: u32) -> Halt
    ensures { result ≡ Halt.Fault (Fault.Deep line) }
{
    Halt::Fault(Fault::Deep(line))
}

/// A sign or a reserved word; its line.
#[tactic(auto, unfolding(crate::specs::Terminals::sign_at))]
pub fn sign(terminals: &[Terminal], left: u32, sign: Sign) -> Read<'_, u32>
    ensures reads { Reads (λ x. (x.0, x.1.now)) result (sign_at left sign terminals.now) }
    ensures shallow { IfOk result (λ x. 0 < left) }
{
    let (terminal, rest) = next(terminals).ok_or(Halt::Fault(Fault::Ended))?;
    if !terminal.is(sign) {
        return Err(wanted(terminal.line));
    }
    if left == 0 {
        return Err(deep(terminal.line));
    }
    Ok((terminal.line, rest))
}

#[tactic(auto, unfolding(crate::specs::Terminals::name_at))]
pub fn name(terminals: &[Terminal], left: u32) -> Read<'_, RawName>
    ensures { Reads (λ x. (x.0, x.1.now)) result (name_at left terminals.now) }
{
    let (terminal, rest) = next(terminals).ok_or(Halt::Fault(Fault::Ended))?;
    match terminal.what {
        TerminalKind::Name(_, _) if left == 0 => Err(deep(terminal.line)),
        TerminalKind::Name(name, _) => Ok((
            RawName {
                name,
                line: terminal.line,
            },
            rest,
        )),
        TerminalKind::Number(_) | TerminalKind::Sign(_) => Err(wanted(terminal.line)),
    }
}

#[tactic(auto, unfolding(crate::specs::Terminals::number_at))]
pub fn number(terminals: &[Terminal], left: u32) -> Read<'_, u128>
    ensures { Reads (λ x. (x.0, x.1.now)) result (number_at left terminals.now) }
{
    let (terminal, rest) = next(terminals).ok_or(Halt::Fault(Fault::Ended))?;
    match terminal.what {
        TerminalKind::Number(_) if left == 0 => Err(deep(terminal.line)),
        TerminalKind::Number(number) => Ok((number, rest)),
        TerminalKind::Name(_, _) | TerminalKind::Sign(_) => Err(wanted(terminal.line)),
    }
}

/// A name that is the name of a strategy.
#[tactic(auto, unfolding(crate::specs::Terminals::strategy_at))]
pub fn strategy(terminals: &[Terminal], left: u32) -> Read<'_, Strategy>
    ensures { Reads (λ x. (x.0, x.1.now)) result (strategy_at left terminals.now) }
{
    let (terminal, rest) = next(terminals).ok_or(Halt::Fault(Fault::Ended))?;
    match terminal.what {
        TerminalKind::Name(_, Some(_)) if left == 0 => Err(deep(terminal.line)),
        TerminalKind::Name(_, Some(strategy)) => Ok((strategy, rest)),
        TerminalKind::Name(_, None) | TerminalKind::Number(_) | TerminalKind::Sign(_) => Err(wanted(
            terminal.line,
        )),
    }
}

/// Names with commas between, at least one.
#[tactic(auto, unfolding(crate::specs::Terminals::series, crate::specs::Terminals::behind_commas))]
fn name_series(alloc: Global, terminals: &[Terminal], left: u32) -> Read<'_, Items<RawName>>
    ensures { Reads (λ x. (x.0, x.1.now)) result (series (name_at left) terminals.now) }
{
    let (first, mut rest) = name(terminals, left)?;
    let mut held = Items::new(alloc);
    held.push(first)?;
    for _ in 0..rest.len() {
        match next(rest) {
            Some((terminal, after)) if terminal.is(Sign::Comma) => {
                let (item, after) = name(after, left)?;
                held.push(item)?;
                rest = after;
            }
            _ => return Ok((held, rest)),
        }
    }
    Ok((held, rest))
}

/// Names with commas between, in round brackets.
#[tactic(auto, unfolding(crate::specs::Terminals::names_at, crate::specs::Terminals::in_round, crate::specs::Terminals::listed))]
pub fn names(alloc: Global, terminals: &[Terminal], left: u32) -> Read<'_, Items<RawName>>
    ensures { Reads (λ x. (x.0, x.1.now)) result (names_at left terminals.now) }
{
    let (_, rest) = sign(terminals, left, Sign::OpenRound)?;
    let (names, rest) = if begins_with(rest, Sign::CloseRound) {
        (Items::new(alloc), rest)
    } else {
        name_series(alloc, rest, left - 1)?
    };
    let (_, rest) = sign(rest, left - 1, Sign::CloseRound)?;
    Ok((names, rest))
}
