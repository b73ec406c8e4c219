//! Reading proof scripts. `left` is 65 less the number of brackets that are open.
ghost use Rattle.std.specs.Prelude.{◌≡◌, ◌-◌, ◌<◌};
ghost use Rattle.sync_lex.specs.declared.signs.Sign.TheVariants as sign;
ghost use Rattle.sync_parse.specs.declared.scripts.RawStepKind.TheVariants as step;
ghost use Rattle.sync_parse_exprs.specs.Faults.{Reads};
ghost use Rattle.sync_parse_exprs.specs.Terminals.{series};
ghost use Rattle.sync_parse.specs.Scripts.{statement_number, times_of, bounded_of, subject_at, hyp_at, as_name, scaled, part_at, same_step, sum_step, inst_step, parts_step, LookupMaker, lookup_step, cong_step, blockless_step, split_step, cut_step, step_at, steps, nested, block_at, script_at};

use crate::scripts::{
    RawBlock, RawHypName, RawPart, RawScript, RawScriptStep, RawStepKind, RawSubject,
};
use sqlite_items::Items;
use std::alloc::Global;
use sync_lex::{Sign, Terminal, TerminalKind};
use sync_parse_exprs::{
    Fault, Halt, RawExpr, RawName, Read, Special, begins_with, deep, expr, exprs, first_line,
    goes_on, name, next, number, sign, signed, wanted,
};

/// The number of a statement as it is kept.
pub(crate) fn statement_number(number: u128) -> u32
    ensures { result ≡ statement_number number }
{
    number.min(u128::from(u32::MAX)) as u32
}

#[tactic(auto, unfolding(crate::specs::Scripts::bounded_of))]
fn bounded_of(sign: Sign) -> Option<Special>
    ensures { result ≡ bounded_of sign }
{
    if sign == Sign::Old {
        Some(Special::Old)
    } else if sign == Sign::New {
        Some(Special::New)
    } else if sign == Sign::Wrap {
        Some(Special::Wrap)
    } else {
        None
    }
}

/// A name, or `old`, `new` or `wrap`.
#[tactic(auto, unfolding(crate::specs::Scripts::subject_at))]
fn subject<'a>(terminals: &'a [Terminal], left: u32) -> Read<'a, RawSubject>
    ensures { Reads (λ x. (x.0, x.1.now)) result (subject_at left terminals.now) }
{
    let (terminal, rest) = next(terminals).ok_or(Halt::Fault(Fault::Ended))?;
    let line = terminal.line;
    let subject = match terminal.what {
        TerminalKind::Name(name, _) => RawSubject::Name(RawName { name, line }),
        TerminalKind::Sign(sign) => match bounded_of(sign) {
            Some(terminal) => RawSubject::Special(terminal, line),
            None => return Err(wanted(line)),
        },
        TerminalKind::Number(_) => return Err(wanted(line)),
    };
    if left == 0 {
        return Err(deep(line));
    }
    Ok((subject, rest))
}

#[tactic(auto, unfolding(crate::specs::Scripts::hyp_at))]
fn hyp<'a>(terminals: &'a [Terminal], left: u32) -> Read<'a, RawHypName>
    ensures { Reads (λ x. (x.0, x.1.now)) result (hyp_at left terminals.now) }
{
    if begins_with(terminals, Sign::Denied) {
        let (_, rest) = sign(terminals, left, Sign::Denied)?;
        return Ok((RawHypName::Denied, rest));
    }
    if begins_with(terminals, Sign::At) {
        let (_, rest) = sign(terminals, left, Sign::At)?;
        let (at, rest) = number(rest, left)?;
        return Ok((RawHypName::At(statement_number(at)), rest));
    }
    if begins_with(terminals, Sign::Low) {
        let (_, rest) = sign(terminals, left, Sign::Low)?;
        let (subject, rest) = subject(rest, left)?;
        return Ok((RawHypName::Low(subject), rest));
    }
    if begins_with(terminals, Sign::High) {
        let (_, rest) = sign(terminals, left, Sign::High)?;
        let (subject, rest) = subject(rest, left)?;
        return Ok((RawHypName::High(subject), rest));
    }
    let (label, rest) = name(terminals, left)?;
    Ok((RawHypName::Label(label), rest))
}

/// `as` and the name that a step gives.
#[tactic(auto, unfolding(crate::specs::Scripts::as_name))]
fn as_name<'a>(terminals: &'a [Terminal], left: u32) -> Read<'a, RawName>
    ensures { Reads (λ x. (x.0, x.1.now)) result (as_name left terminals.now) }
{
    let (_, rest) = sign(terminals, left, Sign::As)?;
    name(rest, left)
}

fn times_of(minus: bool, number: u128) -> i128
    ensures { result ≡ times_of minus number }
{
    if minus {
        -signed(number)
    } else {
        signed(number)
    }
}

#[tactic(auto, unfolding(crate::specs::Scripts::scaled))]
fn scaled<'a>(terminals: &'a [Terminal], left: u32, minus: bool) -> Read<'a, RawPart>
    ensures { Reads (λ x. (x.0, x.1.now)) result (scaled minus left terminals.now) }
{
    let (number, rest) = number(terminals, left)?;
    let (hyp, rest) = hyp(rest, left)?;
    let times = times_of(minus, number);
    Ok((RawPart { times, hyp }, rest))
}

/// A number, which may have `-` before it, times a hypothesis.
#[tactic(auto, unfolding(crate::specs::Scripts::part_at))]
fn part<'a>(terminals: &'a [Terminal], left: u32) -> Read<'a, RawPart>
    ensures { Reads (λ x. (x.0, x.1.now)) result (part_at left terminals.now) }
{
    if begins_with(terminals, Sign::Minus) {
        let (_, rest) = sign(terminals, left, Sign::Minus)?;
        return scaled(rest, left, true);
    }
    scaled(terminals, left, false)
}

/// Parts with commas between, at least one.
#[tactic(auto, unfolding(sync_parse_exprs::specs::Terminals::series, sync_parse_exprs::specs::Terminals::behind_commas))]
fn part_series<'a>(alloc: Global, terminals: &'a [Terminal], left: u32) -> Read<'a, Items<RawPart>>
    ensures { Reads (λ x. (x.0, x.1.now)) result (series (part_at left) terminals.now) }
{
    let (first, mut rest) = part(terminals, left)?;
    let mut held = Items::new(alloc);
    held.push(first)?;
    for _ in 0..rest.len() {
        match next(rest) {
            Some((terminal, after)) if terminal.is(Sign::Comma) => {
                let (item, after) = part(after, left)?;
                held.push(item)?;
                rest = after;
            }
            _ => return Ok((held, rest)),
        }
    }
    Ok((held, rest))
}

#[tactic(auto, unfolding(crate::specs::Scripts::same_step))]
fn same_step<'a>(terminals: &'a [Terminal], left: u32) -> Read<'a, RawStepKind>
    ensures { Reads (λ x. (x.0, x.1.now)) result (same_step left terminals.now) }
{
    let (_, rest) = sign(terminals, left, Sign::Same)?;
    let (_, rest) = sign(rest, left, Sign::Semicolon)?;
    Ok((RawStepKind::Same, rest))
}

#[tactic(auto, unfolding(crate::specs::Scripts::sum_step))]
fn sum_step<'a>(alloc: Global, terminals: &'a [Terminal], left: u32) -> Read<'a, RawStepKind>
    ensures { Reads (λ x. (x.0, x.1.now)) result (sum_step left terminals.now) }
{
    let (_, rest) = sign(terminals, left, Sign::Sum)?;
    let (parts, rest) = part_series(alloc, rest, left)?;
    let (_, rest) = sign(rest, left, Sign::Semicolon)?;
    Ok((RawStepKind::Sum(parts), rest))
}

#[tactic(auto, unfolding(crate::specs::Scripts::inst_step))]
fn inst_step<'a>(alloc: Global, terminals: &'a [Terminal], left: u32) -> Read<'a, RawStepKind>
    ensures { Reads (λ x. (x.0, x.1.now)) result (inst_step left terminals.now) }
{
    let (_, rest) = sign(terminals, left, Sign::Inst)?;
    let (hyp, rest) = hyp(rest, left)?;
    let (terms, rest) = exprs(alloc, rest, left)?;
    let (given, rest) = as_name(rest, left)?;
    let (_, rest) = sign(rest, left, Sign::Semicolon)?;
    Ok((RawStepKind::Inst(hyp, terms, given), rest))
}

#[tactic(auto, unfolding(crate::specs::Scripts::parts_step))]
fn parts_step<'a>(terminals: &'a [Terminal], left: u32) -> Read<'a, RawStepKind>
    ensures { Reads (λ x. (x.0, x.1.now)) result (parts_step left terminals.now) }
{
    let (_, rest) = sign(terminals, left, Sign::Parts)?;
    let (hyp, rest) = hyp(rest, left)?;
    let (first, rest) = as_name(rest, left)?;
    let (_, rest) = sign(rest, left, Sign::Comma)?;
    let (second, rest) = name(rest, left)?;
    let (_, rest) = sign(rest, left, Sign::Semicolon)?;
    Ok((RawStepKind::Parts(hyp, first, second), rest))
}

/// `read`, `size` or `total`, a map, a key and the name that is given, whatever is made of them.
#[tactic(auto, unfolding(crate::specs::Scripts::lookup_step))]
fn lookup<'a>(
    alloc: Global,
    terminals: &'a [Terminal],
    left: u32,
    opening: Sign,
) -> Read<'a, (RawExpr, RawExpr, RawName)>
    ensures { (made : LookupMaker) → Reads (λ x. (made x.0.0 x.0.1 x.0.2, x.1.now)) result (lookup_step opening made left terminals.now) }
{
    let (_, rest) = sign(terminals, left, opening)?;
    let (map, rest) = expr(alloc, rest, left)?;
    let (_, rest) = sign(rest, left, Sign::Comma)?;
    let (key, rest) = expr(alloc, rest, left)?;
    let (given, rest) = as_name(rest, left)?;
    let (_, rest) = sign(rest, left, Sign::Semicolon)?;
    Ok(((map, key, given), rest))
}

fn read_step<'a>(alloc: Global, terminals: &'a [Terminal], left: u32) -> Read<'a, RawStepKind>
    ensures { Reads (λ x. (x.0, x.1.now)) result (lookup_step sign.Read step.Read left terminals.now) }
{
    let ((map, key, given), rest) = lookup(alloc, terminals, left, Sign::Read)?;
    Ok((RawStepKind::Read(map, key, given), rest))
}

fn size_step<'a>(alloc: Global, terminals: &'a [Terminal], left: u32) -> Read<'a, RawStepKind>
    ensures { Reads (λ x. (x.0, x.1.now)) result (lookup_step sign.Size step.Size left terminals.now) }
{
    let ((map, key, given), rest) = lookup(alloc, terminals, left, Sign::Size)?;
    Ok((RawStepKind::Size(map, key, given), rest))
}

fn total_step<'a>(alloc: Global, terminals: &'a [Terminal], left: u32) -> Read<'a, RawStepKind>
    ensures { Reads (λ x. (x.0, x.1.now)) result (lookup_step sign.Total step.Total left terminals.now) }
{
    let ((map, key, given), rest) = lookup(alloc, terminals, left, Sign::Total)?;
    Ok((RawStepKind::Total(map, key, given), rest))
}

#[tactic(auto, unfolding(crate::specs::Scripts::cong_step))]
fn cong_step<'a>(alloc: Global, terminals: &'a [Terminal], left: u32) -> Read<'a, RawStepKind>
    ensures { Reads (λ x. (x.0, x.1.now)) result (cong_step left terminals.now) }
{
    let (_, rest) = sign(terminals, left, Sign::Cong)?;
    let (map, rest) = expr(alloc, rest, left)?;
    let (_, rest) = sign(rest, left, Sign::Comma)?;
    let (first, rest) = expr(alloc, rest, left)?;
    let (_, rest) = sign(rest, left, Sign::Comma)?;
    let (second, rest) = expr(alloc, rest, left)?;
    let (given, rest) = as_name(rest, left)?;
    let (_, rest) = sign(rest, left, Sign::Semicolon)?;
    Ok((RawStepKind::Cong(map, first, second, given), rest))
}

/// A step without a block.
#[tactic(auto, unfolding(crate::specs::Scripts::blockless_step))]
fn blockless_step<'a>(alloc: Global, terminals: &'a [Terminal], left: u32) -> Read<'a, RawStepKind>
    ensures { Reads (λ x. (x.0, x.1.now)) result (blockless_step left terminals.now) }
{
    let (terminal, _) = next(terminals).ok_or(Halt::Fault(Fault::Ended))?;
    if terminal.is(Sign::Same) {
        same_step(terminals, left)
    } else if terminal.is(Sign::Sum) {
        sum_step(alloc, terminals, left)
    } else if terminal.is(Sign::Inst) {
        inst_step(alloc, terminals, left)
    } else if terminal.is(Sign::Parts) {
        parts_step(terminals, left)
    } else if terminal.is(Sign::Read) {
        read_step(alloc, terminals, left)
    } else if terminal.is(Sign::Size) {
        size_step(alloc, terminals, left)
    } else if terminal.is(Sign::Total) {
        total_step(alloc, terminals, left)
    } else if terminal.is(Sign::Cong) {
        cong_step(alloc, terminals, left)
    } else {
        Err(wanted(terminal.line))
    }
}

#[cycle(script)]
#[tactic(auto, unfolding(crate::specs::Scripts::split_step, crate::specs::Scripts::block_at))]
fn split_step<'a>(alloc: Global, terminals: &'a [Terminal], left: u32) -> Read<'a, RawStepKind>
    ensures { Reads (λ x. (x.0, x.1.now)) result (split_step (block_at left) left terminals.now) }
{
    let (_, rest) = sign(terminals, left, Sign::Split)?;
    let (hyp, rest) = hyp(rest, left)?;
    let (given, rest) = as_name(rest, left)?;
    let (first, rest) = block(alloc, rest, left)?;
    let (second, rest) = block(alloc, rest, left)?;
    Ok((RawStepKind::Split(hyp, given, first, second), rest))
}

#[cycle(script)]
#[tactic(auto, unfolding(crate::specs::Scripts::cut_step, crate::specs::Scripts::block_at))]
fn cut_step<'a>(alloc: Global, terminals: &'a [Terminal], left: u32) -> Read<'a, RawStepKind>
    ensures { Reads (λ x. (x.0, x.1.now)) result (cut_step (block_at left) left terminals.now) }
{
    let (_, rest) = sign(terminals, left, Sign::Cut)?;
    let (form, rest) = expr(alloc, rest, left)?;
    let (given, rest) = as_name(rest, left)?;
    let (inner, rest) = block(alloc, rest, left)?;
    Ok((RawStepKind::Cut(form, given, inner), rest))
}

#[cycle(script)]
#[tactic(auto, unfolding(crate::specs::Scripts::step_at))]
fn step<'a>(alloc: Global, terminals: &'a [Terminal], left: u32) -> Read<'a, RawScriptStep>
    ensures { Reads (λ x. (x.0, x.1.now)) result (step_at (block_at left) left terminals.now) }
{
    let line = first_line(terminals);
    let (what, rest) = if begins_with(terminals, Sign::Split) {
        split_step(alloc, terminals, left)?
    } else if begins_with(terminals, Sign::Cut) {
        cut_step(alloc, terminals, left)?
    } else {
        blockless_step(alloc, terminals, left)?
    };
    Ok((RawScriptStep { what, line }, rest))
}

/// A step inside of a block that opens at a level.
#[cycle(script)]
#[tactic(auto, using(crate::proofs::Inside::nested_is))]
fn step_inside<'a>(alloc: Global, terminals: &'a [Terminal], left: u32) -> Read<'a, RawScriptStep>
    requires { 0 < left }
    ensures { Reads (λ x. (x.0, x.1.now)) result (step_at (nested left) (left - 1) terminals.now) }
{
    step(alloc, terminals, left - 1)
}

/// The steps of a block that opens at a level, up to its closing brace.
///
/// Most blocks have one step, so room is made for one first.
#[cycle(script)]
#[tactic(auto, unfolding(crate::specs::Scripts::steps, sync_parse_exprs::specs::Terminals::row))]
fn steps<'a>(alloc: Global, terminals: &'a [Terminal], left: u32) -> Read<'a, Items<RawScriptStep>>
    requires { 0 < left }
    ensures { Reads (λ x. (x.0, x.1.now)) result (steps (nested left) (left - 1) terminals.now) }
{
    let mut held = Items::from_vec(Vec::with_capacity(alloc, 1)?);
    let mut rest = terminals;
    for _ in 0..terminals.len() {
        if goes_on(rest) {
            let (item, after) = step_inside(alloc, rest, left)?;
            held.push(item)?;
            rest = after;
        } else {
            return Ok((held, rest));
        }
    }
    Ok((held, rest))
}

#[cycle(script)]
#[tactic(auto, unfolding(crate::specs::Scripts::block_at))]
fn block<'a>(alloc: Global, terminals: &'a [Terminal], left: u32) -> Read<'a, RawBlock>
    ensures { Reads (λ x. (x.0, x.1.now)) result (block_at left terminals.now) }
{
    let (_, rest) = sign(terminals, left, Sign::OpenBrace)?;
    let (steps, rest) = steps(alloc, rest, left)?;
    let (end_line, rest) = sign(rest, left - 1, Sign::CloseBrace)?;
    Ok((RawBlock { steps, end_line }, rest))
}

/// `by` and a block.
#[tactic(auto, unfolding(crate::specs::Scripts::script_at))]
pub fn script<'a>(alloc: Global, terminals: &'a [Terminal], left: u32) -> Read<'a, RawScript>
    ensures { Reads (λ x. (x.0, x.1.now)) result (script_at left terminals.now) }
{
    let (line, rest) = sign(terminals, left, Sign::By)?;
    let (block, rest) = block(alloc, rest, left)?;
    Ok((RawScript { block, line }, rest))
}
