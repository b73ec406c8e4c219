//! Reading expressions. `left` is 65 less the number of brackets that are open.
ghost use Rattle.std.specs.Prelude.{◌≡◌, ◌<◌, ℕ, false, None, Ok, IfOk, IfSome, IsTrue};
ghost use Rattle.sync_lex.specs.declared.signs.Sign.TheVariants as sign;
ghost use Rattle.sync_lex.specs.Terminals.{is_sign};
ghost use Rattle.sync_parse_exprs.specs.Faults.{Reads};
ghost use Rattle.sync_parse_exprs.specs.Terminals.{Reader, series};
ghost use Rattle.sync_parse_exprs.specs.declared.expressions.RawExprKind.{RawExprKind};
ghost use Rattle.sync_parse_exprs.specs.Expressions.{signed, placed, special_of, function_of, begins_operand, relation_of, sum_of, factor_of, whole, sign_operand, operand, unary, product, sums, relation, operator_at, item_at, level_at, implies, inside, expr_at, exprs_at};

use crate::expressions::{Function, Operator, RawExpr, RawExprKind, Special};
use crate::faults::{Fault, Halt};
use crate::raw_names::RawName;
use crate::terminals::{Read, begins_with, deep, first_line, name, next, number, sign, wanted};
use sqlite_items::{Boxed, Items};
use std::alloc::{AllocError, Global};
use sync_base::LARGEST;
use sync_lex::{Sign, Terminal, TerminalKind};

/// So many operators of a chain, or prefix signs of a run, may stand at one level.
const CHAIN: u32 = 64;

/// The levels whose operators lean to the left.
#[derive(Clone, Copy)]
pub(crate) enum Level {
    /// `+` and `-`
    Sums,
    /// `&&`
    Ands,
    /// `||`
    Ors,
}

/// A number of the text.
pub fn signed(number: u128) -> i128
    ensures { result ≡ signed number }
{
    number.min(LARGEST) as i128
}

fn placed(alloc: Global, what: RawExprKind, line: u32) -> Result<Boxed<RawExpr>, AllocError>
    ensures { IfOk result (λ e. e ≡ placed what line) }
{
    Boxed::new(alloc, RawExpr { what, line })
}

/// Two expressions with an operator between, each with its line.
fn two(
    alloc: Global,
    operator: Operator,
    first: RawExprKind,
    line: u32,
    second: RawExprKind,
    second_line: u32,
) -> Result<RawExprKind, AllocError>
    ensures { IfOk result (λ e. e ≡ RawExprKind.Two operator (placed first line) (placed second second_line)) }
{
    let first = placed(alloc, first, line)?;
    let second = placed(alloc, second, second_line)?;
    Ok(RawExprKind::Two(operator, first, second))
}

/// The terminal that has a value at some places.
#[tactic(auto, unfolding(crate::specs::Expressions::special_of))]
pub fn special_of(sign: Sign) -> Option<Special>
    ensures { result ≡ special_of sign }
{
    if sign == Sign::Value {
        Some(Special::Value)
    } else if sign == Sign::Index {
        Some(Special::Index)
    } else if sign == Sign::Old {
        Some(Special::Old)
    } else if sign == Sign::New {
        Some(Special::New)
    } else if sign == Sign::Wrap {
        Some(Special::Wrap)
    } else {
        None
    }
}

#[tactic(auto, unfolding(crate::specs::Expressions::function_of))]
fn function_of(sign: Sign) -> Option<Function>
    ensures { result ≡ function_of sign }
{
    if sign == Sign::Get {
        Some(Function::Get)
    } else if sign == Sign::Has {
        Some(Function::Has)
    } else if sign == Sign::Size {
        Some(Function::Size)
    } else if sign == Sign::Sum {
        Some(Function::Sum)
    } else if sign == Sign::Put {
        Some(Function::Put)
    } else if sign == Sign::Del {
        Some(Function::Del)
    } else if sign == Sign::Bump {
        Some(Function::Bump)
    } else if sign == Sign::Held {
        Some(Function::Held)
    } else {
        None
    }
}

#[tactic(auto, unfolding(crate::specs::Expressions::relation_of))]
fn relation_of(terminal: Terminal) -> Option<Operator>
    ensures { result ≡ relation_of terminal }
{
    if terminal.is(Sign::Equal) {
        Some(Operator::Equal)
    } else if terminal.is(Sign::NotEqual) {
        Some(Operator::NotEqual)
    } else if terminal.is(Sign::AtMost) {
        Some(Operator::AtMost)
    } else if terminal.is(Sign::Below) {
        Some(Operator::Below)
    } else {
        None
    }
}

#[tactic(auto, unfolding(crate::specs::Expressions::sum_of))]
fn sum_of(terminal: Terminal) -> Option<Operator>
    ensures { result ≡ sum_of terminal }
{
    if terminal.is(Sign::Plus) {
        Some(Operator::Plus)
    } else if terminal.is(Sign::Minus) {
        Some(Operator::Minus)
    } else {
        None
    }
}

/// The operator of a level that a terminal is.
fn operator_at(level: Level, terminal: Terminal) -> Option<Operator>
    ensures { result ≡ operator_at level terminal }
{
    match level {
        Level::Sums => sum_of(terminal),
        Level::Ands if terminal.is(Sign::And) => Some(Operator::And),
        Level::Ors if terminal.is(Sign::Or) => Some(Operator::Or),
        Level::Ands | Level::Ors => None,
    }
}

#[tactic(auto, unfolding(crate::specs::Expressions::begins_operand))]
fn begins_operand(sign: Sign) -> bool
    ensures { result ≡ begins_operand sign }
{
    sign == Sign::Nil
        || sign == Sign::Dollar
        || sign == Sign::OpenRound
        || special_of(sign).is_some()
        || function_of(sign).is_some()
}

/// The number of a product that begins here.
#[tactic(auto, unfolding(crate::specs::Expressions::factor_of))]
fn factor_of(terminals: &[Terminal]) -> Option<u128>
    ensures { result ≡ factor_of terminals.now }
{
    let (terminal, rest) = next(terminals)?;
    let (star, _) = next(rest)?;
    match terminal.what {
        TerminalKind::Number(number) if star.is(Sign::Star) => Some(number),
        _ => None,
    }
}

fn number_leaf(number: u128) -> RawExprKind
    ensures { result ≡ RawExprKind.Number (signed number) }
{
    RawExprKind::Number(signed(number))
}

/// A name or a number that no `*`, `+` or `-` follows: a sum by itself.
///
/// Most expressions are one, so it is looked for before the levels are gone through.
fn leaf<'a>(terminals: &'a [Terminal], left: u32) -> Option<(RawExprKind, &'a [Terminal])>
    ensures { IfSome result (λ x. (inner : Reader RawExprKind) → sums inner left terminals.now ≡ Ok (x.0, x.1.now)) }
{
    let (first, rest) = next(terminals)?;
    let (behind, _) = next(rest)?;
    if left == 0 || behind.is(Sign::Star) || sum_of(behind).is_some() {
        return None;
    }
    match first.what {
        TerminalKind::Name(name, _) => {
            let line = first.line;
            Some((RawExprKind::Name(RawName { name, line }), rest))
        }
        TerminalKind::Number(number) => Some((number_leaf(number), rest)),
        TerminalKind::Sign(_) => None,
    }
}

/// Whether a terminal is no operator above sums.
fn ends_levels(terminal: Terminal) -> bool
    ensures relations { IsTrue result → relation_of terminal ≡ None }
    ensures ands { IsTrue result → is_sign terminal sign.And ≡ false }
    ensures ors { IsTrue result → is_sign terminal sign.Or ≡ false }
    ensures implications { IsTrue result → is_sign terminal sign.Implies ≡ false }
{
    relation_of(terminal).is_none()
        && !terminal.is(Sign::And)
        && !terminal.is(Sign::Or)
        && !terminal.is(Sign::Implies)
}

/// A name or a number that no operator follows: an expression by itself.
fn lone<'a>(terminals: &'a [Terminal], left: u32) -> Option<(RawExprKind, &'a [Terminal])>
    ensures { IfSome result (λ x. (inner : Reader RawExprKind) (run : ℕ) → implies inner left run terminals.now ≡ Ok (x.0, x.1.now)) }
{
    let (what, rest) = leaf(terminals, left)?;
    match next(rest) {
        Some((behind, _)) if ends_levels(behind) => Some((what, rest)),
        _ => None,
    }
}

/// An expression inside of brackets that open at a level.
#[cycle(expr)]
#[tactic(auto, using(crate::proofs::Inside::inside_is))]
fn expr_inside<'a>(alloc: Global, terminals: &'a [Terminal], left: u32) -> Read<'a, RawExpr>
    requires { 0 < left }
    ensures { Reads (λ x. (x.0, x.1.now)) result (whole (inside left) terminals.now) }
{
    let line = first_line(terminals);
    if let Some((what, rest)) = lone(terminals, left - 1) {
        return Ok((RawExpr { what, line }, rest));
    }
    let (what, rest) = implies(alloc, terminals, left - 1, CHAIN)?;
    Ok((RawExpr { what, line }, rest))
}

/// How many arguments a function mostly has.
fn usual_arguments(function: Function) -> usize {
    match function {
        Function::Size | Function::Sum | Function::Held => 1,
        Function::Get | Function::Has | Function::Del => 2,
        Function::Put | Function::Bump => 3,
    }
}

/// Expressions with commas between, at least one, inside of brackets that open at a level.
///
/// Room is made for so many first.
#[cycle(expr)]
#[tactic(auto, unfolding(crate::specs::Terminals::series, crate::specs::Terminals::behind_commas))]
fn expr_series<'a>(
    alloc: Global,
    terminals: &'a [Terminal],
    left: u32,
    room: usize,
) -> Read<'a, Items<RawExpr>>
    requires { 0 < left }
    ensures { Reads (λ x. (x.0, x.1.now)) result (series (whole (inside left)) terminals.now) }
{
    let (first, mut rest) = expr_inside(alloc, terminals, left)?;
    let mut held = Items::from_vec(Vec::with_capacity(alloc, room)?);
    held.push(first)?;
    for _ in 0..rest.len() {
        match next(rest) {
            Some((terminal, after)) if terminal.is(Sign::Comma) => {
                let (item, after) = expr_inside(alloc, after, left)?;
                held.push(item)?;
                rest = after;
            }
            _ => return Ok((held, rest)),
        }
    }
    Ok((held, rest))
}

/// An operand that begins with this sign or reserved word; the terminals are those behind it.
#[cycle(expr)]
#[tactic(auto, using(crate::proofs::Inside::inside_is), unfolding(crate::specs::Expressions::sign_operand, crate::specs::Terminals::in_round, crate::specs::Terminals::listed))]
fn sign_operand<'a>(
    alloc: Global,
    first: Sign,
    line: u32,
    terminals: &'a [Terminal],
    left: u32,
) -> Read<'a, RawExprKind>
    ensures { Reads (λ x. (x.0, x.1.now)) result (sign_operand (inside left) left first line terminals.now) }
{
    if !begins_operand(first) {
        return Err(wanted(line));
    }
    if left == 0 {
        return Err(deep(line));
    }
    if first == Sign::Nil {
        return Ok((RawExprKind::Nil, terminals));
    }
    if first == Sign::Dollar {
        let (param, rest) = name(terminals, left)?;
        return Ok((RawExprKind::Param(line, param), rest));
    }
    if first == Sign::OpenRound {
        let (inner, rest) = expr_inside(alloc, terminals, left)?;
        let (_, rest) = sign(rest, left - 1, Sign::CloseRound)?;
        return Ok((RawExprKind::Bracketed(Boxed::new(alloc, inner)?), rest));
    }
    if let Some(terminal) = special_of(first) {
        return Ok((RawExprKind::Special(terminal, line), terminals));
    }
    match function_of(first) {
        Some(function) => {
            let (_, rest) = sign(terminals, left, Sign::OpenRound)?;
            let (list, rest) = if begins_with(rest, Sign::CloseRound) {
                (Items::new(alloc), rest)
            } else {
                expr_series(alloc, rest, left, usual_arguments(function))?
            };
            let (_, rest) = sign(rest, left - 1, Sign::CloseRound)?;
            Ok((RawExprKind::Call(function, line, list), rest))
        }
        None => Err(wanted(line)),
    }
}

#[cycle(expr)]
#[tactic(auto, unfolding(crate::specs::Expressions::operand))]
fn operand<'a>(alloc: Global, terminals: &'a [Terminal], left: u32) -> Read<'a, RawExprKind>
    ensures { Reads (λ x. (x.0, x.1.now)) result (operand (inside left) left terminals.now) }
{
    let (terminal, rest) = next(terminals).ok_or(Halt::Fault(Fault::Ended))?;
    let line = terminal.line;
    match terminal.what {
        TerminalKind::Sign(first) => sign_operand(alloc, first, line, rest, left),
        TerminalKind::Number(_) | TerminalKind::Name(_, _) if left == 0 => Err(deep(line)),
        TerminalKind::Number(number) => Ok((RawExprKind::Number(signed(number)), rest)),
        TerminalKind::Name(name, _) => Ok((RawExprKind::Name(RawName { name, line }), rest)),
    }
}

/// An operand behind at most `run` prefix signs.
#[cycle(expr)]
#[tactic(auto, unfolding(crate::specs::Expressions::unary))]
fn unary<'a>(alloc: Global, terminals: &'a [Terminal], left: u32, run: u32) -> Read<'a, RawExprKind>
    ensures { Reads (λ x. (x.0, x.1.now)) result (unary (inside left) left run terminals.now) }
{
    let (terminal, rest) = next(terminals).ok_or(Halt::Fault(Fault::Ended))?;
    if terminal.is(Sign::Bang) {
        if left == 0 || run == 0 {
            return Err(deep(terminal.line));
        }
        let line = first_line(rest);
        let (what, rest) = unary(alloc, rest, left, run - 1)?;
        return Ok((RawExprKind::Not(placed(alloc, what, line)?), rest));
    }
    if terminal.is(Sign::Minus) {
        if left == 0 || run == 0 {
            return Err(deep(terminal.line));
        }
        let line = first_line(rest);
        let (what, rest) = unary(alloc, rest, left, run - 1)?;
        return Ok((RawExprKind::Minus(placed(alloc, what, line)?), rest));
    }
    operand(alloc, terminals, left)
}

#[cycle(expr)]
#[tactic(auto, unfolding(crate::specs::Expressions::product))]
fn product<'a>(alloc: Global, terminals: &'a [Terminal], left: u32) -> Read<'a, RawExprKind>
    ensures { Reads (λ x. (x.0, x.1.now)) result (product (inside left) left terminals.now) }
{
    if factor_of(terminals).is_none() {
        return unary(alloc, terminals, left, CHAIN);
    }
    let (factor, rest) = number(terminals, left)?;
    let (_, rest) = sign(rest, left, Sign::Star)?;
    let line = first_line(rest);
    let (what, rest) = unary(alloc, rest, left, CHAIN)?;
    let operand = placed(alloc, what, line)?;
    Ok((RawExprKind::Times(signed(factor), operand), rest))
}

/// What stands between the operators of a level.
#[cycle(expr)]
fn item<'a>(
    alloc: Global,
    terminals: &'a [Terminal],
    left: u32,
    level: Level,
) -> Read<'a, RawExprKind>
    ensures { Reads (λ x. (x.0, x.1.now)) result (item_at level (inside left) left terminals.now) }
{
    match level {
        Level::Sums => product(alloc, terminals, left),
        Level::Ands => relation(alloc, terminals, left),
        Level::Ors => chained(alloc, terminals, left, Level::Ands),
    }
}

/// Items of a level with its operators between, from the left.
#[cycle(expr)]
#[tactic(auto, using(crate::proofs::Chains::level_is), unfolding(crate::specs::Expressions::chain))]
fn chained<'a>(
    alloc: Global,
    terminals: &'a [Terminal],
    left: u32,
    level: Level,
) -> Read<'a, RawExprKind>
    ensures { Reads (λ x. (x.0, x.1.now)) result (level_at level (inside left) left terminals.now) }
{
    let line = first_line(terminals);
    let (mut held, mut rest) = item(alloc, terminals, left, level)?;
    let mut more = CHAIN;
    loop {
        let Some((terminal, after)) = next(rest) else {
            return Ok((held, rest));
        };
        let Some(operator) = operator_at(level, terminal) else {
            return Ok((held, rest));
        };
        if more == 0 {
            return Err(deep(terminal.line));
        }
        more -= 1;
        let second_line = first_line(after);
        let (second, after) = item(alloc, after, left, level)?;
        held = two(alloc, operator, held, line, second, second_line)?;
        rest = after;
    }
}

/// Products with `+` or `-` between, from the left.
#[cycle(expr)]
fn sum<'a>(alloc: Global, terminals: &'a [Terminal], left: u32) -> Read<'a, RawExprKind>
    ensures { Reads (λ x. (x.0, x.1.now)) result (sums (inside left) left terminals.now) }
{
    match leaf(terminals, left) {
        Some(leaf) => Ok(leaf),
        None => chained(alloc, terminals, left, Level::Sums),
    }
}

#[cycle(expr)]
#[tactic(auto, unfolding(crate::specs::Expressions::relation))]
fn relation<'a>(alloc: Global, terminals: &'a [Terminal], left: u32) -> Read<'a, RawExprKind>
    ensures { Reads (λ x. (x.0, x.1.now)) result (relation (inside left) left terminals.now) }
{
    let line = first_line(terminals);
    let (first, rest) = sum(alloc, terminals, left)?;
    let Some((terminal, after)) = next(rest) else {
        return Ok((first, rest));
    };
    let Some(operator) = relation_of(terminal) else {
        return Ok((first, rest));
    };
    let second_line = first_line(after);
    let (second, rest) = sum(alloc, after, left)?;
    Ok((
        two(alloc, operator, first, line, second, second_line)?,
        rest,
    ))
}

/// Disjunctions with at most `run` times `==>` between, from the right.
#[cycle(expr)]
#[tactic(auto, unfolding(crate::specs::Expressions::implies))]
fn implies<'a>(
    alloc: Global,
    terminals: &'a [Terminal],
    left: u32,
    run: u32,
) -> Read<'a, RawExprKind>
    ensures { Reads (λ x. (x.0, x.1.now)) result (implies (inside left) left run terminals.now) }
{
    let line = first_line(terminals);
    let (first, rest) = chained(alloc, terminals, left, Level::Ors)?;
    let Some((terminal, after)) = next(rest) else {
        return Ok((first, rest));
    };
    if !terminal.is(Sign::Implies) {
        return Ok((first, rest));
    }
    if run == 0 {
        return Err(deep(terminal.line));
    }
    let second_line = first_line(after);
    let (second, rest) = implies(alloc, after, left, run - 1)?;
    Ok((
        two(alloc, Operator::Implies, first, line, second, second_line)?,
        rest,
    ))
}

/// An expression with the line of its first lexeme.
#[tactic(auto, unfolding(crate::specs::Expressions::expr_at))]
pub fn expr<'a>(alloc: Global, terminals: &'a [Terminal], left: u32) -> Read<'a, RawExpr>
    ensures { Reads (λ x. (x.0, x.1.now)) result (expr_at left terminals.now) }
{
    let line = first_line(terminals);
    if let Some((what, rest)) = lone(terminals, left) {
        return Ok((RawExpr { what, line }, rest));
    }
    let (what, rest) = implies(alloc, terminals, left, CHAIN)?;
    Ok((RawExpr { what, line }, rest))
}

/// Expressions with commas between, or nothing, in round brackets.
#[tactic(auto, unfolding(crate::specs::Terminals::in_round, crate::specs::Terminals::listed))]
pub fn exprs<'a>(alloc: Global, terminals: &'a [Terminal], left: u32) -> Read<'a, Items<RawExpr>>
    ensures { Reads (λ x. (x.0, x.1.now)) result (exprs_at left terminals.now) }
{
    let (_, rest) = sign(terminals, left, Sign::OpenRound)?;
    let (list, rest) = if begins_with(rest, Sign::CloseRound) {
        (Items::new(alloc), rest)
    } else {
        expr_series(alloc, rest, left, 2)?
    };
    let (_, rest) = sign(rest, left - 1, Sign::CloseRound)?;
    Ok((list, rest))
}
