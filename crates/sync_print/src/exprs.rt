//! Writing expressions. A place wants a level, as in the definitions: 0 `==>`, 1 `||`, 2 `&&`, 3 relations, 4 sums,
//! 5 a number times something, 6 operands and `!`.
ghost use Rattle.std.specs.Prelude.{◌≡◌, ◌++◌, map, unsigned_abs, OnOk};
ghost use Rattle.sync_print.specs.Exprs.{plain};
ghost use Rattle.sync_print.specs.Lexemes.{one, printed, listed};
ghost use Rattle.sync_print.specs.ShowExprs.{IsShownBetween, shown, show_expr, function_sign, special_sign};

use crate::lexemes::{name, needed, number, sign};
use std::alloc::{AllocError, Global};
use sync_base::NameList;
use sync_lex::Sign;
use sync_parse_exprs::{Function, Operator, RawExpr, RawExprKind, Special};

pub(crate) fn special_sign(special: Special) -> Sign
    ensures { result ≡ special_sign special }
{
    match special {
        Special::Value => Sign::Value,
        Special::Index => Sign::Index,
        Special::Old => Sign::Old,
        Special::New => Sign::New,
        Special::Wrap => Sign::Wrap,
    }
}

fn function_sign(function: Function) -> Sign
    ensures { result ≡ function_sign function }
{
    match function {
        Function::Get => Sign::Get,
        Function::Has => Sign::Has,
        Function::Size => Sign::Size,
        Function::Sum => Sign::Sum,
        Function::Put => Sign::Put,
        Function::Del => Sign::Del,
        Function::Bump => Sign::Bump,
        Function::Held => Sign::Held,
    }
}

/// A number without its sign.
pub(crate) fn magnitude(number: i128) -> u128
    ensures { result ≡ unsigned_abs number }
{
    number.unsigned_abs()
}

/// The levels of an operator with the sign between: its own, and those that its sides want.
#[derive(Clone, Copy)]
struct Shape {
    own: u32,
    left: u32,
    right: u32,
    sign: Sign,
}

/// The shape of an operator; `!=` is shown as the negation of `=` is.
fn shape_of(operator: Operator) -> Shape
    ensures { IsShownBetween operator result.own result.left result.sign result.right }
{
    let (own, left, right, sign) = match operator {
        Operator::Implies => (0, 1, 0, Sign::Implies),
        Operator::Or => (1, 1, 2, Sign::Or),
        Operator::And => (2, 2, 3, Sign::And),
        Operator::Equal => (3, 4, 4, Sign::Equal),
        Operator::NotEqual => (3, 4, 4, Sign::NotEqual),
        Operator::AtMost => (3, 4, 4, Sign::AtMost),
        Operator::Below => (3, 4, 4, Sign::Below),
        Operator::Plus => (4, 4, 5, Sign::Plus),
        Operator::Minus => (4, 4, 5, Sign::Minus),
    };
    Shape {
        own,
        left,
        right,
        sign,
    }
}

/// An expression at a place that wants a level.
#[cycle(exprs)]
#[tactic(auto, using(crate::proofs::Steps::joined, crate::proofs::Steps::nothing_more))]
pub fn expr(
    alloc: Global,
    names: &NameList,
    out: &mut Vec<u8>,
    wanted: u32,
    e: &RawExpr,
) -> Result<(), AllocError>
    ensures { OnOk result (out.new.items ≡ out.old.items ++ printed names.now ((shown (plain e.now)).at wanted)) }
{
    match &e.what {
        RawExprKind::Number(n) => number(alloc, names, out, magnitude(*n)),
        RawExprKind::Name(named) => name(names, out, named.name),
        RawExprKind::Param(_, named) => {
            sign(names, out, Sign::Dollar)?;
            name(names, out, named.name)?;
            Ok(())
        }
        RawExprKind::Nil => sign(names, out, Sign::Nil),
        RawExprKind::Bracketed(a) => expr(alloc, names, out, wanted, a.get()),
        RawExprKind::Special(special, _) => sign(names, out, special_sign(*special)),
        RawExprKind::Call(function, _, args) => {
            sign(names, out, function_sign(*function))?;
            sign(names, out, Sign::OpenRound)?;
            exprs(alloc, names, out, args.as_slice())?;
            sign(names, out, Sign::CloseRound)?;
            Ok(())
        }
        RawExprKind::Not(a) => negated(alloc, names, out, wanted, a.get()),
        RawExprKind::Minus(a) => {
            let low = 4 < wanted;
            needed(names, out, low, Sign::OpenRound)?;
            number(alloc, names, out, 0)?;
            sign(names, out, Sign::Minus)?;
            expr(alloc, names, out, 5, a.get())?;
            needed(names, out, low, Sign::CloseRound)?;
            Ok(())
        }
        RawExprKind::Times(n, a) => {
            let low = 5 < wanted;
            needed(names, out, low, Sign::OpenRound)?;
            number(alloc, names, out, magnitude(*n))?;
            sign(names, out, Sign::Star)?;
            expr(alloc, names, out, 6, a.get())?;
            needed(names, out, low, Sign::CloseRound)?;
            Ok(())
        }
        RawExprKind::Two(operator, a, b) => {
            let shape = shape_of(*operator);
            let low = shape.own < wanted;
            needed(names, out, low, Sign::OpenRound)?;
            expr(alloc, names, out, shape.left, a.get())?;
            sign(names, out, shape.sign)?;
            expr(alloc, names, out, shape.right, b.get())?;
            needed(names, out, low, Sign::CloseRound)?;
            Ok(())
        }
    }
}

/// The negation of an expression: `t != u` of `t = u`, else `!` before it.
#[cycle(exprs)]
#[tactic(auto, using(crate::proofs::Steps::joined, crate::proofs::Steps::nothing_more))]
fn negated(
    alloc: Global,
    names: &NameList,
    out: &mut Vec<u8>,
    wanted: u32,
    e: &RawExpr,
) -> Result<(), AllocError>
    ensures { OnOk result (out.new.items ≡ out.old.items ++ printed names.now ((shown (plain e.now)).negated wanted)) }
{
    match &e.what {
        RawExprKind::Bracketed(a) => negated(alloc, names, out, wanted, a.get()),
        RawExprKind::Two(operator, a, b) => match operator {
            Operator::Equal => {
                let low = 3 < wanted;
                needed(names, out, low, Sign::OpenRound)?;
                expr(alloc, names, out, 4, a.get())?;
                sign(names, out, Sign::NotEqual)?;
                expr(alloc, names, out, 4, b.get())?;
                needed(names, out, low, Sign::CloseRound)?;
                Ok(())
            }
            _ => banged(alloc, names, out, e),
        },
        RawExprKind::Number(_) => banged(alloc, names, out, e),
        RawExprKind::Name(_) => banged(alloc, names, out, e),
        RawExprKind::Param(_, _) => banged(alloc, names, out, e),
        RawExprKind::Nil => banged(alloc, names, out, e),
        RawExprKind::Special(_, _) => banged(alloc, names, out, e),
        RawExprKind::Call(_, _, _) => banged(alloc, names, out, e),
        RawExprKind::Not(_) => banged(alloc, names, out, e),
        RawExprKind::Minus(_) => banged(alloc, names, out, e),
        RawExprKind::Times(_, _) => banged(alloc, names, out, e),
    }
}

/// An expression behind `!`.
#[cycle(exprs)]
#[tactic(auto, using(crate::proofs::Steps::joined, crate::proofs::Steps::nothing_more))]
fn banged(alloc: Global, names: &NameList, out: &mut Vec<u8>, e: &RawExpr) -> Result<(), AllocError>
    ensures { OnOk result (out.new.items ≡ out.old.items ++ printed names.now (one Sign.Bang ++ (shown (plain e.now)).at 6)) }
{
    sign(names, out, Sign::Bang)?;
    expr(alloc, names, out, 6, e)?;
    Ok(())
}

/// Expressions with commas between.
#[cycle(exprs)]
#[tactic(auto, using(crate::proofs::Steps::joined, crate::proofs::Steps::nothing_more))]
pub(crate) fn exprs(
    alloc: Global,
    names: &NameList,
    out: &mut Vec<u8>,
    es: &[RawExpr],
) -> Result<(), AllocError>
    ensures { OnOk result (out.new.items ≡ out.old.items ++ printed names.now (listed (map show_expr (map plain es.now)))) }
{
    let mut behind = false;
    for e in es {
        needed(names, out, behind, Sign::Comma)?;
        expr(alloc, names, out, 0, e)?;
        behind = true;
    }
    Ok(())
}
