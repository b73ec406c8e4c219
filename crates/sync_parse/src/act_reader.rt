//! Reading the statements of operations. `left` is 65 less the number of brackets that are open.
ghost use Rattle.std.specs.Prelude.{◌≡◌};
ghost use Rattle.sync_lex.specs.declared.signs.Sign.TheVariants as sign;
ghost use Rattle.sync_parse.specs.declared.trees.RawAct.TheVariants as act;
ghost use Rattle.sync_parse.specs.declared.trees.RawAct.{RawAct};
ghost use Rattle.sync_parse_exprs.specs.declared.expressions.RawExpr.{RawExpr};
ghost use Rattle.sync_parse_exprs.specs.declared.raw_names.RawName.{RawName};
ghost use Rattle.sync_parse_exprs.specs.Faults.{Reads};
ghost use Rattle.sync_parse.specs.Machines.{pattern_at, keyed, place_at, closed_expr, closed_place, formula_act, value_act, field_place, place_act, have_act, act_kind, act_at, acts};

use crate::trees::{RawAct, RawPattern, RawPlace, RawStep};
use sqlite_items::Items;
use std::alloc::Global;
use sync_lex::{Sign, Terminal};
use sync_parse_exprs::{
    Fault, Halt, RawExpr, RawName, Read, begins_with, expr, first_line, goes_on, name, next, sign,
    wanted,
};

#[tactic(auto, unfolding(crate::specs::Machines::pattern_at))]
fn pattern<'a>(alloc: Global, terminals: &'a [Terminal], left: u32) -> Read<'a, RawPattern>
    ensures { Reads (λ x. (x.0, x.1.now)) result (pattern_at left terminals.now) }
{
    if begins_with(terminals, Sign::Question) {
        let (_, rest) = sign(terminals, left, Sign::Question)?;
        let (bound, rest) = name(rest, left)?;
        return Ok((RawPattern::Bind(bound), rest));
    }
    let (term, rest) = expr(alloc, terminals, left)?;
    Ok((RawPattern::Term(term), rest))
}

/// A place with a key; its value where `=>` comes.
#[tactic(auto, unfolding(crate::specs::Machines::keyed))]
fn keyed<'a>(
    alloc: Global,
    terminals: &'a [Terminal],
    left: u32,
    key: RawExpr,
) -> Read<'a, RawPlace>
    ensures { Reads (λ x. (x.0, x.1.now)) result (keyed left key terminals.now) }
{
    if begins_with(terminals, Sign::MapsTo) {
        let (_, rest) = sign(terminals, left, Sign::MapsTo)?;
        let (value, rest) = pattern(alloc, rest, left)?;
        return Ok((RawPlace::Entry(key, value), rest));
    }
    Ok((RawPlace::Key(key), terminals))
}

/// A value in round brackets, or a key in square ones, maybe with its value.
#[tactic(auto, unfolding(crate::specs::Machines::place_at))]
pub fn place<'a>(alloc: Global, terminals: &'a [Terminal], left: u32) -> Read<'a, RawPlace>
    ensures { Reads (λ x. (x.0, x.1.now)) result (place_at left terminals.now) }
{
    if begins_with(terminals, Sign::OpenRound) {
        let (_, rest) = sign(terminals, left, Sign::OpenRound)?;
        let (value, rest) = pattern(alloc, rest, left - 1)?;
        let (_, rest) = sign(rest, left - 1, Sign::CloseRound)?;
        return Ok((RawPlace::Value(value), rest));
    }
    let (_, rest) = sign(terminals, left, Sign::OpenSquare)?;
    let (key, rest) = expr(alloc, rest, left - 1)?;
    let (place, rest) = keyed(alloc, rest, left - 1, key)?;
    let (_, rest) = sign(rest, left - 1, Sign::CloseSquare)?;
    Ok((place, rest))
}

/// An expression and `;`.
#[tactic(auto, unfolding(crate::specs::Machines::closed_expr))]
pub(crate) fn closed_expr<'a>(
    alloc: Global,
    terminals: &'a [Terminal],
    left: u32,
) -> Read<'a, RawExpr>
    ensures { Reads (λ x. (x.0, x.1.now)) result (closed_expr left terminals.now) }
{
    let (value, rest) = expr(alloc, terminals, left)?;
    let (_, rest) = sign(rest, left, Sign::Semicolon)?;
    Ok((value, rest))
}

/// A place and `;`.
#[tactic(auto, unfolding(crate::specs::Machines::closed_place))]
fn closed_place<'a>(alloc: Global, terminals: &'a [Terminal], left: u32) -> Read<'a, RawPlace>
    ensures { Reads (λ x. (x.0, x.1.now)) result (closed_place left terminals.now) }
{
    let (place, rest) = place(alloc, terminals, left)?;
    let (_, rest) = sign(rest, left, Sign::Semicolon)?;
    Ok((place, rest))
}

/// `require` or `assert`, a formula and `;`, whatever is made of the formula.
#[tactic(auto, unfolding(crate::specs::Machines::formula_act))]
fn formula<'a>(
    alloc: Global,
    terminals: &'a [Terminal],
    left: u32,
    opening: Sign,
) -> Read<'a, RawExpr>
    ensures { (made : RawExpr → RawAct) → Reads (λ x. (made x.0, x.1.now)) result (formula_act opening made left terminals.now) }
{
    let (_, rest) = sign(terminals, left, opening)?;
    closed_expr(alloc, rest, left)
}

/// `init` or `update`, the name of a field and a value, whatever is made of them.
#[tactic(auto, unfolding(crate::specs::Machines::value_act))]
fn field_and_value<'a>(
    alloc: Global,
    terminals: &'a [Terminal],
    left: u32,
    opening: Sign,
) -> Read<'a, (RawName, RawExpr)>
    ensures { (made : RawName → RawExpr → RawAct) → Reads (λ x. (made x.0.0 x.0.1, x.1.now)) result (value_act opening made left terminals.now) }
{
    let (_, rest) = sign(terminals, left, opening)?;
    let (field, rest) = name(rest, left)?;
    let (_, rest) = sign(rest, left, Sign::Equal)?;
    let (value, rest) = closed_expr(alloc, rest, left)?;
    Ok(((field, value), rest))
}

fn require_act<'a>(alloc: Global, terminals: &'a [Terminal], left: u32) -> Read<'a, RawAct>
    ensures { Reads (λ x. (x.0, x.1.now)) result (formula_act sign.Require act.Require left terminals.now) }
{
    let (form, rest) = formula(alloc, terminals, left, Sign::Require)?;
    Ok((RawAct::Require(form), rest))
}

fn assert_act<'a>(alloc: Global, terminals: &'a [Terminal], left: u32) -> Read<'a, RawAct>
    ensures { Reads (λ x. (x.0, x.1.now)) result (formula_act sign.Assert act.Assert left terminals.now) }
{
    let (form, rest) = formula(alloc, terminals, left, Sign::Assert)?;
    Ok((RawAct::Assert(form), rest))
}

fn init_act<'a>(alloc: Global, terminals: &'a [Terminal], left: u32) -> Read<'a, RawAct>
    ensures { Reads (λ x. (x.0, x.1.now)) result (value_act sign.Init act.Init left terminals.now) }
{
    let ((field, value), rest) = field_and_value(alloc, terminals, left, Sign::Init)?;
    Ok((RawAct::Init(field, value), rest))
}

fn update_act<'a>(alloc: Global, terminals: &'a [Terminal], left: u32) -> Read<'a, RawAct>
    ensures { Reads (λ x. (x.0, x.1.now)) result (value_act sign.Update act.Update left terminals.now) }
{
    let ((field, value), rest) = field_and_value(alloc, terminals, left, Sign::Update)?;
    Ok((RawAct::Update(field, value), rest))
}

/// A terminal, the name of a field, a sign and a place.
#[tactic(auto, unfolding(crate::specs::Machines::field_place))]
fn field_and_place<'a>(
    alloc: Global,
    terminals: &'a [Terminal],
    left: u32,
    terminal: Sign,
    symbol: Sign,
) -> Read<'a, (RawName, RawPlace)>
    ensures { Reads (λ x. (x.0, x.1.now)) result (field_place terminal symbol left terminals.now) }
{
    let (_, rest) = sign(terminals, left, terminal)?;
    let (field, rest) = name(rest, left)?;
    let (_, rest) = sign(rest, left, symbol)?;
    let (place, rest) = closed_place(alloc, rest, left)?;
    Ok(((field, place), rest))
}

#[tactic(auto, unfolding(crate::specs::Machines::place_act))]
fn guard_act<'a>(alloc: Global, terminals: &'a [Terminal], left: u32) -> Read<'a, RawAct>
    ensures { Reads (λ x. (x.0, x.1.now)) result (place_act sign.Guard sign.AtLeast act.Guard left terminals.now) }
{
    let ((field, place), rest) = field_and_place(
        alloc,
        terminals,
        left,
        Sign::Guard,
        Sign::AtLeast,
    )?;
    Ok((RawAct::Guard(field, place), rest))
}

#[tactic(auto, unfolding(crate::specs::Machines::place_act))]
fn add_act<'a>(alloc: Global, terminals: &'a [Terminal], left: u32) -> Read<'a, RawAct>
    ensures { Reads (λ x. (x.0, x.1.now)) result (place_act sign.Add sign.PlusEqual act.Add left terminals.now) }
{
    let ((field, place), rest) = field_and_place(
        alloc,
        terminals,
        left,
        Sign::Add,
        Sign::PlusEqual,
    )?;
    Ok((RawAct::Add(field, place), rest))
}

#[tactic(auto, unfolding(crate::specs::Machines::place_act))]
fn deposit_act<'a>(alloc: Global, terminals: &'a [Terminal], left: u32) -> Read<'a, RawAct>
    ensures { Reads (λ x. (x.0, x.1.now)) result (place_act sign.Deposit sign.PlusEqual act.Deposit left terminals.now) }
{
    let ((field, place), rest) = field_and_place(
        alloc,
        terminals,
        left,
        Sign::Deposit,
        Sign::PlusEqual,
    )?;
    Ok((RawAct::Deposit(field, place), rest))
}

#[tactic(auto, unfolding(crate::specs::Machines::place_act))]
fn remove_act<'a>(alloc: Global, terminals: &'a [Terminal], left: u32) -> Read<'a, RawAct>
    ensures { Reads (λ x. (x.0, x.1.now)) result (place_act sign.Remove sign.MinusEqual act.Remove left terminals.now) }
{
    let ((field, place), rest) = field_and_place(
        alloc,
        terminals,
        left,
        Sign::Remove,
        Sign::MinusEqual,
    )?;
    Ok((RawAct::Remove(field, place), rest))
}

#[tactic(auto, unfolding(crate::specs::Machines::place_act))]
fn withdraw_act<'a>(alloc: Global, terminals: &'a [Terminal], left: u32) -> Read<'a, RawAct>
    ensures { Reads (λ x. (x.0, x.1.now)) result (place_act sign.Withdraw sign.MinusEqual act.Withdraw left terminals.now) }
{
    let ((field, place), rest) = field_and_place(
        alloc,
        terminals,
        left,
        Sign::Withdraw,
        Sign::MinusEqual,
    )?;
    Ok((RawAct::Withdraw(field, place), rest))
}

/// `;` after the name, or a place.
#[tactic(auto, unfolding(crate::specs::Machines::have_act))]
fn have_act<'a>(alloc: Global, terminals: &'a [Terminal], left: u32) -> Read<'a, RawAct>
    ensures { Reads (λ x. (x.0, x.1.now)) result (have_act left terminals.now) }
{
    let (_, rest) = sign(terminals, left, Sign::Have)?;
    let (field, rest) = name(rest, left)?;
    if begins_with(rest, Sign::Semicolon) {
        let (_, rest) = sign(rest, left, Sign::Semicolon)?;
        return Ok((RawAct::HaveVariable(field), rest));
    }
    let (_, rest) = sign(rest, left, Sign::AtLeast)?;
    let (place, rest) = closed_place(alloc, rest, left)?;
    Ok((RawAct::Have(field, place), rest))
}

#[tactic(auto, unfolding(crate::specs::Machines::act_kind))]
fn act_kind<'a>(alloc: Global, terminals: &'a [Terminal], left: u32) -> Read<'a, RawAct>
    ensures { Reads (λ x. (x.0, x.1.now)) result (act_kind left terminals.now) }
{
    let (terminal, _) = next(terminals).ok_or(Halt::Fault(Fault::Ended))?;
    if terminal.is(Sign::Init) {
        init_act(alloc, terminals, left)
    } else if terminal.is(Sign::Require) {
        require_act(alloc, terminals, left)
    } else if terminal.is(Sign::Assert) {
        assert_act(alloc, terminals, left)
    } else if terminal.is(Sign::Update) {
        update_act(alloc, terminals, left)
    } else if terminal.is(Sign::Have) {
        have_act(alloc, terminals, left)
    } else if terminal.is(Sign::Guard) {
        guard_act(alloc, terminals, left)
    } else if terminal.is(Sign::Add) {
        add_act(alloc, terminals, left)
    } else if terminal.is(Sign::Deposit) {
        deposit_act(alloc, terminals, left)
    } else if terminal.is(Sign::Remove) {
        remove_act(alloc, terminals, left)
    } else if terminal.is(Sign::Withdraw) {
        withdraw_act(alloc, terminals, left)
    } else {
        Err(wanted(terminal.line))
    }
}

#[tactic(auto, unfolding(crate::specs::Machines::act_at))]
fn act<'a>(alloc: Global, terminals: &'a [Terminal], left: u32) -> Read<'a, RawStep>
    ensures { Reads (λ x. (x.0, x.1.now)) result (act_at left terminals.now) }
{
    let line = first_line(terminals);
    let (what, rest) = act_kind(alloc, terminals, left)?;
    Ok((RawStep { what, line }, rest))
}

/// The statements up to a closing brace.
#[tactic(auto, unfolding(crate::specs::Machines::acts, sync_parse_exprs::specs::Terminals::row))]
pub(crate) fn acts<'a>(
    alloc: Global,
    terminals: &'a [Terminal],
    left: u32,
) -> Read<'a, Items<RawStep>>
    ensures { Reads (λ x. (x.0, x.1.now)) result (acts left terminals.now) }
{
    let mut held = Items::new(alloc);
    let mut rest = terminals;
    for _ in 0..terminals.len() {
        if goes_on(rest) {
            let (item, after) = act(alloc, rest, left)?;
            held.push(item)?;
            rest = after;
        } else {
            return Ok((held, rest));
        }
    }
    Ok((held, rest))
}
