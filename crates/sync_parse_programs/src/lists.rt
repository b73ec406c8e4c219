//! Reading lists in brackets, rows of scripts, labels and numbers. `left` is 65 less the number of brackets that are open.
ghost use Rattle.std.specs.Prelude.{◌≡◌};
ghost use Rattle.sync_lex.specs.declared.signs.Sign.TheVariants as sign;
ghost use Rattle.sync_parse.specs.Scripts.{script_at};
ghost use Rattle.sync_parse_exprs.specs.Expressions.{expr_at};
ghost use Rattle.sync_parse_exprs.specs.Faults.{Reads};
ghost use Rattle.sync_parse_exprs.specs.Terminals.{begins_with, name_at};
ghost use Rattle.sync_parse_forms.specs.Readings.{followed, inside, gives, a_list};
ghost use Rattle.sync_parse_programs.specs.Known.{scripts, args, names, label, numbered};
ghost use Rattle.sync_parse_programs.specs.Programs.{read};

use crate::operands::RawNumber;
use sqlite_items::Items;
use std::alloc::Global;
use sync_lex::{Sign, Terminal};
use sync_parse::{RawScript, script};
use sync_parse_exprs::{RawExpr, RawName, Read, begins_with, expr, first_line, name, number, sign};
use sync_parse_forms::{ListItem, RowItem, in_list, in_row};

/// Items with commas between, or nothing, in brackets.
pub(crate) fn in_brackets<'a, P: ListItem>(
    alloc: Global,
    terminals: &'a [Terminal],
    left: u32,
    opening: Sign,
    closing: Sign,
) -> Read<'a, Items<P::Value>>
    ensures { Reads (λ x. (x.0, x.1.now)) result (followed (inside opening closing (a_list closing P.reads)) (λ x. gives x.0) left terminals.now) }
{
    let (_, rest) = sign(terminals, left, opening)?;
    let (items, rest) = in_list::<P>(alloc, rest, left - 1, closing)?;
    let (_, rest) = sign(rest, left - 1, closing)?;
    Ok((items, rest))
}

struct ExprItem;

impl ListItem for ExprItem {
    type Value = RawExpr;

    ghost reads = { expr_at };

    fn read<'a>(alloc: Global, terminals: &'a [Terminal], left: u32) -> Read<'a, RawExpr> {
        expr(alloc, terminals, left)
    }
}

pub(crate) struct NameItem;

impl ListItem for NameItem {
    type Value = RawName;

    ghost reads = { name_at };

    fn read<'a>(_alloc: Global, terminals: &'a [Terminal], left: u32) -> Read<'a, RawName> {
        name(terminals, left)
    }
}

struct ScriptItem;

impl RowItem for ScriptItem {
    type Value = RawScript;

    ghost begins = { begins_with sign.By };

    ghost reads = { script_at };

    fn begins(terminals: &[Terminal]) -> bool {
        begins_with(terminals, Sign::By)
    }

    fn read<'a>(alloc: Global, terminals: &'a [Terminal], left: u32) -> Read<'a, RawScript> {
        script(alloc, terminals, left)
    }
}

/// Expressions in round brackets.
#[tactic(auto, unfolding(crate::specs::Known::args, crate::specs::Known::expr))]
pub fn args<'a>(alloc: Global, terminals: &'a [Terminal], left: u32) -> Read<'a, Items<RawExpr>>
    ensures { Reads (λ x. (x.0, x.1.now)) result (read args left terminals.now) }
{
    in_brackets::<ExprItem>(alloc, terminals, left, Sign::OpenRound, Sign::CloseRound)
}

/// Names in round brackets.
#[tactic(auto, unfolding(crate::specs::Known::names))]
pub(crate) fn names<'a>(
    alloc: Global,
    terminals: &'a [Terminal],
    left: u32,
) -> Read<'a, Items<RawName>>
    ensures { Reads (λ x. (x.0, x.1.now)) result (read names left terminals.now) }
{
    in_brackets::<NameItem>(alloc, terminals, left, Sign::OpenRound, Sign::CloseRound)
}

/// Scripts, as long as one begins.
#[tactic(auto, unfolding(crate::specs::Known::scripts, crate::specs::Known::script))]
pub fn scripts<'a>(
    alloc: Global,
    terminals: &'a [Terminal],
    left: u32,
) -> Read<'a, Items<RawScript>>
    ensures { Reads (λ x. (x.0, x.1.now)) result (read scripts left terminals.now) }
{
    in_row::<ScriptItem>(alloc, terminals, left)
}

/// `@` and a name, or nothing.
#[tactic(auto, unfolding(crate::specs::Known::label))]
pub fn label<'a>(terminals: &'a [Terminal], left: u32) -> Read<'a, Option<RawName>>
    ensures { Reads (λ x. (x.0, x.1.now)) result (read label left terminals.now) }
{
    if begins_with(terminals, Sign::Label) {
        let (_, rest) = sign(terminals, left, Sign::Label)?;
        let (label, rest) = name(rest, left)?;
        return Ok((Some(label), rest));
    }
    Ok((None, terminals))
}

/// A number, with its line.
#[tactic(auto, unfolding(crate::specs::Known::numbered))]
pub(crate) fn numbered<'a>(terminals: &'a [Terminal], left: u32) -> Read<'a, RawNumber>
    ensures { Reads (λ x. (x.0, x.1.now)) result (read numbered left terminals.now) }
{
    let line = first_line(terminals);
    let (number, rest) = number(terminals, left)?;
    Ok((RawNumber { number, line }, rest))
}
