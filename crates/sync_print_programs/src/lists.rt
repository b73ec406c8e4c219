//! Writing rows and lists.
ghost use Rattle.std.specs.Prelude.{◌≡◌, ◌++◌, ℕ, List, OnOk};
ghost use Rattle.sync_base.specs.declared.names.NameList.{NameList};
ghost use Rattle.sync_parse_forms.specs.Codes.{a_name};
ghost use Rattle.sync_parse_programs.specs.Known.{expr, script, scripts, args, names as name_list, label, numbered};
ghost use Rattle.sync_print_programs.specs.Written.{all_written, commas_written, list_written, written_of};

use crate::lexemes::{expr, name, number, script, sign};
use std::alloc::{AllocError, Global};
use sync_base::NameList;
use sync_lex::Sign;
use sync_parse::RawScript;
use sync_parse_exprs::{RawExpr, RawName};
use sync_parse_programs::RawNumber;

/// What rows and lists repeat.
pub trait Repeated {
    type Value;

    ghost writes: { NameList → Self.Value → List ℕ };

    fn write(
        alloc: Global,
        names: &NameList,
        out: &mut Vec<u8>,
        x: &Self::Value,
    ) -> Result<(), AllocError>
        ensures { OnOk result (out.new.items ≡ out.old.items ++ writes names.now x.now) };
}

/// Items in a row.
pub fn in_row<P: Repeated>(
    alloc: Global,
    names: &NameList,
    out: &mut Vec<u8>,
    list: &[P::Value],
) -> Result<(), AllocError>
    ensures { OnOk result (out.new.items ≡ out.old.items ++ all_written (P.writes names.now) list.now) }
{
    for x in list {
        P::write(alloc, names, out, x)?;
    }
    Ok(())
}

/// Items, each behind a comma.
fn behind_commas<P: Repeated>(
    alloc: Global,
    names: &NameList,
    out: &mut Vec<u8>,
    list: &[P::Value],
) -> Result<(), AllocError>
    ensures { OnOk result (out.new.items ≡ out.old.items ++ commas_written names.now (P.writes names.now) list.now) }
{
    for x in list {
        sign(names, out, Sign::Comma)?;
        P::write(alloc, names, out, x)?;
    }
    Ok(())
}

/// Items with commas between.
pub(crate) fn in_list<P: Repeated>(
    alloc: Global,
    names: &NameList,
    out: &mut Vec<u8>,
    list: &[P::Value],
) -> Result<(), AllocError>
    ensures { OnOk result (out.new.items ≡ out.old.items ++ list_written names.now (P.writes names.now) list.now) }
{
    match list.split_first() {
        Some((first, others)) => {
            P::write(alloc, names, out, first)?;
            behind_commas::<P>(alloc, names, out, others)?;
            Ok(())
        }
        None => Ok(()),
    }
}

struct ExprItem;

impl Repeated for ExprItem {
    type Value = RawExpr;

    ghost writes = { λ names. written_of names expr };

    fn write(
        alloc: Global,
        names: &NameList,
        out: &mut Vec<u8>,
        x: &RawExpr,
    ) -> Result<(), AllocError> {
        expr(alloc, names, out, x)
    }
}

struct ScriptItem;

impl Repeated for ScriptItem {
    type Value = RawScript;

    ghost writes = { λ names. written_of names script };

    fn write(
        alloc: Global,
        names: &NameList,
        out: &mut Vec<u8>,
        x: &RawScript,
    ) -> Result<(), AllocError> {
        script(alloc, names, out, x)
    }
}

pub(crate) struct NameItem;

impl Repeated for NameItem {
    type Value = RawName;

    ghost writes = { λ names. written_of names a_name };

    fn write(
        _alloc: Global,
        names: &NameList,
        out: &mut Vec<u8>,
        x: &RawName,
    ) -> Result<(), AllocError> {
        name(names, out, *x)
    }
}

/// Expressions in round brackets.
#[tactic(auto, unfolding(sync_parse_programs::specs::Known::args))]
pub fn args(
    alloc: Global,
    names: &NameList,
    out: &mut Vec<u8>,
    x: &[RawExpr],
) -> Result<(), AllocError>
    ensures { OnOk result (out.new.items ≡ out.old.items ++ written_of names.now args x.now) }
{
    sign(names, out, Sign::OpenRound)?;
    in_list::<ExprItem>(alloc, names, out, x)?;
    sign(names, out, Sign::CloseRound)?;
    Ok(())
}

/// Names in round brackets.
#[tactic(auto, unfolding(sync_parse_programs::specs::Known::names))]
pub(crate) fn name_list(
    alloc: Global,
    names: &NameList,
    out: &mut Vec<u8>,
    x: &[RawName],
) -> Result<(), AllocError>
    ensures { OnOk result (out.new.items ≡ out.old.items ++ written_of names.now name_list x.now) }
{
    sign(names, out, Sign::OpenRound)?;
    in_list::<NameItem>(alloc, names, out, x)?;
    sign(names, out, Sign::CloseRound)?;
    Ok(())
}

/// Scripts in a row.
#[tactic(auto, unfolding(sync_parse_programs::specs::Known::scripts))]
pub fn scripts(
    alloc: Global,
    names: &NameList,
    out: &mut Vec<u8>,
    x: &[RawScript],
) -> Result<(), AllocError>
    ensures { OnOk result (out.new.items ≡ out.old.items ++ written_of names.now scripts x.now) }
{
    in_row::<ScriptItem>(alloc, names, out, x)
}

/// `@` and a name, or nothing.
#[tactic(auto, unfolding(sync_parse_programs::specs::Known::label))]
pub fn label(names: &NameList, out: &mut Vec<u8>, x: Option<RawName>) -> Result<(), AllocError>
    ensures { OnOk result (out.new.items ≡ out.old.items ++ written_of names.now label x) }
{
    match x {
        Some(label) => {
            sign(names, out, Sign::Label)?;
            name(names, out, label)?;
            Ok(())
        }
        None => Ok(()),
    }
}

/// A number.
#[tactic(auto, unfolding(sync_parse_programs::specs::Known::numbered))]
pub(crate) fn numbered(
    alloc: Global,
    names: &NameList,
    out: &mut Vec<u8>,
    x: RawNumber,
) -> Result<(), AllocError>
    ensures { OnOk result (out.new.items ≡ out.old.items ++ written_of names.now numbered x) }
{
    number(alloc, names, out, x.number)
}
