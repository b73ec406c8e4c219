//! Writing lexemes, expressions and scripts as they are written in machines.
ghost use Rattle.std.specs.Prelude.{◌≡◌, ◌++◌, OnOk};
ghost use Rattle.sync_parse_forms.specs.Lexemes.{a_sign, a_number, a_name};
ghost use Rattle.sync_parse_programs.specs.Known.{expr, script};
ghost use Rattle.sync_print_programs.specs.Written.{lexeme_written, written_of};

use std::alloc::{AllocError, Global};
use sync_base::NameList;
use sync_lex::Sign;
use sync_parse::RawScript;
use sync_parse_exprs::{RawExpr, RawName};

/// A sign or a reserved word.
#[tactic(auto, using(crate::proofs::Steps::sign_written))]
pub fn sign(names: &NameList, out: &mut Vec<u8>, sign: Sign) -> Result<(), AllocError>
    ensures { OnOk result (out.new.items ≡ out.old.items ++ lexeme_written names.now (a_sign sign)) }
{
    sync_print::sign(names, out, sign)
}

/// A name.
#[tactic(auto, using(crate::proofs::Steps::name_written))]
pub fn name(names: &NameList, out: &mut Vec<u8>, x: RawName) -> Result<(), AllocError>
    ensures { OnOk result (out.new.items ≡ out.old.items ++ lexeme_written names.now (a_name x.name)) }
{
    sync_print::name(names, out, x.name)
}

/// A number.
#[tactic(auto, using(crate::proofs::Steps::number_written))]
pub(crate) fn number(
    alloc: Global,
    names: &NameList,
    out: &mut Vec<u8>,
    number: u128,
) -> Result<(), AllocError>
    ensures { OnOk result (out.new.items ≡ out.old.items ++ lexeme_written names.now (a_number number)) }
{
    sync_print::number(alloc, names, out, number)
}

/// An expression.
#[tactic(auto, using(crate::proofs::Steps::machine_bytes), unfolding(sync_parse_programs::specs::Known::expr))]
pub(crate) fn expr(
    alloc: Global,
    names: &NameList,
    out: &mut Vec<u8>,
    e: &RawExpr,
) -> Result<(), AllocError>
    ensures { OnOk result (out.new.items ≡ out.old.items ++ written_of names.now expr e.now) }
{
    sync_print::expr(alloc, names, out, 0, e)
}

/// `by` and a block.
#[tactic(auto, using(crate::proofs::Steps::machine_bytes, sync_print::proofs::Steps::joined), unfolding(sync_parse_programs::specs::Known::script))]
pub(crate) fn script(
    alloc: Global,
    names: &NameList,
    out: &mut Vec<u8>,
    x: &RawScript,
) -> Result<(), AllocError>
    ensures { OnOk result (out.new.items ≡ out.old.items ++ written_of names.now script x.now) }
{
    sync_print::sign(names, out, Sign::By)?;
    sync_print::block(alloc, names, out, &x.block)?;
    Ok(())
}
