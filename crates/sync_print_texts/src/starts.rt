//! Writing the start.
ghost use Rattle.std.specs.Prelude.{◌≡◌, ◌++◌, OnOk};
ghost use Rattle.sync_parse_programs.specs.ProofStatements.{seal, give, start_kind, start_statement};
ghost use Rattle.sync_parse_programs.specs.Programs.{start_block, start};
ghost use Rattle.sync_print_programs.specs.Written.{written_of};

use std::alloc::{AllocError, Global};
use sync_base::NameList;
use sync_lex::Sign;
use sync_parse_programs::{RawGive, RawSeal, RawStart, RawStartKind, RawStartStatement};
use sync_print_programs::{
    Repeated, args, closing, do_form, in_row, in_squares_number, name, plain_proof, scripts, sign,
};

#[tactic(auto, unfolding(sync_parse_programs::specs::ProofStatements::seal))]
fn seal(alloc: Global, names: &NameList, out: &mut Vec<u8>, x: &RawSeal) -> Result<(), AllocError>
    ensures { OnOk result (out.new.items ≡ out.old.items ++ written_of names.now seal x.now) }
{
    sign(names, out, Sign::Seal)?;
    name(names, out, x.word)?;
    in_squares_number(alloc, names, out, x.at)?;
    closing(alloc, names, out, &x.closing)?;
    sign(names, out, Sign::Semicolon)?;
    Ok(())
}

#[tactic(auto, unfolding(sync_parse_programs::specs::ProofStatements::give))]
fn give(alloc: Global, names: &NameList, out: &mut Vec<u8>, x: &RawGive) -> Result<(), AllocError>
    ensures { OnOk result (out.new.items ≡ out.old.items ++ written_of names.now give x.now) }
{
    sign(names, out, Sign::Give)?;
    name(names, out, x.thread)?;
    args(alloc, names, out, x.args.as_slice())?;
    scripts(alloc, names, out, x.scripts.as_slice())?;
    sign(names, out, Sign::Semicolon)?;
    Ok(())
}

/// What a statement of the start does.
#[tactic(auto, unfolding(sync_parse_programs::specs::ProofStatements::start_kind))]
fn start_kind(
    alloc: Global,
    names: &NameList,
    out: &mut Vec<u8>,
    x: &RawStartKind,
) -> Result<(), AllocError>
    ensures { OnOk result (out.new.items ≡ out.old.items ++ written_of names.now start_kind x.now) }
{
    match x {
        RawStartKind::Plain(y) => plain_proof(alloc, names, out, y),
        RawStartKind::Seal(y) => seal(alloc, names, out, y),
        RawStartKind::Give(y) => give(alloc, names, out, y),
    }
}

/// A statement of the start.
#[tactic(auto, unfolding(sync_parse_programs::specs::ProofStatements::start_statement))]
fn start_statement(
    alloc: Global,
    names: &NameList,
    out: &mut Vec<u8>,
    x: &RawStartStatement,
) -> Result<(), AllocError>
    ensures { OnOk result (out.new.items ≡ out.old.items ++ written_of names.now start_statement x.now) }
{
    start_kind(alloc, names, out, &x.what)
}

struct StartItem;

impl Repeated for StartItem {
    type Value = RawStartStatement;

    ghost writes = { λ names. written_of names start_statement };

    fn write(
        alloc: Global,
        names: &NameList,
        out: &mut Vec<u8>,
        x: &RawStartStatement,
    ) -> Result<(), AllocError> {
        start_statement(alloc, names, out, x)
    }
}

/// The statements of the start.
#[tactic(auto, unfolding(sync_parse_programs::specs::Programs::start_block))]
fn start_block(
    alloc: Global,
    names: &NameList,
    out: &mut Vec<u8>,
    x: &[RawStartStatement],
) -> Result<(), AllocError>
    ensures { OnOk result (out.new.items ≡ out.old.items ++ written_of names.now start_block x.now) }
{
    sign(names, out, Sign::OpenBrace)?;
    in_row::<StartItem>(alloc, names, out, x)?;
    sign(names, out, Sign::CloseBrace)?;
    Ok(())
}

#[tactic(auto, unfolding(sync_parse_programs::specs::Programs::start))]
pub(crate) fn start(
    alloc: Global,
    names: &NameList,
    out: &mut Vec<u8>,
    x: &RawStart,
) -> Result<(), AllocError>
    ensures { OnOk result (out.new.items ≡ out.old.items ++ written_of names.now start x.now) }
{
    sign(names, out, Sign::Start)?;
    do_form(alloc, names, out, &x.form)?;
    start_block(alloc, names, out, x.statements.as_slice())?;
    Ok(())
}
