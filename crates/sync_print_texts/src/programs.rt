//! Writing threads and programs.
ghost use Rattle.std.specs.Prelude.{◌≡◌, ◌++◌, OnOk};
ghost use Rattle.sync_parse_programs.specs.Programs.{at_declaration, start, thread, ended, program};
ghost use Rattle.sync_lex.specs.declared.signs.Sign.TheVariants as sign;
ghost use Rattle.sync_parse_forms.specs.Codes.{at_sign, row};
ghost use Rattle.sync_parse_programs.specs.Known.{◌∘◌};
ghost use Rattle.sync_parse_programs.specs.ProofStatements.{declaration};
ghost use Rattle.sync_print_programs.specs.Shown.{show_of};
ghost use Rattle.sync_print_programs.specs.Written.{bytes_of, written_of};

use crate::starts::start;
use crate::statements::list;
use std::alloc::{AllocError, Global};
use sync_base::NameList;
use sync_lex::Sign;
use sync_parse_programs::{RawDeclaration, RawList, RawProgram, RawStart, RawThread};
use sync_print_programs::{DeclarationItem, Repeated, in_row, keep, name, sign};

#[tactic(auto, unfolding(sync_parse_programs::specs::Programs::thread))]
fn thread(
    alloc: Global,
    names: &NameList,
    out: &mut Vec<u8>,
    x: &RawThread,
) -> Result<(), AllocError>
    ensures { OnOk result (out.new.items ≡ out.old.items ++ written_of names.now thread x.now) }
{
    sign(names, out, Sign::Thread)?;
    name(names, out, x.name)?;
    keep(alloc, names, out, &x.takes)?;
    sign(names, out, Sign::Ends)?;
    keep(alloc, names, out, &x.ends)?;
    list(alloc, names, out, &x.body)?;
    Ok(())
}

struct ThreadItem;

impl Repeated for ThreadItem {
    type Value = RawThread;

    ghost writes = { λ names. written_of names thread };

    fn write(
        alloc: Global,
        names: &NameList,
        out: &mut Vec<u8>,
        x: &RawThread,
    ) -> Result<(), AllocError> {
        thread(alloc, names, out, x)
    }
}

/// The final block, or nothing.
#[tactic(auto, unfolding(sync_parse_programs::specs::Programs::ended, sync_parse_programs::specs::Programs::final_block))]
fn ended(
    alloc: Global,
    names: &NameList,
    out: &mut Vec<u8>,
    x: &Option<RawList>,
) -> Result<(), AllocError>
    ensures { OnOk result (out.new.items ≡ out.old.items ++ written_of names.now ended x.now) }
{
    match x {
        Some(l) => {
            sign(names, out, Sign::Final)?;
            list(alloc, names, out, l)?;
            Ok(())
        }
        None => Ok(()),
    }
}

/// What stands in the braces of a program.
fn program_body(
    alloc: Global,
    names: &NameList,
    out: &mut Vec<u8>,
    declarations: &[RawDeclaration],
    first: &RawStart,
    threads: &[RawThread],
    last: &Option<RawList>,
) -> Result<(), AllocError>
    ensures { OnOk result (out.new.items ≡ out.old.items ++ written_of names.now (row at_declaration declaration ∘ start ∘ row (at_sign sign.Thread) thread ∘ ended) (declarations.now, (first.now, (threads.now, last.now)))) }
{
    in_row::<DeclarationItem>(alloc, names, out, declarations)?;
    start(alloc, names, out, first)?;
    in_row::<ThreadItem>(alloc, names, out, threads)?;
    ended(alloc, names, out, last)?;
    Ok(())
}

/// A program, by its production.
#[tactic(auto, unfolding(sync_parse_programs::specs::Programs::program))]
fn written_program(
    alloc: Global,
    names: &NameList,
    out: &mut Vec<u8>,
    x: &RawProgram,
) -> Result<(), AllocError>
    ensures { OnOk result (out.new.items ≡ out.old.items ++ written_of names.now program x.now) }
{
    sign(names, out, Sign::Program)?;
    sign(names, out, Sign::OpenBrace)?;
    program_body(
        alloc,
        names,
        out,
        x.declarations.as_slice(),
        &x.start,
        x.threads.as_slice(),
        &x.last,
    )?;
    sign(names, out, Sign::CloseBrace)?;
    Ok(())
}

/// Appends the canonical bytes of a program: its lexemes in order, each with a line feed behind it if it is `;`, `{` or `}`,
/// else with a space. Fails only for want of memory.
#[tactic(auto, using(sync_print_programs::proofs::Written::written_shown))]
pub(crate) fn program(
    alloc: Global,
    names: &NameList,
    out: &mut Vec<u8>,
    x: &RawProgram,
) -> Result<(), AllocError>
    ensures { OnOk result (out.new.items ≡ out.old.items ++ bytes_of names.now (show_of program x.now)) }
{
    written_program(alloc, names, out, x)
}
