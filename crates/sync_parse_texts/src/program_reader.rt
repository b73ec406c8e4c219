//! Reading threads and programs. `left` is 65 less the number of brackets that are open.
ghost use Rattle.std.specs.Prelude.{◌≡◌};
ghost use Rattle.sync_lex.specs.declared.signs.Sign.TheVariants as sign;
ghost use Rattle.sync_parse_exprs.specs.Faults.{Reads};
ghost use Rattle.sync_parse_exprs.specs.Terminals.{begins_with};
ghost use Rattle.sync_parse_forms.specs.Readings.{tests};
ghost use Rattle.sync_parse_programs.specs.ProofStatements.{declaration};
ghost use Rattle.sync_parse_programs.specs.Programs.{thread, final_block, ended, at_declaration, program, read};

use crate::start_reader::start;
use crate::statement_reader::list;
use std::alloc::Global;
use sync_lex::{Sign, Terminal};
use sync_parse_exprs::{Read, begins_with, first_line, name, sign};
use sync_parse_forms::{RowItem, in_row};
use sync_parse_programs::{RawDeclaration, RawList, RawProgram, RawThread, declaration, keep};

struct DeclarationItem;

impl RowItem for DeclarationItem {
    type Value = RawDeclaration;

    ghost begins = { tests at_declaration };

    ghost reads = { read declaration };

    fn begins(terminals: &[Terminal]) -> bool {
        begins_with(terminals, Sign::Word) || begins_with(terminals, Sign::Cell)
    }

    fn read<'a>(alloc: Global, terminals: &'a [Terminal], left: u32) -> Read<'a, RawDeclaration> {
        declaration(alloc, terminals, left)
    }
}

#[tactic(auto, unfolding(sync_parse_programs::specs::Programs::thread))]
fn thread<'a>(alloc: Global, terminals: &'a [Terminal], left: u32) -> Read<'a, RawThread>
    ensures { Reads (λ x. (x.0, x.1.now)) result (read thread left terminals.now) }
{
    let line = first_line(terminals);
    let (_, rest) = sign(terminals, left, Sign::Thread)?;
    let (name, rest) = name(rest, left)?;
    let (takes, rest) = keep(alloc, rest, left)?;
    let (_, rest) = sign(rest, left, Sign::Ends)?;
    let (ends, rest) = keep(alloc, rest, left)?;
    let (body, rest) = list(alloc, rest, left)?;
    Ok((
        RawThread {
            name,
            takes,
            ends,
            body,
            line,
        },
        rest,
    ))
}

struct ThreadItem;

impl RowItem for ThreadItem {
    type Value = RawThread;

    ghost begins = { begins_with sign.Thread };

    ghost reads = { read thread };

    fn begins(terminals: &[Terminal]) -> bool {
        begins_with(terminals, Sign::Thread)
    }

    fn read<'a>(alloc: Global, terminals: &'a [Terminal], left: u32) -> Read<'a, RawThread> {
        thread(alloc, terminals, left)
    }
}

/// `final` and statements, or nothing.
#[tactic(auto, unfolding(sync_parse_programs::specs::Programs::ended, sync_parse_programs::specs::Programs::final_block))]
fn ended<'a>(alloc: Global, terminals: &'a [Terminal], left: u32) -> Read<'a, Option<RawList>>
    ensures { Reads (λ x. (x.0, x.1.now)) result (read ended left terminals.now) }
{
    if begins_with(terminals, Sign::Final) {
        let (_, rest) = sign(terminals, left, Sign::Final)?;
        let (last, rest) = list(alloc, rest, left)?;
        return Ok((Some(last), rest));
    }
    Ok((None, terminals))
}

/// A program: words and cells, the start, threads, and maybe what the last thread does.
#[tactic(auto, unfolding(sync_parse_programs::specs::Programs::program))]
pub fn program<'a>(alloc: Global, terminals: &'a [Terminal], left: u32) -> Read<'a, RawProgram>
    ensures { Reads (λ x. (x.0, x.1.now)) result (read program left terminals.now) }
{
    let line = first_line(terminals);
    let (_, rest) = sign(terminals, left, Sign::Program)?;
    let (_, rest) = sign(rest, left, Sign::OpenBrace)?;
    let (declarations, rest) = in_row::<DeclarationItem>(alloc, rest, left - 1)?;
    let (start, rest) = start(alloc, rest, left - 1)?;
    let (threads, rest) = in_row::<ThreadItem>(alloc, rest, left - 1)?;
    let (last, rest) = ended(alloc, rest, left - 1)?;
    let (_, rest) = sign(rest, left - 1, Sign::CloseBrace)?;
    Ok((
        RawProgram {
            declarations,
            start,
            threads,
            last,
            line,
        },
        rest,
    ))
}
