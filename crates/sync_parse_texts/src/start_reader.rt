//! Reading the start of a program. `left` is 65 less the number of brackets that are open.
ghost use Rattle.std.specs.Prelude.{◌≡◌};
ghost use Rattle.sync_parse_exprs.specs.Faults.{Reads};
ghost use Rattle.sync_parse_exprs.specs.Terminals.{goes_on};
ghost use Rattle.sync_parse_programs.specs.ProofStatements.{seal, give, start_kind, start_statement};
ghost use Rattle.sync_parse_programs.specs.Programs.{start_block, start, read};

use sqlite_items::Items;
use std::alloc::Global;
use sync_lex::{Sign, Terminal};
use sync_parse_exprs::{Read, begins_with, first_line, goes_on, name, sign};
use sync_parse_forms::{RowItem, in_row};
use sync_parse_programs::{
    RawGive, RawSeal, RawStart, RawStartKind, RawStartStatement, args, begins_plain_proof, closing,
    do_form, in_squares_number, plain_proof, scripts,
};

#[tactic(auto, unfolding(sync_parse_programs::specs::ProofStatements::seal))]
fn seal<'a>(alloc: Global, terminals: &'a [Terminal], left: u32) -> Read<'a, RawSeal>
    ensures { Reads (λ x. (x.0, x.1.now)) result (read seal left terminals.now) }
{
    let (_, rest) = sign(terminals, left, Sign::Seal)?;
    let (word, rest) = name(rest, left)?;
    let (at, rest) = in_squares_number(rest, left)?;
    let (closing, rest) = closing(alloc, rest, left)?;
    let (_, rest) = sign(rest, left, Sign::Semicolon)?;
    Ok((RawSeal { word, at, closing }, rest))
}

#[tactic(auto, unfolding(sync_parse_programs::specs::ProofStatements::give))]
fn give<'a>(alloc: Global, terminals: &'a [Terminal], left: u32) -> Read<'a, RawGive>
    ensures { Reads (λ x. (x.0, x.1.now)) result (read give left terminals.now) }
{
    let (_, rest) = sign(terminals, left, Sign::Give)?;
    let (thread, rest) = name(rest, left)?;
    let (args, rest) = args(alloc, rest, left)?;
    let (scripts, rest) = scripts(alloc, rest, left)?;
    let (_, rest) = sign(rest, left, Sign::Semicolon)?;
    Ok((
        RawGive {
            thread,
            args,
            scripts,
        },
        rest,
    ))
}

#[tactic(auto, unfolding(sync_parse_programs::specs::ProofStatements::start_kind))]
fn start_kind<'a>(alloc: Global, terminals: &'a [Terminal], left: u32) -> Read<'a, RawStartKind>
    ensures { Reads (λ x. (x.0, x.1.now)) result (read start_kind left terminals.now) }
{
    if begins_plain_proof(terminals) {
        let (plain, rest) = plain_proof(alloc, terminals, left)?;
        Ok((RawStartKind::Plain(plain), rest))
    } else if begins_with(terminals, Sign::Seal) {
        let (seal, rest) = seal(alloc, terminals, left)?;
        Ok((RawStartKind::Seal(seal), rest))
    } else {
        let (give, rest) = give(alloc, terminals, left)?;
        Ok((RawStartKind::Give(give), rest))
    }
}

#[tactic(auto, unfolding(sync_parse_programs::specs::ProofStatements::start_statement))]
fn start_statement<'a>(
    alloc: Global,
    terminals: &'a [Terminal],
    left: u32,
) -> Read<'a, RawStartStatement>
    ensures { Reads (λ x. (x.0, x.1.now)) result (read start_statement left terminals.now) }
{
    let line = first_line(terminals);
    let (what, rest) = start_kind(alloc, terminals, left)?;
    Ok((RawStartStatement { what, line }, rest))
}

struct StartItem;

impl RowItem for StartItem {
    type Value = RawStartStatement;

    ghost begins = { goes_on };

    ghost reads = { read start_statement };

    fn begins(terminals: &[Terminal]) -> bool {
        goes_on(terminals)
    }

    fn read<'a>(
        alloc: Global,
        terminals: &'a [Terminal],
        left: u32,
    ) -> Read<'a, RawStartStatement> {
        start_statement(alloc, terminals, left)
    }
}

#[tactic(auto, unfolding(sync_parse_programs::specs::Programs::start_block))]
fn start_block<'a>(
    alloc: Global,
    terminals: &'a [Terminal],
    left: u32,
) -> Read<'a, Items<RawStartStatement>>
    ensures { Reads (λ x. (x.0, x.1.now)) result (read start_block left terminals.now) }
{
    let (_, rest) = sign(terminals, left, Sign::OpenBrace)?;
    let (statements, rest) = in_row::<StartItem>(alloc, rest, left - 1)?;
    let (_, rest) = sign(rest, left - 1, Sign::CloseBrace)?;
    Ok((statements, rest))
}

/// `start`, an operation, and the statements of the start in braces.
#[tactic(auto, unfolding(sync_parse_programs::specs::Programs::start))]
pub fn start<'a>(alloc: Global, terminals: &'a [Terminal], left: u32) -> Read<'a, RawStart>
    ensures { Reads (λ x. (x.0, x.1.now)) result (read start left terminals.now) }
{
    let line = first_line(terminals);
    let (_, rest) = sign(terminals, left, Sign::Start)?;
    let (form, rest) = do_form(alloc, rest, left)?;
    let (statements, rest) = start_block(alloc, rest, left)?;
    Ok((
        RawStart {
            form,
            statements,
            line,
        },
        rest,
    ))
}
