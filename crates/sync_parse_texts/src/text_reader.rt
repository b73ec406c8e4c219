//! Reading whole texts.
ghost use Rattle.std.specs.Prelude.{◌≡◌, IfOk, IfErr};
ghost use Rattle.sync_base.specs.Outcome.{Gives};
ghost use Rattle.sync_parse_exprs.specs.Faults.{Reads};
ghost use Rattle.sync_parse_programs.specs.Programs.{read};
ghost use Rattle.sync_parse_grammar.specs.Texts.{MayRefuse, IsOfVersionOne};
ghost use Rattle.sync_parse_texts.specs.declared.text_reader.RawWholeText.{RawWholeText};
ghost use Rattle.sync_parse_texts.specs.Spelled.{Spells, MayRefuseVersionOne};
ghost use Rattle.sync_parse_texts.specs.Texts.{program_part, sections_of, whole_text};

use crate::program_reader::program;
use sqlite_items::Items;
use std::alloc::Global;
use sync_base::{NameList, Stop};
use sync_lex::{Sign, Terminal, read_terminals};
use sync_parse::{RawMachine, RawProof, machine, proofs, refusal_of, version};
use sync_parse_exprs::{Halt, Read, begins_with, next, sign, wanted};
use sync_parse_programs::RawProgram;

/// The levels of a text: 64 brackets may be open before a lexeme.
const LEVELS: u32 = 65;

/// What a text says: a machine and its proofs, a program where there is one, and the names of the text.
#[derive(Drop)]
pub struct RawWholeText {
    pub machine: RawMachine,
    pub proofs: Items<RawProof>,
    pub program: Option<RawProgram>,
    pub names: NameList,
}

/// What stands in a text apart from its names.
type Sections = (RawMachine, (Items<RawProof>, Option<RawProgram>));

/// A program, or nothing where none begins.
#[tactic(auto, unfolding(crate::specs::Texts::program_part))]
fn program_part<'a>(
    alloc: Global,
    terminals: &'a [Terminal],
    left: u32,
) -> Read<'a, Option<RawProgram>>
    ensures { Reads (λ x. (x.0, x.1.now)) result (read program_part left terminals.now) }
{
    if begins_with(terminals, Sign::Program) {
        let (program, rest) = program(alloc, terminals, left)?;
        return Ok((Some(program), rest));
    }
    Ok((None, terminals))
}

#[tactic(auto, unfolding(crate::specs::Texts::sections_of))]
fn sections_of(alloc: Global, terminals: &[Terminal]) -> Result<Sections, Halt>
    ensures { Reads (λ x. x) result (sections_of terminals.now) }
{
    let (_, rest) = version(terminals, LEVELS)?;
    let (_, rest) = sign(rest, LEVELS, Sign::Semicolon)?;
    let (machine, rest) = machine(alloc, rest, LEVELS)?;
    let (proofs, rest) = proofs(alloc, rest, LEVELS)?;
    let (program, rest) = program_part(alloc, rest, LEVELS)?;
    match next(rest) {
        Some((terminal, _)) => Err(wanted(terminal.line)),
        None => Ok((machine, (proofs, program))),
    }
}

/// What the terminals of a text spell; the rule that is broken first, where they spell nothing.
#[tactic(auto, unfolding(crate::specs::Texts::whole_text))]
fn read_exactly(alloc: Global, text: &[u8]) -> Result<RawWholeText, Stop>
    ensures { Gives (λ t. t) result (whole_text text.now) }
{
    let terminals = read_terminals(alloc, text)?;
    match sections_of(alloc, terminals.list.as_slice()) {
        Ok((machine, (proofs, program))) => Ok(RawWholeText {
            machine,
            proofs,
            program,
            names: terminals.names,
        }),
        Err(Halt::Fault(fault)) => Err(Stop::Refused(refusal_of(terminals.last_line, fault))),
        Err(Halt::Memory) => Err(Stop::Memory),
    }
}

/// The raw tree that a text spells by the productions of the grammar, its program included; it spells no other.
///
/// Refuses with L1 to L4 over the whole text, then with the first of G1 to G4. A text that is spelled by some tree is
/// refused with no rule but G3 and G4, and one of version 1 with none but G3.
#[tactic(auto, using(crate::proofs::Answers::answer_spells, crate::proofs::Answers::answer_only, crate::proofs::Answers::answer_refuses, crate::proofs::Answers::answer_deep))]
pub fn read_whole(alloc: Global, text: &[u8]) -> Result<RawWholeText, Stop>
    ensures exact { Gives (λ t. t) result (whole_text text.now) }
    ensures spells { IfOk result (λ (t : RawWholeText). Spells text.now t) }
    ensures only { IfOk result (λ (t : RawWholeText). (other : RawWholeText) → Spells text.now other → other ≡ t) }
    ensures refuses { IfErr result (λ s. (tree : RawWholeText) → Spells text.now tree → MayRefuse s) }
    ensures deep { IfErr result (λ s. IsOfVersionOne text.now → (tree : RawWholeText) → Spells text.now tree → MayRefuseVersionOne s) }
{
    read_exactly(alloc, text)
}
