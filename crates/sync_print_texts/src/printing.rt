//! Writing whole texts.
ghost use Rattle.std.specs.Prelude.{◌≡◌, ◌++◌, ℕ, List, map, OnOk, IfOk};
ghost use Rattle.sync_parse_texts.specs.Spelled.{Spells};
ghost use Rattle.sync_parse_texts.specs.Texts.{program_part};
ghost use Rattle.sync_print.specs.Lexemes.{printed};
ghost use Rattle.sync_print_programs.specs.Shown.{show_of};
ghost use Rattle.sync_print_programs.specs.Written.{as_printed};
ghost use Rattle.sync_print_texts.specs.Rereading.{ReadsBack};
ghost use Rattle.sync_print_texts.specs.Whole.{show_whole};

use crate::programs::program;
use sqlite_items::Items;
use std::alloc::{AllocError, Global};
use sync_base::NameList;
use sync_parse_programs::RawProgram;
use sync_parse_texts::RawWholeText;
use sync_print::{machine, proofs, version};

/// A program, or nothing.
#[tactic(auto, using(sync_print::proofs::Steps::nothing_more), unfolding(sync_parse_texts::specs::Texts::program_part, sync_print_programs::specs::Written::bytes_of))]
fn program_part(
    alloc: Global,
    names: &NameList,
    out: &mut Vec<u8>,
    part: &Option<RawProgram>,
) -> Result<(), AllocError>
    ensures { OnOk result (out.new.items ≡ out.old.items ++ printed names.now (map as_printed (show_of program_part part.now))) }
{
    match part {
        Some(x) => program(alloc, names, out, x),
        None => Ok(()),
    }
}

/// A text.
#[tactic(auto, using(sync_print::proofs::Steps::joined))]
fn write(
    alloc: Global,
    names: &NameList,
    out: &mut Vec<u8>,
    text: &RawWholeText,
) -> Result<(), AllocError>
    ensures { OnOk result (out.new.items ≡ out.old.items ++ printed names.now (show_whole text.now)) }
{
    version(alloc, names, out)?;
    machine(alloc, names, out, &text.machine)?;
    proofs(alloc, names, out, text.proofs.as_slice())?;
    program_part(alloc, names, out, &text.program)?;
    Ok(())
}

/// The bytes of what is shown of a text.
fn print_exactly(alloc: Global, text: &RawWholeText) -> Result<Items<u8>, AllocError>
    ensures { IfOk result (λ bytes. bytes ≡ printed text.now.names (show_whole text.now)) }
{
    let mut out = Vec::new(alloc);
    write(alloc, &text.names, &mut out, text)?;
    Ok(Items::from_vec(out))
}

/// The canonical bytes of a text, its program included: its lexemes in order, each with a line feed behind it if it is `;`,
/// `{` or `}`, else with a space. Brackets stand only where their place would not spell its tree without them.
///
/// The names are those of the text. Of a text that some bytes spell, the canonical bytes are read again as a text that says
/// the same, unless they are too long or too deep. Fails only for want of memory.
#[tactic(auto, using(crate::proofs::Rereads::printed_reads_back))]
pub fn print_whole(alloc: Global, text: &RawWholeText) -> Result<Items<u8>, AllocError>
    ensures exact { IfOk result (λ bytes. bytes ≡ printed text.now.names (show_whole text.now)) }
    ensures reads_back { IfOk result (λ bytes. (source : List ℕ) → Spells source text.now → ReadsBack text.now bytes) }
{
    print_exactly(alloc, text)
}
