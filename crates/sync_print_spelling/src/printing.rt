//! The canonical form of a text, with what reading it gives.
ghost use Rattle.std.specs.Prelude.{◌≡◌, ℕ, List, IfOk};
ghost use Rattle.sync_parse_grammar.specs.Texts.{Spells};
ghost use Rattle.sync_print.specs.Lexemes.{printed};
ghost use Rattle.sync_print.specs.ShowTexts.{show};
ghost use Rattle.sync_print.specs.Texts.{plain_text};
ghost use Rattle.sync_print_spelling.specs.Rereading.{ReadsBack};

use sqlite_items::Items;
use std::alloc::{AllocError, Global};
use sync_parse::RawText;

/// The canonical bytes of a text: its lexemes in order, each with a line feed behind it if it is `;`, `{` or `}`, else with
/// a space. Brackets stand only where their place would not spell its tree without them.
///
/// The names are those of the text. Of a text that some bytes spell, the canonical bytes are read again as a text that says
/// the same, unless they are too long or too deep. Fails only for want of memory.
#[tactic(auto, using(crate::proofs::Rereads::printed_reads_back))]
pub fn print(alloc: Global, text: &RawText) -> Result<Items<u8>, AllocError>
    ensures exact { IfOk result (λ bytes. bytes ≡ printed text.now.names (show (plain_text text.now))) }
    ensures reads_back { IfOk result (λ bytes. (source : List ℕ) → Spells source text.now → ReadsBack text.now bytes) }
{
    sync_print::print(alloc, text)
}
