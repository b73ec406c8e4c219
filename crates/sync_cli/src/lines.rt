//! Makes the lines that are printed.
ghost use Rattle.std.specs.Prelude.{◌≡◌, [], ◌∷◌, IfOk, string_bytes};
ghost use Rattle.sync_cli.specs.Lines.{accepted_line, refused_line};

use sqlite_items::Items;
use std::alloc::{AllocError, Global};
use sync_base::Refusal;

/// Says how many scripts were checked.
fn accepted_line(alloc: Global, scripts: u64) -> Result<String, AllocError>
    ensures { IfOk result (λ line. string_bytes line ≡ accepted_line scripts) }
{
    format!(in alloc; "accepted {scripts}\n")
}

/// The one line of a text that is accepted.
pub fn accepted_lines(alloc: Global, scripts: u64) -> Result<Items<Items<u8>>, AllocError>
    ensures { IfOk result (λ lines. lines ≡ accepted_line scripts ∷ []) }
{
    let line = accepted_line(alloc, scripts)?;
    let mut lines = Items::new(alloc);
    lines.push(Items::from_vec(line.into_bytes()))?;
    Ok(lines)
}

/// Says which rule is broken, and in which line of the text.
pub fn refused_line(alloc: Global, refusal: Refusal) -> Result<String, AllocError>
    ensures { IfOk result (λ line. string_bytes line ≡ refused_line refusal) }
{
    let Refusal { line, rule } = refusal;
    let code = rule.code();
    format!(in alloc; "refused line {line} rule {code}\n")
}
