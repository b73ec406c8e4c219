//! Lists what has to be proved of a text's machine.
ghost use Rattle.std.specs.Prelude.{◌≡◌, ◌++◌, map, codes, None, IfOk, OnOk};
ghost use Rattle.sync_base.specs.Outcome.{Gives};
ghost use Rattle.sync_machine.specs.Views.{machine_tree, HasOwnIds};
ghost use Rattle.sync_machine.specs.Naming.{machine_fault, AreTextNames};
ghost use Rattle.sync_check.specs.Texts.{text_tree};
ghost use Rattle.sync_check.specs.Listing.{claim_text, invariant_name, listed, listing_of, obligation_line, operation_name, IsListed};

use crate::checking::keeps_strategies;
use crate::reading::{Text, read_built};
use sqlite_items::Items;
use std::alloc::{AllocError, Global};
use sync_base::Stop;
use sync_rules::obligations;
use sync_terms::{Claim, Obligation};

/// The name of the operation with this number.
#[tactic(auto, using(crate::proofs::Named::named))]
fn operation_name(text: &Text, op: u32) -> &[u8]
    ensures { result.now ≡ operation_name (text_tree text.now) op }
{
    match text.machine.ops.get(op as usize) {
        Some(operation) => text.names.spelling(operation.name),
        None => &[],
    }
}

/// The name of the invariant with this number.
#[tactic(auto, using(crate::proofs::Named::named))]
fn invariant_name(text: &Text, number: u32) -> &[u8]
    ensures { result.now ≡ invariant_name (text_tree text.now) number }
{
    match text.machine.invariants.get(number as usize) {
        Some(invariant) => text.names.spelling(invariant.name),
        None => &[],
    }
}

/// Adds what is claimed, and the end of the line.
fn add_claim(alloc: Global, line: &mut Vec<u8>, text: &Text, claim: Claim) -> Result<(), AllocError>
    ensures { OnOk result (line.new.items ≡ line.old.items ++ claim_text (text_tree text.now) claim ++ codes "\n") }
{
    match claim {
        Claim::At(number) => {
            let place = format!(in alloc; " at {number}\n")?;
            line.extend_from_slice(place.as_bytes())
        }
        Claim::Keeps(number) => {
            line.extend_from_slice(b" keeps ")?;
            line.extend_from_slice(invariant_name(text, number))?;
            line.extend_from_slice(b"\n")
        }
    }
}

/// The line of an obligation.
fn obligation_line(
    alloc: Global,
    text: &Text,
    obligation: Obligation,
) -> Result<Items<u8>, AllocError>
    ensures { IfOk result (λ line. line ≡ obligation_line (text_tree text.now) obligation) }
{
    let Obligation { op, claim, line } = obligation;
    let mut bytes = format!(in alloc; "line {line} ")?.into_bytes();
    bytes.extend_from_slice(operation_name(text, op))?;
    add_claim(alloc, &mut bytes, text, claim)?;
    Ok(Items::from_vec(bytes))
}

/// The lines of these obligations.
fn lines_of(
    alloc: Global,
    text: &Text,
    obligations: &[Obligation],
) -> Result<Items<Items<u8>>, AllocError>
    ensures { IfOk result (λ lines. lines ≡ map (obligation_line (text_tree text.now)) obligations.now) }
{
    let mut lines = Vec::new(alloc);
    for obligation in obligations {
        lines.push(obligation_line(alloc, text, *obligation)?)?;
    }
    Ok(Items::from_vec(lines))
}

/// The lines of all that has to be proved of the machine of a text that has been read, or the first rule of strategies that
/// it breaks.
fn listed(alloc: Global, text: &Text) -> Result<Items<Items<u8>>, Stop>
    requires ids { HasOwnIds text.now.machine }
    requires names { AreTextNames (machine_tree text.now.machine) }
    requires formed { machine_fault (machine_tree text.now.machine) ≡ None }
    ensures { Gives (λ lines. lines) result (listed (text_tree text.now)) }
{
    keeps_strategies(&text.machine)?;
    let list = obligations(alloc, &text.machine)?;
    Ok(lines_of(alloc, text, list.as_slice())?)
}

/// The lines of all that has to be proved of a text's machine, or the first rule that the text breaks.
///
/// The rules of lexemes, of the grammar, of names and of strategies are asked for. Proofs are not looked at, but for the
/// names in them.
#[tactic(auto, unfolding(crate::specs::Listing::listing_of))]
pub fn list(alloc: Global, bytes: &[u8]) -> Result<Items<Items<u8>>, Stop>
    ensures exact { Gives (λ lines. lines) result (listing_of bytes.now) }
    ensures means { IfOk result (IsListed bytes.now) }
{
    let text = read_built(alloc, bytes)?;
    listed(alloc, &text)
}
