//! What a step names, with what its symbols stand for at the place of its script.
ghost use Rattle.std.specs.Prelude.{◌≡◌, ◌+◌, All, IfOk, IfErr, OnOk, Err, true, false, length};
ghost use Rattle.sync_terms.specs.Building.{BuildsForm, BuildsTerm, HasTerm, StopsBuilding};
ghost use Rattle.sync_terms.specs.Stored.{formula, Extends, IsForm, IsTerm};
ghost use Rattle.sync_terms.specs.Trees.{tree_size};
ghost use Rattle.sync_terms.specs.declared.store.TermStop.TheVariants.{TooLarge};
ghost use Rattle.sync_typing_reading.specs.Sayings.{AreSaidOf};
ghost use Rattle.sync_kernel.specs.Readings.{form_read, tree_read, trees_read, ArePaired};
ghost use Rattle.sync_kernel.specs.Taking.{all_fit};

use std::alloc::Global;
use sync_terms::building::stored_term;
use sync_terms::{FormId, MOST_NODES, Sym, TermId, TermStop, Terms};
use sync_typing_ledgers::Ledger;
use sync_typing_reading as ledgers;

/// A formula that is stored, which is never too large.
fn stored_form(terms: &Terms, form: FormId) -> Result<FormId, TermStop>
    requires { IsForm terms.now form }
    ensures { BuildsForm terms.now (formula terms.now form) result }
{
    prove!(terms.size_of(form) <= MOST_NODES);
    Ok(form)
}

/// A term as the names say; the term itself where there are no names.
pub(crate) fn read_term(terms: &mut Terms, names: &Ledger, id: TermId) -> Result<TermId, TermStop>
    requires term { IsTerm terms.old id }
    requires said { AreSaidOf terms.old names.now }
    ensures built { BuildsTerm terms.new (tree_read terms.old names.now id) result }
    ensures keeps { Extends terms.old terms.new }
{
    if names.len() == 0 {
        stored_term(terms, id)
    } else {
        ledgers::read_term(terms, names, id)
    }
}

/// A formula as the names say; the formula itself where there are no names.
pub(crate) fn read_form(terms: &mut Terms, names: &Ledger, id: FormId) -> Result<FormId, TermStop>
    requires form { IsForm terms.old id }
    requires said { AreSaidOf terms.old names.now }
    ensures built { BuildsForm terms.new (form_read terms.old names.now id) result }
    ensures keeps { Extends terms.old terms.new }
{
    if names.len() == 0 {
        stored_form(terms, id)
    } else {
        ledgers::read_form(terms, names, id)
    }
}

/// Two terms as the names say.
pub(crate) fn read_both(
    terms: &mut Terms,
    names: &Ledger,
    left: TermId,
    right: TermId,
) -> Result<(TermId, TermId), TermStop>
    requires left { IsTerm terms.old left }
    requires right { IsTerm terms.old right }
    requires said { AreSaidOf terms.old names.now }
    ensures left { IfOk result (λ p. HasTerm terms.new (tree_read terms.old names.now left) p.0) }
    ensures right { IfOk result (λ p. HasTerm terms.new (tree_read terms.old names.now right) p.1) }
    ensures stop { IfErr result
        (StopsBuilding
        (tree_size (tree_read terms.old names.now left) + tree_size (tree_read terms.old names.now right))) }
    ensures keeps { Extends terms.old terms.new }
{
    let first = read_term(terms, names, left)?;
    let second = read_term(terms, names, right)?;
    Ok((first, second))
}

/// Each parameter with the term at its place, as the names say.
pub(crate) fn paired(
    alloc: Global,
    terms: &mut Terms,
    names: &Ledger,
    params: &[Sym],
    list: &[TermId],
) -> Result<Vec<(Sym, TermId)>, TermStop>
    requires number { length params.now ≡ length list.now }
    requires list { All (IsTerm terms.old) list.now }
    requires said { AreSaidOf terms.old names.now }
    ensures paired { IfOk result
        (λ v. ArePaired terms.new params.now (trees_read terms.old names.now list.now) v.items) }
    ensures fits { OnOk result (all_fit (trees_read terms.old names.now list.now) ≡ true) }
    ensures stop { result ≡ Err TooLarge → all_fit (trees_read terms.old names.now list.now) ≡ false }
    ensures keeps { Extends terms.old terms.new }
{
    let mut pairs = Vec::new(alloc);
    for (i, id) in list.iter().enumerate() {
        let read = read_term(terms, names, *id)?;
        pairs.push((params[i], read))?;
    }
    Ok(pairs)
}
