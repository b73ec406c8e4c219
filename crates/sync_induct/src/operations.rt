//! The check of all operations of a machine, in order.
ghost use Rattle.std.specs.Prelude.{◌≡◌, ℕ, Some, All, map, slice_get, OnOk};
ghost use Rattle.std.specs.List.{AllByRecursion};
ghost use Rattle.std.specs.HashSet.{contains};
ghost use Rattle.sync_base.specs.Outcome.{Passes};
ghost use Rattle.sync_terms.specs.Stored.{Extends};
ghost use Rattle.sync_machine.specs.Views.{invariant_tree, operation_tree, HasActIds};
ghost use Rattle.sync_machine.specs.declared.machine.Operation.{Operation as Declared};
ghost use Rattle.sync_induct.specs.Books.{IsBook};
ghost use Rattle.sync_induct.specs.Titles.{same_title};
ghost use Rattle.sync_induct.specs.Checks.{checks_fault};
ghost use Rattle.sync_terms.specs.Proofs.{proofs_in};
ghost use Rattle.sync_induct.specs.Closing.{IsKeepable, AreWanted};
ghost use Rattle.sync_induct.specs.Checklist.{AreShown, operation_checks, checks_from};

use crate::index::Book;
use crate::walks::Walk;
use std::alloc::Global;
use sync_base::{Stop, place_number};
use sync_machine::{Field, Invariant, Operation};
use sync_terms::Terms;

/// Checks what has to be proved of an operation: its safety conditions, and that it keeps the invariants.
fn check_operation(
    alloc: Global,
    terms: &mut Terms,
    fields: &[Field],
    invariants: &[Invariant],
    number: u32,
    operation: &Operation,
    book: Book<'_>,
) -> Result<(), Stop>
    requires invariants { AllByRecursion (IsKeepable terms.old) invariants.now }
    requires ids { All (λ x. HasActIds terms.old x.act) operation.now.steps }
    requires wanted { AreWanted (contains same_title book.wanted.now) number (operation_tree terms.old operation.now)
        (map (invariant_tree terms.old) invariants.now) }
    requires book { IsBook terms.old book }
    ensures exact { Passes result (checks_fault (proofs_in terms.old book.entry.proofs.now)
        (operation_checks fields.now (map (invariant_tree terms.old) invariants.now) number
        (operation_tree terms.old operation.now))) }
    ensures shown { OnOk result (AreShown (operation_checks fields.now
        (map (invariant_tree terms.old) invariants.now) number (operation_tree terms.old operation.now))) }
    ensures keeps { Extends terms.old terms.new }
{
    let mut walk = Walk::begin(alloc, terms, fields, invariants, operation.mode)?;
    walk.walk(
        alloc,
        terms,
        fields,
        number,
        operation.steps.as_slice(),
        book,
    )?;
    walk.keep(alloc, terms, invariants, number, operation, book)
}

/// Checks what has to be proved of all operations.
pub fn check_operations(
    alloc: Global,
    terms: &mut Terms,
    fields: &[Field],
    invariants: &[Invariant],
    operations: &[Operation],
    book: Book<'_>,
) -> Result<(), Stop>
    requires invariants { AllByRecursion (IsKeepable terms.old) invariants.now }
    requires ids { AllByRecursion (λ (o : Declared). All (λ x. HasActIds terms.old x.act) o.steps) operations.now }
    requires wanted { (k : ℕ) (o : Declared) → slice_get operations.now k ≡ Some o
        → AreWanted (contains same_title book.wanted.now) k (operation_tree terms.old o) (map (invariant_tree terms.old) invariants.now) }
    requires book { IsBook terms.old book }
    ensures exact { Passes result (checks_fault (proofs_in terms.old book.entry.proofs.now)
        (checks_from fields.now (map (invariant_tree terms.old) invariants.now) 0
        (map (operation_tree terms.old) operations.now))) }
    ensures shown { OnOk result (AreShown (checks_from fields.now (map (invariant_tree terms.old) invariants.now) 0
        (map (operation_tree terms.old) operations.now))) }
    ensures keeps { Extends terms.old terms.new }
{
    for (i, operation) in operations.iter().enumerate() {
        let number = place_number(i)?;
        check_operation(alloc, terms, fields, invariants, number, operation, book)?;
    }
    Ok(())
}
