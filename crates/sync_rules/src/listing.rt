//! The list of what has to be proved of a machine.
ghost use Rattle.std.specs.Prelude.{◌≡◌, ◌++◌, map, IfOk, OnOk};
ghost use Rattle.sync_terms.specs.Stored.{Stored};
ghost use Rattle.sync_machine.specs.Statements as statements;
ghost use Rattle.sync_machine.specs.Views.{act_tree, HasOwnIds, machine_tree, operation_tree, steps_tree};
ghost use Rattle.sync_rules.specs.declared.field_sets.FieldSet.{FieldSet as Set};
ghost use Rattle.sync_rules.specs.Obligations.{obligations_of, safety_claims};
ghost use Rattle.sync_rules.specs.FieldSets.{HasFewFields, marked_claims, is_marked_by, is_marked, marks_of_all};

use crate::acts::{changed_by, has_safety, strategy_of};
use crate::field_sets::{FieldSet, fields_of};
use std::alloc::Global;
use sync_base::{NoMemory, place_number};
use sync_machine::{Act, Machine, OpMode, Operation};
use sync_terms::{Claim, Obligation};

/// What has to be proved of a machine: of each operation in order its safety conditions, then the invariants that
/// it has to keep.
///
/// Asks that the ids are of the machine's own store, and that the changed fields are declared ones, of which a
/// machine has at most 32. The names of each invariant are collected once.
pub fn obligations(alloc: Global, m: &Machine) -> Result<Vec<Obligation>, NoMemory>
    requires ids { HasOwnIds m.now }
    requires fields { HasFewFields (machine_tree m.now) }
    ensures { IfOk result (λ v. v.items ≡ obligations_of (machine_tree m.now)) }
{
    let named = named_fields(alloc, m)?;
    let mut list = Vec::new(alloc);
    for (i, op) in m.ops.as_slice().iter().enumerate() {
        let number = place_number(i)?;
        add_safety(&mut list, m, number, op)?;
        add_keeps(&mut list, m, named.as_slice(), number, op)?;
    }
    Ok(list)
}

/// The fields that each invariant names.
fn named_fields(alloc: Global, m: &Machine) -> Result<Vec<FieldSet>, NoMemory>
    requires { HasOwnIds m.now }
    ensures { IfOk result (λ v. map (λ (s : Set). s.marks) v.items ≡ marks_of_all (machine_tree m.now).invariants) }
{
    let mut named = Vec::new(alloc);
    for invariant in m.invariants.as_slice() {
        named.push(fields_of(&m.terms, invariant.form))?;
    }
    Ok(named)
}

/// Adds the obligations of an operation's safety conditions.
fn add_safety(
    list: &mut Vec<Obligation>,
    m: &Machine,
    op: u32,
    operation: &Operation,
) -> Result<(), NoMemory>
    ensures { OnOk result (list.new.items ≡ list.old.items ++ safety_claims m.now.fields op 1 (operation_tree m.now.terms operation.now).steps) }
{
    for (i, step) in operation.steps.as_slice().iter().enumerate() {
        if has_safety(strategy_of(m.fields.as_slice(), &step.act), &step.act) {
            list.push(Obligation {
                op,
                claim: Claim::At(place_number(i + 1)?),
                line: step.line,
            })?;
        }
    }
    Ok(())
}

/// Adds the obligations of the invariants that an operation has to keep.
fn add_keeps(
    list: &mut Vec<Obligation>,
    m: &Machine,
    named: &[FieldSet],
    op: u32,
    operation: &Operation,
) -> Result<(), NoMemory>
    ensures { OnOk result (list.new.items ≡ list.old.items ++ marked_claims (operation_tree m.now.terms operation.now) op 0 (map (λ (s : Set). s.marks) named.now)) }
{
    for (j, set) in named.iter().enumerate() {
        if has_to_keep(operation, set) {
            list.push(Obligation {
                op,
                claim: Claim::Keeps(place_number(j)?),
                line: operation.line,
            })?;
        }
    }
    Ok(())
}

/// Whether an operation has to keep an invariant that names these fields.
fn has_to_keep(operation: &Operation, named: &FieldSet) -> bool
    ensures { (s : Stored) → result ≡ is_marked_by operation.now.mode (steps_tree s operation.now.steps) named.now.marks }
{
    match operation.mode {
        OpMode::Init => true,
        OpMode::Transition => operation
            .steps
            .as_slice()
            .iter()
            .any(|step| is_changed_by(named, &step.act)),
        OpMode::Property => false,
    }
}

/// Whether a statement changes a field of the set.
fn is_changed_by(named: &FieldSet, act: &Act) -> bool
    ensures { (s : Stored) → result ≡ is_marked named.now.marks (statements.changed_by (act_tree s act.now)) }
{
    match changed_by(act) {
        Some(field) => named.has(field),
        None => false,
    }
}
