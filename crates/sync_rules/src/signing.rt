//! The slots of an operation, in order.
ghost use Rattle.std.specs.Prelude.{◌≡◌, ◌++◌, ◌<◌, length, filter_map, IfOk, OnOk};
ghost use Rattle.std.specs.List.{AllByRecursion, range_with_len};
ghost use Rattle.sync_machine.specs.Views.{steps_tree, machine_tree, HasActIds, HasOwnIds};
ghost use Rattle.sync_machine.specs.declared.machine.Step.{Step as Statement};
ghost use Rattle.sync_rules.specs.Slots as slots;
ghost use Rattle.sync_rules.specs.Views.{slots_tree, HaveSlotIds};

use crate::slots::Slot;
use crate::statements::statement_slot;
use crate::variables::field_slot;
use std::alloc::Global;
use sync_base::{NoMemory, place_number};
use sync_machine::{Machine, Step};

/// The slots of the operation with this number: first those of the variables that it uses, then those of its
/// statements.
///
/// What it says is of use for a machine that `check_ops` passed; it asks only that the ids are of the machine's own
/// store and that there is such an operation.
pub fn signature(alloc: Global, m: &Machine, op: u32) -> Result<Vec<Slot>, NoMemory>
    requires ids { HasOwnIds m.now }
    requires op { op < length m.now.ops }
    ensures exact { IfOk result (λ v. slots_tree m.now.terms v.items ≡ slots.signature_of (machine_tree m.now) op) }
    ensures own { IfOk result (λ v. HaveSlotIds m.now.terms v.items) }
{
    let steps = m.ops.as_slice()[op as usize].steps.as_slice();
    let mut list = Vec::new(alloc);
    add_variables(&mut list, m, steps)?;
    add_statements(&mut list, m, steps)?;
    Ok(list)
}

/// The slots of the variables that statements use, in the order of declaration.
pub fn variable_slots(alloc: Global, m: &Machine, steps: &[Step]) -> Result<Vec<Slot>, NoMemory>
    requires { AllByRecursion (λ (s : Statement). HasActIds m.now.terms s.act) steps.now }
    ensures { IfOk result (λ v. slots_tree m.now.terms v.items ≡ filter_map (slots.field_slot m.now.fields (steps_tree m.now.terms steps.now)) (range_with_len 0 (length m.now.fields))) }
{
    let mut found = Vec::new(alloc);
    add_variables(&mut found, m, steps)?;
    Ok(found)
}

/// Adds the slots of the variables that statements use.
fn add_variables(list: &mut Vec<Slot>, m: &Machine, steps: &[Step]) -> Result<(), NoMemory>
    requires { AllByRecursion (λ (s : Statement). HasActIds m.now.terms s.act) steps.now }
    ensures exact { OnOk result (slots_tree m.now.terms list.new.items ≡ slots_tree m.now.terms list.old.items ++ filter_map (slots.field_slot m.now.fields (steps_tree m.now.terms steps.now)) (range_with_len 0 (length m.now.fields))) }
    ensures own { OnOk result (HaveSlotIds m.now.terms list.old.items → HaveSlotIds m.now.terms list.new.items) }
{
    for f in 0..m.fields.len() {
        let field = place_number(f)?;
        if let Some(slot) = field_slot(m, steps, field) {
            list.push(slot)?;
        }
    }
    Ok(())
}

/// Adds the slots of the statements on other fields.
fn add_statements(list: &mut Vec<Slot>, m: &Machine, steps: &[Step]) -> Result<(), NoMemory>
    requires { AllByRecursion (λ (s : Statement). HasActIds m.now.terms s.act) steps.now }
    ensures exact { OnOk result (slots_tree m.now.terms list.new.items ≡ slots_tree m.now.terms list.old.items ++ filter_map (slots.statement_slot m.now.fields) (steps_tree m.now.terms steps.now)) }
    ensures own { OnOk result (HaveSlotIds m.now.terms list.old.items → HaveSlotIds m.now.terms list.new.items) }
{
    for step in steps {
        if let Some(slot) = statement_slot(m, step) {
            list.push(slot)?;
        }
    }
    Ok(())
}
