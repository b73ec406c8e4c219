//! The slots of variables.
ghost use Rattle.std.specs.Prelude.{◌≡◌, option_map, IfSome};
ghost use Rattle.std.specs.List.{AllByRecursion};
ghost use Rattle.sync_terms.specs.Stored.{IsTerm, tree};
ghost use Rattle.sync_machine.specs.Views.{act_tree, step_tree, steps_tree, HasActIds};
ghost use Rattle.sync_machine.specs.declared.machine.Step.{Step as Statement};
ghost use Rattle.sync_rules.specs.Slots as slots;
ghost use Rattle.sync_rules.specs.Views.{slot_tree, HasSlotIds};

use crate::mentions::{is_variable, needs};
use crate::slots::{Role, Slot};
use sync_machine::{Act, Machine, Step, strategy_at};
use sync_terms::TermId;

/// The first value that a statement gives a field.
#[tactic(auto, unfolding(crate::specs::Slots::started_at))]
fn started_at(m: &Machine, field: u32, act: &Act) -> Option<TermId>
    requires { HasActIds m.now.terms act.now }
    ensures exact { option_map (tree m.now.terms) result ≡ slots.started_at field (act_tree m.now.terms act.now) }
    ensures ids { IfSome result (IsTerm m.now.terms) }
{
    match *act {
        Act::Init(f, term) if f == field => Some(term),
        _ => None,
    }
}

/// The new value that a statement gives a field.
#[tactic(auto, unfolding(crate::specs::Slots::updated_to))]
fn updated_to(m: &Machine, field: u32, act: &Act) -> Option<TermId>
    requires { HasActIds m.now.terms act.now }
    ensures exact { option_map (tree m.now.terms) result ≡ slots.updated_to field (act_tree m.now.terms act.now) }
    ensures ids { IfSome result (IsTerm m.now.terms) }
{
    match *act {
        Act::Update(f, term) if f == field => Some(term),
        _ => None,
    }
}

/// The first slot in which a variable's token is given.
fn first_given(m: &Machine, steps: &[Step], variable: u32) -> Option<Slot>
    requires { AllByRecursion (λ (s : Statement). HasActIds m.now.terms s.act) steps.now }
    ensures exact { option_map (slot_tree m.now.terms) result ≡ slots.earliest (slots.given_by variable) (steps_tree m.now.terms steps.now) }
    ensures ids { IfSome result (HasSlotIds m.now.terms) }
{
    for step in steps {
        if let Some(value) = started_at(m, variable, &step.act) {
            return Some(Slot::of_value(Role::Given, variable, value, step.line));
        }
    }
    None
}

/// The first slot in which a variable's token gets a new value.
fn first_changed(m: &Machine, steps: &[Step], variable: u32) -> Option<Slot>
    requires { AllByRecursion (λ (s : Statement). HasActIds m.now.terms s.act) steps.now }
    ensures exact { option_map (slot_tree m.now.terms) result ≡ slots.earliest (slots.changed_by variable) (steps_tree m.now.terms steps.now) }
    ensures ids { IfSome result (HasSlotIds m.now.terms) }
{
    for step in steps {
        if let Some(value) = updated_to(m, variable, &step.act) {
            return Some(Slot::of_value(Role::Change, variable, value, step.line));
        }
    }
    None
}

/// The first slot in which a variable's token is read.
fn first_read(m: &Machine, steps: &[Step], variable: u32) -> Option<Slot>
    requires { AllByRecursion (λ (s : Statement). HasActIds m.now.terms s.act) steps.now }
    ensures exact { option_map (slot_tree m.now.terms) result ≡ slots.earliest (slots.read_by m.now.fields variable) (steps_tree m.now.terms steps.now) }
    ensures ids { IfSome result (HasSlotIds m.now.terms) }
{
    for step in steps {
        if needs(m, variable, &step.act) {
            return Some(Slot::of_read(variable, step.line));
        }
    }
    None
}

/// The slot of a variable, if an operation with these statements uses it.
fn variable_slot(m: &Machine, steps: &[Step], variable: u32) -> Option<Slot>
    requires { AllByRecursion (λ (s : Statement). HasActIds m.now.terms s.act) steps.now }
    ensures exact { option_map (slot_tree m.now.terms) result ≡ slots.variable_slot m.now.fields (steps_tree m.now.terms steps.now) variable }
    ensures ids { IfSome result (HasSlotIds m.now.terms) }
{
    if let Some(slot) = first_given(m, steps, variable) {
        return Some(slot);
    }
    if let Some(slot) = first_changed(m, steps, variable) {
        return Some(slot);
    }
    first_read(m, steps, variable)
}

/// The slot of a field, if it is a variable and an operation with these statements uses it.
pub(crate) fn field_slot(m: &Machine, steps: &[Step], field: u32) -> Option<Slot>
    requires { AllByRecursion (λ (s : Statement). HasActIds m.now.terms s.act) steps.now }
    ensures exact { option_map (slot_tree m.now.terms) result ≡ slots.field_slot m.now.fields (steps_tree m.now.terms steps.now) field }
    ensures ids { IfSome result (HasSlotIds m.now.terms) }
{
    if is_variable(strategy_at(m.fields.as_slice(), field)) {
        variable_slot(m, steps, field)
    } else {
        None
    }
}
