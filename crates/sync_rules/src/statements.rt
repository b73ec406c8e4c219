//! The slots of statements on other fields than variables.
ghost use Rattle.std.specs.Prelude.{◌≡◌, option_map, IfSome};
ghost use Rattle.sync_machine.specs.Views.{step_tree, HasActIds};
ghost use Rattle.sync_rules.specs.Slots as slots;
ghost use Rattle.sync_rules.specs.Views.{slot_tree, HasSlotIds};

use crate::slots::{Role, Slot};
use sync_machine::{Act, Machine, Step, Strategy, strategy_at};

/// Whether the tokens of a field are amounts, of which its first value gives one.
fn has_amounts(strategy: Strategy) -> bool
    ensures { result ≡ slots.has_amounts strategy }
{
    matches!(strategy, Strategy::Count | Strategy::PersistentCount)
}

/// The slot of a statement, if it has one.
#[tactic(auto, unfolding(crate::specs::Slots::act_slot))]
pub(crate) fn statement_slot(m: &Machine, step: &Step) -> Option<Slot>
    requires { HasActIds m.now.terms step.now.act }
    ensures exact { option_map (slot_tree m.now.terms) result ≡ slots.statement_slot m.now.fields (step_tree m.now.terms step.now) }
    ensures ids { IfSome result (HasSlotIds m.now.terms) }
{
    match step.act {
        Act::Init(f, term) if has_amounts(strategy_at(m.fields.as_slice(), f)) => {
            Some(Slot::of_value(Role::Given, f, term, step.line))
        }
        Act::Add(f, place) => Some(Slot::of_place(Role::Given, f, place, step.line)),
        Act::Remove(f, place) => Some(Slot::of_place(Role::Taken, f, place, step.line)),
        Act::Have(f, place) => Some(Slot::of_place(Role::Read, f, place, step.line)),
        Act::Deposit(f, place) => Some(Slot::of_place(Role::In, f, place, step.line)),
        Act::Withdraw(f, place) => Some(Slot::of_place(Role::Out, f, place, step.line)),
        Act::Guard(f, place) => Some(Slot::of_place(Role::Seen, f, place, step.line)),
        Act::Init(..) | Act::Require(_) | Act::Assert(_) | Act::Update(..) | Act::HaveVariable(_) =>
            None,
    }
}
