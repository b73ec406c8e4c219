//! The rules on strategies, in the order in which a text breaks them.
ghost use Rattle.std.specs.Prelude.{◌≡◌, ◌&&◌, Some, None, MatchResult, OnOk};
ghost use Rattle.std.specs.List.{AllByRecursion};
ghost use Rattle.sync_terms.specs.Stored.{Stored};
ghost use Rattle.sync_machine.specs.Machines.{OperationTree};
ghost use Rattle.sync_machine.specs.Scope.{ChangesNothing};
ghost use Rattle.sync_machine.specs.Views.{HasOwnIds, HasActIds, machine_tree, operation_tree, steps_tree, act_tree};
ghost use Rattle.sync_machine.specs.declared.machine.Step.{Step as Statement};
ghost use Rattle.sync_rules.specs.Strategies.{AreAllowed, kind_of};
ghost use Rattle.sync_rules.specs.Faults.{strategy_fault, has_kind};
ghost use Rattle.sync_rules.specs.Faults as faults;
ghost use Rattle.sync_rules.specs.Order as order;

use crate::acts::{kind_of as kind, strategy_of};
use crate::locality::has_local_terms;
use crate::matrix::allowed;
use crate::order::{is_in_order, is_only_update, keeps_still, may_stand_in};
use crate::shapes::fits;
use sync_base::{Refusal, Rule};
use sync_machine::{Act, Machine, OpMode, Operation, Step, Strategy};

/// Checks the rules on strategies, which are about the statements of a machine's operations.
///
/// Refuses with the first broken rule: the first place in the text counts, and at one place the first rule.
///
/// - S1: the strategy of the field does not have the statement, or an init or a transition does not.
/// - S2: a statement stands behind one of the same field that it has to precede.
/// - S3: a second update of a field.
/// - S4: a term that has to be local names more.
/// - S5: a property changes a field.
/// - S6: an operand is not as the strategy wants it.
///
/// The line is the statement's. Takes no memory.
pub fn check_ops(m: &Machine) -> Result<(), Refusal>
    requires { HasOwnIds m.now }
    ensures exact { MatchResult result (λ _. strategy_fault (machine_tree m.now) ≡ None) (λ r. strategy_fault (machine_tree m.now) ≡ Some r) }
    ensures allowed { OnOk result (AllByRecursion (λ (o : OperationTree). AreAllowed m.now.fields o.steps) (machine_tree m.now).ops) }
    ensures still { OnOk result (AllByRecursion ChangesNothing (machine_tree m.now).ops) }
{
    match first_fault(m) {
        Some(refusal) => Err(refusal),
        None => Ok(()),
    }
}

/// The first fault of the operations.
fn first_fault(m: &Machine) -> Option<Refusal>
    requires { HasOwnIds m.now }
    ensures { result ≡ strategy_fault (machine_tree m.now) }
{
    for op in m.ops.as_slice() {
        if let Some(refusal) = operation_fault(m, op) {
            return Some(refusal);
        }
    }
    None
}

/// The first fault of an operation.
fn operation_fault(m: &Machine, op: &Operation) -> Option<Refusal>
    requires { AllByRecursion (λ (s : Statement). HasActIds m.now.terms s.act) op.now.steps }
    ensures { result ≡ faults.operation_fault m.now.fields (operation_tree m.now.terms op.now) }
{
    let steps = op.steps.as_slice();
    for (i, step) in steps.iter().enumerate() {
        if let Some(rule) = broken_rule(m, op.mode, &steps[..i], &step.act) {
            return Some(Refusal {
                line: step.line,
                rule,
            });
        }
    }
    None
}

/// The first rule that a statement breaks behind the earlier ones of its operation.
#[tactic(auto, unfolding(crate::specs::Faults::broken_rule))]
fn broken_rule(m: &Machine, mode: OpMode, earlier: &[Step], act: &Act) -> Option<Rule>
    requires { HasActIds m.now.terms act.now }
    ensures { result ≡ faults.broken_rule m.now.fields mode (steps_tree m.now.terms earlier.now) (act_tree m.now.terms act.now) }
{
    let strategy = strategy_of(m.fields.as_slice(), act);
    if !is_allowed(strategy, mode, act) {
        Some(Rule::S1)
    } else if !is_in_order(earlier, act) {
        Some(Rule::S2)
    } else if !is_only_update(earlier, act) {
        Some(Rule::S3)
    } else if !has_local_terms(m, mode, act) {
        Some(Rule::S4)
    } else if !keeps_still(mode, act) {
        Some(Rule::S5)
    } else if !fits(&m.terms, strategy, act) {
        Some(Rule::S6)
    } else {
        None
    }
}

/// Whether fields of this strategy, and operations of this mode, have a statement.
fn is_allowed(strategy: Strategy, mode: OpMode, act: &Act) -> bool
    ensures { (s : Stored) → result ≡ (has_kind strategy (kind_of (act_tree s act.now)) && order.may_stand_in mode (act_tree s act.now)) }
{
    has_statement(strategy, act) && may_stand_in(mode, act)
}

/// Whether fields of this strategy have a statement.
fn has_statement(strategy: Strategy, act: &Act) -> bool
    ensures { (s : Stored) → result ≡ has_kind strategy (kind_of (act_tree s act.now)) }
{
    match kind(act) {
        Some(kind) => allowed(strategy, kind),
        None => true,
    }
}
