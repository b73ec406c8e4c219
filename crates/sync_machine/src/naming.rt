//! Whether a machine keeps the rules of names, sorts and limits.
ghost use Rattle.std.specs.Prelude.{◌≡◌, ℕ, [], List, ◌||◌, map, length, count_by, nat_eq, Option, Some, None, MatchResult, OnOk};
ghost use Rattle.std.specs.List.{list_any, AllByRecursion};
ghost use Rattle.sync_terms.specs.Stored.{IsForm};
ghost use Rattle.sync_machine.specs.Views.{symbols_of, step_tree, steps_tree, operation_tree, invariant_tree, machine_tree, HasActIds, HasOwnIds};
ghost use Rattle.sync_machine.specs.Named.{IsNamed};
ghost use Rattle.sync_machine.specs.Scoped.{starts, starts_each, HaveIds};
ghost use Rattle.sync_machine.specs.Naming.{Tells, at_line, first_fault, is_field_name, is_taken, is_invariant_name, repeated, parameter_fault, step_fault, start_fault, field_fault, head_fault, operation_fault, invariant_rule, invariant_fault, machine_fault, AreTextNames};

use crate::fields::Field;
use crate::machine::{Act, Invariant, Machine, Operation, Step};
use crate::scope::{Scope, is_fields_name, is_listed};
use sync_base::{OpMode, Refusal, Rule};
use sync_terms::Sym;

/// The most fields of a machine.
const MAX_FIELDS: usize = 32;
/// The most operations of a machine.
const MAX_OPERATIONS: usize = 64;
/// The most invariants of a machine.
const MAX_INVARIANTS: usize = 64;
/// The most parameters of an operation.
const MAX_PARAMETERS: usize = 8;
/// The most statements of an operation.
const MAX_STEPS: usize = 64;

/// A check of places at a line.
fn at(line: u32, checked: Result<(), Rule>) -> Result<(), Refusal>
    ensures { (fault : Option Rule) → Tells checked fault → Tells result (at_line line fault) }
{
    match checked {
        Ok(()) => Ok(()),
        Err(rule) => Err(Refusal { line, rule }),
    }
}

/// Whether a field has this name.
fn names_field(fields: &[Field], name: u32) -> bool
    ensures { result ≡ is_field_name fields.now name }
{
    fields.iter().any(|field| name == field.name)
}

/// Whether a field or one of these operations has this name.
#[tactic(auto, using(crate::proofs::Names::operation_any))]
fn is_taken_by(m: &Machine, ops: &[Operation], name: u32) -> bool
    ensures { result ≡ is_taken m.now.fields (map (operation_tree m.now.terms) ops.now) name }
{
    names_field(m.fields.as_slice(), name) || names_operation(ops, name)
}

/// Whether an operation has this name.
fn names_operation(ops: &[Operation], name: u32) -> bool
    ensures { result ≡ list_any (λ o. nat_eq name o.name) ops.now }
{
    ops.iter().any(|op| name == op.name)
}

/// Whether an invariant has this name.
fn names_invariant(invariants: &[Invariant], name: u32) -> bool
    ensures { result ≡ list_any (λ i. nat_eq name i.name) invariants.now }
{
    invariants.iter().any(|invariant| name == invariant.name)
}

/// Whether a field, an operation or one of these invariants has this name.
#[tactic(auto, using(crate::proofs::Names::invariant_any))]
fn is_used(m: &Machine, earlier: &[Invariant], name: u32) -> bool
    ensures { result ≡ (is_taken m.now.fields (map (operation_tree m.now.terms) m.now.ops) name || is_invariant_name (map (invariant_tree m.now.terms) earlier.now) name) }
{
    is_taken_by(m, m.ops.as_slice(), name) || names_invariant(earlier, name)
}

/// A field beside those before it.
#[tactic(auto, unfolding(crate::specs::Naming::field_fault))]
fn check_field(earlier: &[Field], field: &Field) -> Result<(), Refusal>
    ensures { Tells result (field_fault earlier.now field.now) }
{
    let line = field.line;
    if earlier.len() >= MAX_FIELDS {
        return Err(Refusal {
            line,
            rule: Rule::N5,
        });
    }
    if names_field(earlier, field.name) {
        return Err(Refusal {
            line,
            rule: Rule::N2,
        });
    }
    Ok(())
}

/// The fields.
fn check_fields(fields: &[Field]) -> Result<(), Refusal>
    ensures { Tells result (first_fault field_fault [] fields.now) }
{
    for (k, field) in fields.iter().enumerate() {
        check_field(&fields[..k], field)?;
    }
    Ok(())
}

/// A parameter beside the fields and the parameters before it.
#[tactic(auto, using(crate::proofs::Names::listed_any))]
fn new_parameter(fields: &[Field], earlier: &[Sym], x: Sym) -> Result<(), Rule>
    ensures { Tells result (repeated fields.now (symbols_of earlier.now) x.0) }
{
    if is_fields_name(fields, x) || is_listed(earlier, x) {
        return Err(Rule::N2);
    }
    Ok(())
}

/// The parameters of an invariant.
fn check_names(fields: &[Field], params: &[Sym]) -> Result<(), Rule>
    ensures { Tells result (first_fault (repeated fields.now) [] (symbols_of params.now)) }
{
    for (k, x) in params.iter().enumerate() {
        new_parameter(fields, &params[..k], *x)?;
    }
    Ok(())
}

/// A parameter of an operation.
fn parameter(fields: &[Field], earlier: &[Sym], x: Sym) -> Result<(), Rule>
    ensures { Tells result (parameter_fault fields.now (symbols_of earlier.now) x.0) }
{
    new_parameter(fields, earlier, x)?;
    if earlier.len() >= MAX_PARAMETERS {
        return Err(Rule::N5);
    }
    Ok(())
}

/// The parameters of an operation.
fn check_parameters(fields: &[Field], params: &[Sym]) -> Result<(), Rule>
    ensures { Tells result (first_fault (parameter_fault fields.now) [] (symbols_of params.now)) }
{
    for (k, x) in params.iter().enumerate() {
        parameter(fields, &params[..k], *x)?;
    }
    Ok(())
}

/// Whether a statement initialises the field with this number.
fn initialises(act: Act, field: usize) -> bool
    ensures { result ≡ starts field act }
{
    match act {
        Act::Init(other, _) => field == other as usize,
        Act::Require(_)
        | Act::Assert(_)
        | Act::Update(_, _)
        | Act::HaveVariable(_)
        | Act::Add(_, _)
        | Act::Remove(_, _)
        | Act::Have(_, _)
        | Act::Deposit(_, _)
        | Act::Withdraw(_, _)
        | Act::Guard(_, _) => false,
    }
}

/// How often statements initialise the field with this number.
fn times_started(steps: &[Step], field: usize) -> usize
    ensures { result ≡ count_by (λ s. starts field s.act) steps.now }
{
    steps
        .iter()
        .filter(|step| initialises(step.act, field))
        .count()
}

/// Whether statements initialise each field exactly once.
fn is_started(fields: &[Field], steps: &[Step]) -> bool
    ensures { result ≡ starts_each fields.now steps.now }
{
    (0..fields.len()).all(|field| times_started(steps, field) == 1)
}

/// An operation's init statements, where it is an init.
#[tactic(auto, using(crate::proofs::Names::started))]
fn start(m: &Machine, op: &Operation) -> Result<(), Rule>
    ensures { Tells result (start_fault m.now.fields op.now.mode (steps_tree m.now.terms op.now.steps)) }
{
    match op.mode {
        OpMode::Init => {
            if !is_started(m.fields.as_slice(), op.steps.as_slice()) {
                return Err(Rule::N4);
            }
            Ok(())
        }
        OpMode::Transition | OpMode::Property => Ok(()),
    }
}

/// An operation without its statements, beside the operations before it.
#[tactic(auto, unfolding(crate::specs::Naming::head_fault))]
fn head(m: &Machine, earlier: &[Operation], op: &Operation) -> Result<(), Rule>
    ensures { Tells result (head_fault m.now.fields (map (operation_tree m.now.terms) earlier.now) (operation_tree m.now.terms op.now)) }
{
    start(m, op)?;
    if earlier.len() >= MAX_OPERATIONS {
        return Err(Rule::N5);
    }
    if is_taken_by(m, earlier, op.name) {
        return Err(Rule::N2);
    }
    check_parameters(m.fields.as_slice(), op.params.as_slice())
}

/// A statement behind those before it.
#[tactic(auto, unfolding(crate::specs::Naming::step_fault))]
fn check_step(m: &Machine, params: &[Sym], earlier: &[Step], step: &Step) -> Result<(), Refusal>
    requires { HasActIds m.now.terms step.now.act }
    ensures { Tells result (step_fault m.now.fields (symbols_of params.now) (steps_tree m.now.terms earlier.now) (step_tree m.now.terms step.now)) }
{
    let line = step.line;
    if earlier.len() >= MAX_STEPS {
        return Err(Refusal {
            line,
            rule: Rule::N5,
        });
    }
    let scope = Scope {
        terms: &m.terms,
        fields: m.fields.as_slice(),
        params,
        earlier,
    };
    at(line, scope.act(step.act))
}

/// The statements of an operation.
fn check_steps(m: &Machine, params: &[Sym], steps: &[Step]) -> Result<(), Refusal>
    requires { HaveIds m.now.terms steps.now }
    ensures { Tells result (first_fault (step_fault m.now.fields (symbols_of params.now)) [] (steps_tree m.now.terms steps.now)) }
{
    for (k, step) in steps.iter().enumerate() {
        check_step(m, params, &steps[..k], step)?;
    }
    Ok(())
}

/// An operation beside those before it.
#[tactic(auto, unfolding(crate::specs::Naming::operation_fault))]
fn check_operation(m: &Machine, earlier: &[Operation], op: &Operation) -> Result<(), Refusal>
    requires { HaveIds m.now.terms op.now.steps }
    ensures { Tells result (operation_fault m.now.fields (map (operation_tree m.now.terms) earlier.now) (operation_tree m.now.terms op.now)) }
{
    at(op.line, head(m, earlier, op))?;
    check_steps(m, op.params.as_slice(), op.steps.as_slice())
}

/// The operations.
fn check_operations(m: &Machine, ops: &[Operation]) -> Result<(), Refusal>
    requires { AllByRecursion (λ o. HaveIds m.now.terms o.steps) ops.now }
    ensures { Tells result (first_fault (operation_fault m.now.fields) [] (map (operation_tree m.now.terms) ops.now)) }
{
    for (k, op) in ops.iter().enumerate() {
        check_operation(m, &ops[..k], op)?;
    }
    Ok(())
}

/// An invariant beside those before it.
#[tactic(auto, unfolding(crate::specs::Naming::invariant_rule))]
fn invariant(m: &Machine, earlier: &[Invariant], i: &Invariant) -> Result<(), Rule>
    requires { IsForm m.now.terms i.now.form }
    ensures { Tells result (invariant_rule m.now.fields (map (operation_tree m.now.terms) m.now.ops) (map (invariant_tree m.now.terms) earlier.now) (invariant_tree m.now.terms i.now)) }
{
    let fields = m.fields.as_slice();
    let params = i.params.as_slice();
    if earlier.len() >= MAX_INVARIANTS {
        return Err(Rule::N5);
    }
    if is_used(m, earlier, i.name) {
        return Err(Rule::N2);
    }
    check_names(fields, params)?;
    let scope = Scope {
        terms: &m.terms,
        fields,
        params,
        earlier: &[],
    };
    scope.formula(i.form)
}

/// An invariant, with its line.
fn check_invariant(m: &Machine, earlier: &[Invariant], i: &Invariant) -> Result<(), Refusal>
    requires { IsForm m.now.terms i.now.form }
    ensures { Tells result (invariant_fault m.now.fields (map (operation_tree m.now.terms) m.now.ops) (map (invariant_tree m.now.terms) earlier.now) (invariant_tree m.now.terms i.now)) }
{
    at(i.line, invariant(m, earlier, i))
}

/// The invariants.
fn check_invariants(m: &Machine, invariants: &[Invariant]) -> Result<(), Refusal>
    requires { AllByRecursion (λ i. IsForm m.now.terms i.form) invariants.now }
    ensures { Tells result (first_fault (invariant_fault m.now.fields (map (operation_tree m.now.terms) m.now.ops)) [] (map (invariant_tree m.now.terms) invariants.now)) }
{
    for (k, i) in invariants.iter().enumerate() {
        check_invariant(m, &invariants[..k], i)?;
    }
    Ok(())
}

/// The fields, the operations and the invariants.
#[tactic(auto, unfolding(crate::specs::Naming::machine_fault))]
fn check(m: &Machine) -> Result<(), Refusal>
    requires { HasOwnIds m.now }
    ensures { Tells result (machine_fault (machine_tree m.now)) }
{
    check_fields(m.fields.as_slice())?;
    check_operations(m, m.ops.as_slice())?;
    check_invariants(m, m.invariants.as_slice())
}

/// Whether a machine keeps the rules of names, sorts and limits: N1, N2, N4, N5 and N6, as far as they are about
/// machines. Its parameters and bound names are symbols of names, 64 + 4n.
///
/// The first broken rule is told, with the line of its statement, or of its field, operation or invariant. No memory
/// is taken.
pub fn well_formed(m: &Machine) -> Result<(), Refusal>
    requires ids { HasOwnIds m.now }
    requires names { AreTextNames (machine_tree m.now) }
    ensures exact { MatchResult result (λ _. machine_fault (machine_tree m.now) ≡ None) (λ r. machine_fault (machine_tree m.now) ≡ Some r) }
    ensures named { OnOk result (IsNamed (machine_tree m.now)) }
{
    check(m)
}
