//! Operations, invariants and the whole machine.
ghost use Rattle.std.specs.Prelude.{◌≡◌, [], IfOk, map};
ghost use Rattle.std.specs.List.{AllByRecursion};
ghost use Rattle.sync_base.specs.Outcome.{Gives};
ghost use Rattle.sync_terms.specs.Stored.{IsForm, Extends};
ghost use Rattle.sync_machine.specs.Views.{operation_tree, invariant_tree, machine_tree, HasActIds, HasOwnIds};
ghost use Rattle.sync_machine.specs.declared.machine.Step.{Step};
ghost use Rattle.sync_machine.specs.declared.machine.Operation.{Operation};
ghost use Rattle.sync_machine.specs.declared.machine.Invariant.{Invariant};
ghost use Rattle.sync_read.specs.Resolving.{starts, start_count, starts_once, is_started, begin_operation, operation_in, operations_from, begin_invariant, invariant_in, invariants_from, machine_in};
ghost use Rattle.sync_read.specs.Owned.{HasOperationIds};

use crate::acts::{few_before, fields, params, steps};
use sqlite_items::Items;
use std::alloc::Global;
use sync_base::{Rule, Stop};
use sync_machine::{Field, Invariant, Machine, OpMode, Operation};
use sync_parse::{RawAct, RawInvariant, RawMachine, RawOperation, RawStep};
use sync_read_names::{Meaning, Owner, Scope, form_of, refused};
use sync_terms::Terms;

/// Whether a statement gives the field of this name its first value.
fn starts(name: u32, raw: &RawAct) -> bool
    ensures { result ≡ starts name raw.now }
{
    match raw {
        RawAct::Init(named, _) => named.name == name,
        RawAct::Require(_)
        | RawAct::Assert(_)
        | RawAct::Update(_, _)
        | RawAct::HaveVariable(_)
        | RawAct::Have(_, _)
        | RawAct::Guard(_, _)
        | RawAct::Add(_, _)
        | RawAct::Deposit(_, _)
        | RawAct::Remove(_, _)
        | RawAct::Withdraw(_, _) => false,
    }
}

/// How often statements give the field of this name its first value.
#[tactic(auto, unfolding(crate::specs::Resolving::start_count))]
fn start_count(name: u32, acts: &[RawStep]) -> usize
    ensures { result ≡ start_count name 0 acts.now }
{
    let mut n = 0;
    for a in acts {
        if starts(name, &a.what) {
            n += 1;
        }
    }
    n
}

/// Whether statements give each field its first value exactly once.
#[tactic(auto, unfolding(crate::specs::Resolving::starts_once))]
fn starts_once(fields: &[Field], acts: &[RawStep]) -> bool
    ensures { result ≡ starts_once fields.now acts.now }
{
    for field in fields {
        if start_count(field.name, acts) != 1 {
            return false;
        }
    }
    true
}

/// Declares the operation with this number, whose names are known from here on.
#[tactic(auto, unfolding(crate::specs::Resolving::begin_operation))]
fn begin_operation(
    number: usize,
    fields: &[Field],
    scope: &mut Scope,
    raw: &RawOperation,
) -> Result<(), Stop>
    ensures { Gives (λ _. scope.new) result (begin_operation number fields.now scope.old raw.now) }
{
    match raw.mode {
        OpMode::Init => {
            if !starts_once(fields, raw.steps.as_slice()) {
                return Err(refused(Rule::N4, raw.line));
            }
        }
        OpMode::Transition | OpMode::Property => {}
    }
    few_before(64, number, raw.line)?;
    scope.declare(raw.name, Meaning::Operation(number as u32))?;
    scope.owner = Owner::Operation(number as u32);
    Ok(())
}

/// The operation with this number.
#[tactic(auto, using(sync_read_names::proofs::Kept::along, sync_read_names::proofs::Kept::stays), unfolding(crate::specs::Resolving::operation_in))]
fn operation(
    alloc: Global,
    number: usize,
    fields: &[Field],
    terms: &mut Terms,
    scope: &mut Scope,
    raw: &RawOperation,
) -> Result<Operation, Stop>
    ensures exact { Gives (λ o. (operation_tree terms.new o, scope.new)) result (operation_in number fields.now scope.old raw.now) }
    ensures ids { IfOk result (HasOperationIds terms.new) }
    ensures keeps { Extends terms.old terms.new }
{
    begin_operation(number, fields, scope, raw)?;
    let params = params(alloc, true, scope, raw.params.as_slice())?;
    let steps = steps(alloc, terms, scope, raw.steps.as_slice())?;
    Ok(Operation {
        name: raw.name.name,
        mode: raw.mode,
        params,
        steps,
        line: raw.line,
    })
}

/// The operations of a machine.
#[tactic(auto, using(sync_read_names::proofs::Kept::along, sync_read_names::proofs::Kept::stays, crate::proofs::Growing::operations_kept, crate::proofs::Growing::operations_stay), unfolding(crate::specs::Resolving::operations_from))]
fn operations(
    alloc: Global,
    fields: &[Field],
    terms: &mut Terms,
    scope: &mut Scope,
    raw: &[RawOperation],
) -> Result<Items<Operation>, Stop>
    ensures exact { Gives (λ os. (map (operation_tree terms.new) os, scope.new)) result (operations_from fields.now [] scope.old raw.now) }
    ensures ids { IfOk result (AllByRecursion (HasOperationIds terms.new)) }
    ensures keeps { Extends terms.old terms.new }
{
    let mut held = Items::new(alloc);
    for o in raw {
        let made = operation(alloc, held.len(), fields, terms, scope, o)?;
        held.push(made)?;
    }
    Ok(held)
}

/// Declares the invariant with this number, whose parameters are known from here on.
#[tactic(auto, unfolding(crate::specs::Resolving::begin_invariant))]
fn begin_invariant(number: usize, scope: &mut Scope, raw: &RawInvariant) -> Result<(), Stop>
    ensures { Gives (λ _. scope.new) result (begin_invariant number scope.old raw.now) }
{
    few_before(64, number, raw.line)?;
    scope.declare(raw.name, Meaning::Invariant(number as u32))?;
    scope.owner = Owner::Invariant(number as u32);
    Ok(())
}

/// The invariant with this number.
#[tactic(auto, using(sync_read_names::proofs::Kept::along, sync_read_names::proofs::Kept::stays), unfolding(crate::specs::Resolving::invariant_in))]
fn invariant(
    alloc: Global,
    number: usize,
    terms: &mut Terms,
    scope: &mut Scope,
    raw: &RawInvariant,
) -> Result<Invariant, Stop>
    ensures exact { Gives (λ i. (invariant_tree terms.new i, scope.new)) result (invariant_in number scope.old raw.now) }
    ensures id { IfOk result (λ i. IsForm terms.new i.form) }
    ensures keeps { Extends terms.old terms.new }
{
    begin_invariant(number, scope, raw)?;
    let params = params(alloc, false, scope, raw.params.as_slice())?;
    let form = form_of(terms, scope, &raw.form)?;
    Ok(Invariant {
        name: raw.name.name,
        params,
        form,
        line: raw.line,
    })
}

/// The invariants of a machine.
#[tactic(auto, using(sync_read_names::proofs::Kept::along, sync_read_names::proofs::Kept::stays, crate::proofs::Growing::invariants_kept, crate::proofs::Growing::invariants_stay), unfolding(crate::specs::Resolving::invariants_from))]
fn invariants(
    alloc: Global,
    terms: &mut Terms,
    scope: &mut Scope,
    raw: &[RawInvariant],
) -> Result<Items<Invariant>, Stop>
    ensures exact { Gives (λ is. (map (invariant_tree terms.new) is, scope.new)) result (invariants_from [] scope.old raw.now) }
    ensures ids { IfOk result (AllByRecursion (λ (i : Invariant). IsForm terms.new i.form)) }
    ensures keeps { Extends terms.old terms.new }
{
    let mut held = Items::new(alloc);
    for i in raw {
        let made = invariant(alloc, held.len(), terms, scope, i)?;
        held.push(made)?;
    }
    Ok(held)
}

/// The machine of a raw tree; the scope behind it knows all its names.
#[tactic(auto, using(crate::proofs::Growing::operations_kept, crate::proofs::Growing::operations_stay), unfolding(crate::specs::Resolving::machine_in))]
pub fn machine(alloc: Global, scope: &mut Scope, raw: &RawMachine) -> Result<Machine, Stop>
    ensures exact { Gives (λ m. (machine_tree m, scope.new)) result (machine_in scope.old raw.now) }
    ensures ids { IfOk result HasOwnIds }
{
    let mut terms = Terms::new(alloc);
    let fields = fields(alloc, scope, raw.fields.as_slice())?;
    let raw_ops = raw.operations.as_slice();
    let ops = operations(alloc, fields.as_slice(), &mut terms, scope, raw_ops)?;
    let invariants = invariants(alloc, &mut terms, scope, raw.invariants.as_slice())?;
    Ok(Machine {
        name: raw.name.name,
        fields,
        ops,
        invariants,
        terms,
    })
}
