//! The check of a machine by the proofs of its obligations.
ghost use Rattle.std.specs.Prelude.{◌≡◌, OnOk, IfOk};
ghost use Rattle.std.specs.List.{AllByRecursion};
ghost use Rattle.sync_base.specs.Outcome.{Passes};
ghost use Rattle.sync_machine.specs.Machines.{OperationTree};
ghost use Rattle.sync_machine.specs.Scope.{ChangesNothing};
ghost use Rattle.sync_machine.specs.Named.{IsNamed};
ghost use Rattle.sync_machine.specs.States.{HoldsAlways};
ghost use Rattle.sync_machine.specs.Views.{HasOwnIds, machine_tree};
ghost use Rattle.sync_rules.specs.Strategies.{AreAllowed};
ghost use Rattle.sync_induct.specs.Checks.{proof_fault};
ghost use Rattle.sync_terms.specs.Proofs.{AreScriptsOf, proofs_in};
ghost use Rattle.sync_induct.specs.Grown.{HasGrown};

use crate::holding::Inductive;
use crate::index::{Book, places, wanted};
use crate::operations::check_operations;
use std::alloc::Global;
use sync_base::Stop;
use sync_machine::Machine;
use sync_rules::obligations;
use sync_terms::Proofs;

/// Checks that proofs prove all that has to be proved of a machine, which then holds always.
///
/// Asks that the ids of the machine and of the scripts are of its own store, that its names are known, its statements allowed by their
/// strategies, and that its properties change nothing. Refuses with the first broken rule of this order:
///
/// - I2: a proof of no obligation, or a second proof of one; the proof's line. In the order of the proofs.
/// - Operation by operation, first each statement in order, then each invariant that has to be kept. Of an obligation: I1,
///   it has no proof; K8, its sequent has more than `MOST_NODES` nodes; both at its line; else the first rule K that its script
///   breaks. Of a statement, behind its obligation: K8 at its line, if what is known behind it has more than `MOST_NODES`
///   nodes, or else the value that it leaves.
///
/// The machine is dropped on a refusal. Where it is handed on, its store may have grown; all else is as it was.
pub fn inductive(alloc: Global, m: Machine, p: Proofs) -> Result<Inductive, Stop>
    requires ids { HasOwnIds m }
    requires named { IsNamed (machine_tree m) }
    requires allowed { AllByRecursion (λ (o : OperationTree). AreAllowed m.fields o.steps) (machine_tree m).ops }
    requires scripts { AreScriptsOf m.terms p.list }
    requires still { AllByRecursion ChangesNothing (machine_tree m).ops }
    ensures exact { Passes result (proof_fault (machine_tree m) (proofs_in m.terms p.list)) }
    ensures holds { OnOk result (HoldsAlways (machine_tree m)) }
    ensures same { IfOk result (λ i. machine_tree i ≡ machine_tree m) }
    ensures grown { IfOk result (HasGrown m) }
{
    let listed = obligations(alloc, &m)?;
    let titles = wanted(alloc, listed.as_slice())?;
    let placed = places(alloc, &titles, p.list.as_slice())?;
    let book = Book {
        proofs: p.list.as_slice(),
        places: &placed,
        wanted: &titles,
    };
    let Machine {
        name,
        fields,
        ops,
        invariants,
        mut terms,
    } = m;
    check_operations(
        alloc,
        &mut terms,
        fields.as_slice(),
        invariants.as_slice(),
        ops.as_slice(),
        book,
    )?;
    Ok(Inductive::new(Machine {
        name,
        fields,
        ops,
        invariants,
        terms,
    }))
}
