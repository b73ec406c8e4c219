//! The machine and the proofs of a text, with what its names stand for behind them.
ghost use Rattle.std.specs.Prelude.{◌≡◌, None, IfOk};
ghost use Rattle.sync_base.specs.Outcome.{Gives};
ghost use Rattle.sync_machine.specs.Views.{machine_tree, HasOwnIds};
ghost use Rattle.sync_machine.specs.Naming.{machine_fault, AreTextNames};
ghost use Rattle.sync_terms.specs.Proofs.{AreScriptsOf};
ghost use Rattle.sync_read.specs.declared.texts.Resolved.{Resolved};
ghost use Rattle.sync_read.specs.Texts.{first_scope, resolved, resolved_tree};

use crate::machines::machine;
use crate::scripts::proofs;
use sqlite_items::Items;
use std::alloc::Global;
use sync_base::{LONGEST_TEXT, NoMemory, Stop};
use sync_machine::Machine;
use sync_parse::{RawMachine, RawProof};
use sync_read_names::{Meaning, Owner, Owners, Scope, Sight};
use sync_terms::Proofs;

/// A machine with the store of all its terms, its proofs, and the scope behind them.
#[derive(Drop)]
pub struct Resolved {
    pub machine: Machine,
    pub proofs: Proofs,
    pub scope: Scope,
}

/// A scope of so many names, of which none stands for anything.
pub fn first_scope(alloc: Global, count: usize) -> Result<Scope, NoMemory>
    ensures { IfOk result (λ s. s ≡ first_scope count) }
{
    let count = count.min(LONGEST_TEXT);
    let unowned = Owners {
        operations: 0,
        invariants: 0,
        word: None,
        local: 0,
        proof: 0,
        ends: false,
    };
    let meanings = vec![in alloc; Meaning::Nothing; count]?;
    let owners = vec![in alloc; unowned; count]?;
    Ok(Scope {
        meanings: Items::from_vec(meanings),
        owners: Items::from_vec(owners),
        owner: Owner::Nobody,
        claim: Owner::Nobody,
        sight: Sight {
            fields: None,
            held: false,
            clause: false,
            atomic: false,
            wrap: false,
        },
    })
}

/// The machine and the proofs of raw trees in a text with so many names. Refuses with the first broken rule N.
///
/// The machine breaks no rule of names, so nothing has to ask once more.
#[tactic(auto, using(crate::proofs::Growing::operations_kept, crate::proofs::Growing::operations_stay, crate::proofs::Growing::invariants_kept, crate::proofs::Growing::invariants_stay, sync_read_names::proofs::Kept::stays))]
pub fn resolve(
    alloc: Global,
    names: usize,
    raw: &RawMachine,
    raw_proofs: &[RawProof],
) -> Result<Resolved, Stop>
    ensures exact { Gives resolved_tree result (resolved names raw.now raw_proofs.now) }
    ensures ids { IfOk result (λ (t : Resolved). HasOwnIds t.machine) }
    ensures names { IfOk result (λ (t : Resolved). AreTextNames (machine_tree t.machine)) }
    ensures formed { IfOk result (λ (t : Resolved). machine_fault (machine_tree t.machine) ≡ None) }
    ensures scripts { IfOk result (λ (t : Resolved). AreScriptsOf t.machine.terms t.proofs.list) }
{
    let mut scope = first_scope(alloc, names)?;
    let Machine {
        name,
        fields,
        ops,
        invariants,
        mut terms,
    } = machine(alloc, &mut scope, raw)?;
    let list = proofs(alloc, &mut terms, &mut scope, raw_proofs)?;
    let machine = Machine {
        name,
        fields,
        ops,
        invariants,
        terms,
    };
    Ok(Resolved {
        machine,
        proofs: Proofs { list },
        scope,
    })
}
