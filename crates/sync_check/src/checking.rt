//! Checks one text.
ghost use Rattle.std.specs.Prelude.{◌≡◌, length, None, IfOk, OnOk};
ghost use Rattle.std.specs.List.{AllByRecursion};
ghost use Rattle.sync_base.specs.Outcome.{Gives, Passes};
ghost use Rattle.sync_machine.specs.Machines.{OperationTree};
ghost use Rattle.sync_machine.specs.Naming.{machine_fault, AreTextNames};
ghost use Rattle.sync_machine.specs.Scope.{ChangesNothing};
ghost use Rattle.sync_machine.specs.Named.{IsNamed};
ghost use Rattle.sync_machine.specs.States.{HoldsAlways};
ghost use Rattle.sync_machine.specs.Views.{HasOwnIds, machine_tree};
ghost use Rattle.sync_rules.specs.Faults.{strategy_fault};
ghost use Rattle.sync_rules.specs.Strategies.{AreAllowed};
ghost use Rattle.sync_terms.specs.Proofs.{AreScriptsOf};
ghost use Rattle.sync_induct.specs.Grown.{HasGrown};
ghost use Rattle.sync_check.specs.declared.reading.Text.{Text};
ghost use Rattle.sync_check.specs.Texts.{text_tree};
ghost use Rattle.sync_check.specs.Checking.{fault_of, machine_of, verdict_of, IsAccepted, IsMeant};

use crate::reading::{Text, read_built};
use std::alloc::Global;
use sync_base::Stop;
use sync_induct::{Inductive, inductive};
use sync_machine::Machine;
use sync_rules::check_ops;

/// Whether a machine that keeps the rules of names keeps those of strategies; else the first that it breaks.
pub(crate) fn keeps_strategies(m: &Machine) -> Result<(), Stop>
    requires ids { HasOwnIds m.now }
    requires names { AreTextNames (machine_tree m.now) }
    requires formed { machine_fault (machine_tree m.now) ≡ None }
    ensures exact { Passes result (strategy_fault (machine_tree m.now)) }
    ensures named { OnOk result (IsNamed (machine_tree m.now)) }
    ensures allowed { OnOk result (AllByRecursion (λ (o : OperationTree). AreAllowed m.now.fields o.steps) (machine_tree m.now).ops) }
    ensures still { OnOk result (AllByRecursion ChangesNothing (machine_tree m.now).ops) }
{
    match check_ops(m) {
        Ok(()) => Ok(()),
        Err(refusal) => Err(Stop::Refused(refusal)),
    }
}

/// The machine of a text that has been read, where it and its proofs break no rule.
fn proved_machine(alloc: Global, text: Text) -> Result<Inductive, Stop>
    requires ids { HasOwnIds text.machine }
    requires names { AreTextNames (machine_tree text.machine) }
    requires formed { machine_fault (machine_tree text.machine) ≡ None }
    requires scripts { AreScriptsOf text.machine.terms text.proofs.list }
    ensures exact { Passes result (fault_of (text_tree text)) }
    ensures holds { OnOk result (HoldsAlways (machine_tree text.machine)) }
    ensures strategies { OnOk result (strategy_fault (machine_tree text.machine) ≡ None) }
    ensures same { IfOk result (λ i. machine_tree i ≡ machine_tree text.machine) }
    ensures grown { IfOk result (HasGrown text.machine) }
{
    keeps_strategies(&text.machine)?;
    inductive(alloc, text.machine, text.proofs)
}

/// The number of a text's scripts.
fn number_of_scripts(text: &Text) -> u64
    ensures { result ≡ length (text_tree text.now).proofs }
{
    text.proofs.list.len() as u64
}

/// The number of scripts of a text that keeps all rules, or its first broken rule.
///
/// The rules are taken layer by layer, each over the whole text: lexemes (L), grammar (G), names and sorts (N), a program,
/// which nothing answers for yet (G9), strategies (S), and at last the proofs (I and K).
#[tactic(auto, unfolding(crate::specs::Checking::verdict_of, crate::specs::Checking::IsAccepted))]
pub fn check(alloc: Global, text: &[u8]) -> Result<u64, Stop>
    ensures exact { Gives (λ scripts. scripts) result (verdict_of text.now) }
    ensures sound { IfOk result (λ scripts. IsAccepted text.now scripts) }
{
    let text = read_built(alloc, text)?;
    let scripts = number_of_scripts(&text);
    proved_machine(alloc, text)?;
    Ok(scripts)
}

/// The machine of a text that keeps all rules, or the text's first broken rule, which is the one that `check` tells.
///
/// It is the machine that the bytes spell, it keeps the rules of names and of strategies, and it holds always.
#[tactic(auto, unfolding(crate::specs::Checking::machine_of))]
pub fn accepted_machine(alloc: Global, text: &[u8]) -> Result<Inductive, Stop>
    ensures exact { Gives machine_tree result (machine_of text.now) }
    ensures means { IfOk result (λ i. IsMeant text.now (machine_tree i)) }
    ensures ids { IfOk result HasOwnIds }
    ensures names { IfOk result (λ i. AreTextNames (machine_tree i)) }
    ensures formed { IfOk result (λ i. machine_fault (machine_tree i) ≡ None) }
    ensures strategies { IfOk result (λ i. strategy_fault (machine_tree i) ≡ None) }
    ensures holds { IfOk result (λ i. HoldsAlways (machine_tree i)) }
{
    let text = read_built(alloc, text)?;
    proved_machine(alloc, text)
}
