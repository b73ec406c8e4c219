//! The tokenized state machine of a text.
ghost use Rattle.std.specs.Prelude.{IfOk};
ghost use Rattle.sync_base.specs.Outcome.{Gives};
ghost use Rattle.sync_machine.specs.Views.{HasOwnIds, machine_tree};
ghost use Rattle.sync_check.specs.Checking.{machine_of, IsMeant};
ghost use Rattle.sync_check_sharding.specs.Sharded.{IsSharded};

use std::alloc::Global;
use sync_base::Stop;
use sync_check::accepted_machine;
use sync_induct::Inductive;

/// The machine of a text that keeps all rules, or the text's first broken rule, which is the one that `check` tells.
///
/// It is the machine that the bytes mean. Whatever others hold, an exchange by one holder is a declared step or start of
/// the whole; and any list of exchanges, splits, mergers and copies by any holders is a list of declared steps.
pub fn tokenized_machine(alloc: Global, text: &[u8]) -> Result<Inductive, Stop>
    ensures exact { Gives machine_tree result (machine_of text.now) }
    ensures means { IfOk result (λ i. IsMeant text.now (machine_tree i)) }
    ensures ids { IfOk result HasOwnIds }
    ensures sharded { IfOk result (λ i. IsSharded (machine_tree i)) }
{
    accepted_machine(alloc, text)
}
