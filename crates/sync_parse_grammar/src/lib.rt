//! What a text spells, by the productions of its grammar, apart from how it is read.
#![tactic(auto)]

ghost use Rattle.std.specs.Prelude.{◌≡◌, length, IfOk, IfErr};
ghost use Rattle.sync_base.specs.Outcome.{Gives};
ghost use Rattle.sync_parse.specs.declared.trees.RawText.{RawText};
ghost use Rattle.sync_parse.specs.Machines.{parsed};
ghost use Rattle.sync_parse_grammar.specs.Texts.{Spells, HasScripts, MayRefuse, IsOfVersionOne, MayRefuseVersionOne};
ghost use Rattle.sync_parse_grammar.specs.Shallow.{IsShallow};

use std::alloc::Global;
use sync_base::Stop;
use sync_parse::{RawText, parse};

/// The raw tree that a text spells by the productions of the grammar, of which it spells no other.
///
/// Refuses as `parse` does. A text that is spelled by some tree is refused with no rule but G3 and G4. A text of version 1 that is
/// spelled by a tree is read exactly where this tree is shallow, and is else refused with G3.
#[tactic(auto, using(crate::proofs::Laws::answer_spells, crate::proofs::Laws::answer_only, crate::proofs::Laws::answer_scripts, crate::proofs::MachinesComplete::answer_refuses, crate::proofs::MachinesComplete::answer_deep, crate::proofs::MachinesComplete::answer_shallow))]
pub fn read_tree(alloc: Global, text: &[u8]) -> Result<RawText, Stop>
    ensures exact { Gives (λ t. t) result (parsed text.now) }
    ensures spells { IfOk result (λ (t : RawText). Spells text.now t) }
    ensures only { IfOk result (λ (t : RawText). (other : RawText) → Spells text.now other → other ≡ t) }
    ensures refuses { IfErr result (λ s. (tree : RawText) → Spells text.now tree → MayRefuse s) }
    ensures deep { IfErr result (λ s. IsOfVersionOne text.now → (tree : RawText) → Spells text.now tree
        → MayRefuseVersionOne tree s) }
    ensures shallow { IfOk result (λ (t : RawText). IsShallow t) }
    ensures scripts { IfOk result (λ (t : RawText). HasScripts text.now (length t.proofs)) }
{
    parse(alloc, text)
}
