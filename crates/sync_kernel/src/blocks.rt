//! Blocks of steps, each in its branch.
ghost use Rattle.std.specs.Prelude.{◌≡◌, OnOk};
ghost use Rattle.sync_base.specs.Outcome.{Passes};
ghost use Rattle.sync_terms.specs.Stored.{Extends};
ghost use Rattle.sync_terms.specs.Plans.{Plan, IsScriptOf};
ghost use Rattle.sync_typing_reading.specs.Sayings.{stands_in, AreSaidOf};
ghost use Rattle.sync_kernel_facts.specs.Literals.{literal_form, IsLiteral};
ghost use Rattle.sync_kernel_facts.specs.Branches.{facts_in, AreSaid, Begins};
ghost use Rattle.sync_kernel.specs.Scripts.{IsStepOf, with_fact, after, block_fault};
ghost use Rattle.sync_kernel.specs.Replaced.{plan_replaced};
ghost use Rattle.sync_kernel.specs.Readings.{plan_read, then_read};
ghost use Rattle.sync_kernel.specs.Holding.{StepPasses};
ghost use Rattle.sync_kernel.specs.Notes.{AreNotes};

use crate::notes::Notes;
use crate::sames::same;
use crate::steps::{Left, MapFact, cut, inst, learn, parts, said, split};
use crate::stops::refusal;
use crate::sums::sum;
use MapFact::{Cong, Read, Size, Total};
use std::alloc::Global;
use sync_base::{Rule, Stop};
use sync_kernel_facts::{Branch, Literal};
use sync_terms::{Block, ScriptStep, StepKind, Terms};
use sync_typing_ledgers::Ledger;

/// Checks that a block closes its branch. The branch may have gained facts.
#[cycle(blocks)]
pub(crate) fn check_block(
    alloc: Global,
    terms: &mut Terms,
    names: &Ledger,
    branch: &mut Branch,
    notes: &mut Notes,
    block: &Block,
) -> Result<(), Stop>
    requires branch { AreSaid terms.old branch.old }
    requires notes { AreNotes terms.old (facts_in terms.old branch.old) notes.old }
    requires script { IsScriptOf terms.old block.now }
    requires said { AreSaidOf terms.old names.now }
    ensures exact { Passes result
        (block_fault (facts_in terms.old branch.old) (plan_read terms.old names.now block.now)) }
    ensures begins { OnOk result (Begins branch.old branch.new) }
    ensures notes { OnOk result (AreNotes terms.new (facts_in terms.new branch.new) notes.new) }
    ensures keeps { Extends terms.old terms.new }
{
    let mut left = Left::Open;
    for step in block.steps.as_slice() {
        if left == Left::Closed {
            return Err(refusal(step.line, Rule::K9));
        }
        left = check_step(alloc, terms, names, branch, notes, step)?;
    }
    if left == Left::Open {
        return Err(refusal(block.end_line, Rule::K9));
    }
    Ok(())
}

/// Checks that a block closes the branch with one fact more. Behind it the branch is as before.
#[cycle(blocks)]
fn check_case(
    alloc: Global,
    terms: &mut Terms,
    names: &Ledger,
    branch: &mut Branch,
    notes: &mut Notes,
    name: u32,
    says: Literal,
    block: &Block,
) -> Result<(), Stop>
    requires branch { AreSaid terms.old branch.old }
    requires notes { AreNotes terms.old (facts_in terms.old branch.old) notes.old }
    requires says { IsLiteral terms.old says }
    requires script { IsScriptOf terms.old block.now }
    requires said { AreSaidOf terms.old names.now }
    ensures exact { Passes result
        (block_fault (with_fact (facts_in terms.old branch.old) name (literal_form terms.old says))
        (plan_read terms.old names.now block.now)) }
    ensures branch { OnOk result (branch.new ≡ branch.old) }
    ensures notes { OnOk result (AreNotes terms.new (facts_in terms.new branch.new) notes.new) }
    ensures keeps { Extends terms.old terms.new }
{
    let len = branch.len();
    branch.push(said(alloc, terms, name, says))?;
    check_block(alloc, terms, names, branch, notes, block)?;
    branch.cut_back(len);
    notes.cut_back(len);
    Ok(())
}

/// Checks one step, with its blocks.
#[cycle(blocks)]
fn check_step(
    alloc: Global,
    terms: &mut Terms,
    names: &Ledger,
    branch: &mut Branch,
    notes: &mut Notes,
    step: &ScriptStep,
) -> Result<Left, Stop>
    requires branch { AreSaid terms.old branch.old }
    requires notes { AreNotes terms.old (facts_in terms.old branch.old) notes.old }
    requires step { IsStepOf terms.old step.now }
    requires said { AreSaidOf terms.old names.now }
    ensures exact { (rest : Plan) → StepPasses result
        (block_fault (facts_in terms.old branch.old) (then_read terms.old names.now step.now rest))
        (block_fault (facts_in terms.new branch.new) (plan_replaced (stands_in terms.old names.now) rest))
        (after (plan_replaced (stands_in terms.old names.now) rest)) }
    ensures said { OnOk result (AreSaid terms.new branch.new) }
    ensures begins { OnOk result (Begins branch.old branch.new) }
    ensures notes { OnOk result (AreNotes terms.new (facts_in terms.new branch.new) notes.new) }
    ensures keeps { Extends terms.old terms.new }
{
    let line = step.line;
    match &step.what {
        StepKind::Same => {
            same(alloc, terms, branch, &mut notes.seen, line)?;
            return Ok(Left::Closed);
        }
        StepKind::Sum(list) => {
            let list = list.as_slice();
            sum(alloc, terms, branch, &mut notes.lines, line, list)?;
            return Ok(Left::Closed);
        }
        StepKind::Inst(hyp, list, name) => {
            inst(
                alloc,
                terms,
                names,
                branch,
                *hyp,
                list.as_slice(),
                *name,
                line,
            )?;
        }
        StepKind::Parts(hyp, left, right) => {
            parts(alloc, terms, branch, *hyp, *left, *right, line)?;
        }
        StepKind::Split(hyp, name, first, second) => {
            let cases = split(terms, branch, *hyp, line)?;
            check_case(alloc, terms, names, branch, notes, *name, cases.left, first)?;
            check_case(
                alloc,
                terms,
                names,
                branch,
                notes,
                *name,
                cases.right,
                second,
            )?;
            return Ok(Left::Closed);
        }
        StepKind::Cut(form, name, block) => {
            let cases = cut(terms, names, branch, *form, line)?;
            check_case(alloc, terms, names, branch, notes, *name, cases.left, block)?;
            branch.push(said(alloc, terms, *name, cases.right))?;
        }
        StepKind::Read(map, key, name) => {
            learn(alloc, terms, names, branch, Read(*map, *key), *name, line)?;
        }
        StepKind::Size(map, key, name) => {
            learn(alloc, terms, names, branch, Size(*map, *key), *name, line)?;
        }
        StepKind::Total(map, key, name) => {
            learn(alloc, terms, names, branch, Total(*map, *key), *name, line)?;
        }
        StepKind::Cong(map, left, right, name) => {
            learn(
                alloc,
                terms,
                names,
                branch,
                Cong(*map, *left, *right),
                *name,
                line,
            )?;
        }
    }
    Ok(Left::Open)
}
