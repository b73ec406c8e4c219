//! The shape of the blocks of an operation on a word: `still`, or `open`, cases of guarded clauses, and `close`.

ghost use Rattle.std.specs.Prelude.{◌≡◌, IfOk};
ghost use Rattle.sync_terms.specs.Stored.{Stored};
ghost use Rattle.sync_thread.specs.Views.{proof_steps_tree, proof_tree, word_tree};
ghost use Rattle.sync_typing.specs.Blocks.{is_block_shaped, is_guarded, moved};
ghost use Rattle.sync_typing_paths.specs.Statements.{stage_decided, stage_of};

use indexmap::IndexSet;
use std::alloc::Global;
use sync_base::NoMemory;
use sync_thread::{ProofKind, ProofStmt, Word};

/// How far a block has come; open, with the guarded clauses that it has decided.
#[derive(Drop)]
enum Stage {
    Fresh,
    Opened(IndexSet<u32>),
    Done,
    Wrong,
}

/// Whether a block has its shape: it says `still`, or it opens the word, decides guarded clauses, each at most once,
/// and closes the word.
pub fn is_block_shaped(alloc: Global, word: &Word, block: &[ProofStmt]) -> Result<bool, NoMemory>
    ensures { IfOk result (λ is. (s : Stored) →
        is ≡ is_block_shaped (word_tree s word.now) (proof_steps_tree s block.now)) }
{
    let mut stage = Stage::Fresh;
    for step in block {
        stage = moved(alloc, word, stage, &step.what)?;
    }
    Ok(matches!(stage, Stage::Done))
}

/// How far a block has come behind a statement.
fn moved(alloc: Global, word: &Word, stage: Stage, what: &ProofKind) -> Result<Stage, NoMemory>
    ensures { IfOk result (λ new. (s : Stored) →
        stage_of new ≡ moved (word_tree s word.now) (stage_of stage) (proof_tree s what.now)) }
{
    match what {
        ProofKind::Still(_) => Ok(match stage {
            Stage::Fresh => Stage::Done,
            Stage::Opened(_) | Stage::Done | Stage::Wrong => Stage::Wrong,
        }),
        ProofKind::Open(_, _, _) => Ok(match stage {
            Stage::Fresh => Stage::Opened(IndexSet::new(alloc)),
            Stage::Opened(_) | Stage::Done | Stage::Wrong => Stage::Wrong,
        }),
        ProofKind::Close(_) => Ok(match stage {
            Stage::Opened(_) => Stage::Done,
            Stage::Fresh | Stage::Done | Stage::Wrong => Stage::Wrong,
        }),
        ProofKind::Case(case) => decided(word, stage, case.clause),
        ProofKind::Let(_, _)
        | ProofKind::Do(_)
        | ProofKind::Split(_, _, _, _, _)
        | ProofKind::Merge(_, _, _)
        | ProofKind::Copy(_, _)
        | ProofKind::Move(_, _)
        | ProofKind::Assert(_, _, _)
        | ProofKind::Seal(_, _, _)
        | ProofKind::Give(_, _, _) => Ok(stage),
    }
}

/// How far a block has come behind the case of a clause.
fn decided(word: &Word, stage: Stage, clause: u32) -> Result<Stage, NoMemory>
    ensures { IfOk result (λ new. (s : Stored) →
        stage_of new ≡ stage_decided (word_tree s word.now) (stage_of stage) clause) }
{
    match stage {
        Stage::Opened(mut cases) => {
            if is_guarded(word, clause) && cases.insert(clause)? {
                Ok(Stage::Opened(cases))
            } else {
                Ok(Stage::Wrong)
            }
        }
        Stage::Fresh | Stage::Done | Stage::Wrong => Ok(Stage::Wrong),
    }
}

/// Whether a number, from 1, is that of a clause with a guard.
fn is_guarded(word: &Word, clause: u32) -> bool
    ensures { (s : Stored) → result ≡ is_guarded (word_tree s word.now) clause }
{
    if clause == 0 {
        return false;
    }
    match word.clauses.as_slice().get(clause as usize - 1) {
        Some(it) => it.guard.is_some(),
        None => false,
    }
}
