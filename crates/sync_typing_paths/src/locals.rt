//! The locals that a list assigns, in the order in which it first does.

ghost use Rattle.std.specs.Prelude.{◌≡◌, ℕ, [], IfOk, OnOk};
ghost use Rattle.sync_terms.specs.Stored.{Stored};
ghost use Rattle.sync_thread.specs.Programs.{ListTree};
ghost use Rattle.sync_thread.specs.Views.{list_tree, stmt_tree};
ghost use Rattle.sync_typing.specs.Lists.{assigned_locals, with_local, with_local_if};
ghost use Rattle.sync_typing_paths.specs.Statements.{atomic_tree};

use indexmap::IndexSet;
use std::alloc::Global;
use sync_base::NoMemory;
use sync_thread::{Atomic, List, Stmt, StmtKind, Tail};

/// The locals that a list assigns, each once.
pub fn assigned_locals(alloc: Global, list: &List) -> Result<IndexSet<u32>, NoMemory>
    ensures { IfOk result (λ locals. (s : Stored) → locals.keys ≡ assigned_locals (list_tree s list.now) []) }
{
    let mut locals = IndexSet::new(alloc);
    note_all(list, &mut locals)?;
    Ok(locals)
}

/// Notes the locals that a list assigns, behind those that are noted.
#[cycle(noting)]
fn note_all(list: &List, locals: &mut IndexSet<u32>) -> Result<(), NoMemory>
    ensures { OnOk result ((s : Stored) → locals.new.keys ≡ assigned_locals (list_tree s list.now) locals.old.keys) }
{
    for stmt in list.stmts.as_slice() {
        note(stmt, locals)?;
    }
    Ok(())
}

/// Notes the locals that a statement assigns.
#[cycle(noting)]
fn note(stmt: &Stmt, locals: &mut IndexSet<u32>) -> Result<(), NoMemory>
    ensures { OnOk result ((s : Stored) (rest : ListTree) →
        assigned_locals (stmt_tree s stmt.now rest) locals.old.keys ≡ assigned_locals rest locals.new.keys) }
{
    match &stmt.what {
        StmtKind::Set(local, _, _) => note_local(Some(*local), locals),
        StmtKind::Read(local, _, _, _, _) => note_local(Some(*local), locals),
        StmtKind::Peek(local, _, _, _) => note_local(Some(*local), locals),
        StmtKind::Word(step) => note_step(step, locals),
        StmtKind::If(_, _, yes, no, _) => {
            note_all(yes, locals)?;
            note_all(no, locals)
        }
        StmtKind::Loop(_, _, _, body, _) => note_all(body, locals),
        StmtKind::Write(_, _, _, _, _)
        | StmtKind::Print(_, _)
        | StmtKind::Next(_, _)
        | StmtKind::Break(_, _)
        | StmtKind::Meet(_, _)
        | StmtKind::End(_, _)
        | StmtKind::Proof(_) => Ok(()),
    }
}

/// Notes the locals that an operation on a word and the branches after it assign.
#[cycle(noting)]
fn note_step(step: &Atomic, locals: &mut IndexSet<u32>) -> Result<(), NoMemory>
    ensures { OnOk result ((s : Stored) (line : ℕ) (rest : ListTree) →
        assigned_locals (atomic_tree s step.now line rest) locals.old.keys ≡ assigned_locals rest locals.new.keys) }
{
    note_local(step.local, locals)?;
    match &step.tail {
        Tail::When(when) => {
            note_all(&when.yes, locals)?;
            note_all(&when.no, locals)
        }
        Tail::Plain | Tail::Proof(_) => Ok(()),
    }
}

/// Notes a local, if there is one.
fn note_local(local: Option<u32>, locals: &mut IndexSet<u32>) -> Result<(), NoMemory>
    ensures { OnOk result (locals.new.keys ≡ with_local_if local locals.old.keys) }
{
    if let Some(local) = local {
        locals.insert(local)?;
    }
    Ok(())
}
