//! Leaving out of a program what only its proof needs.
ghost use Rattle.std.specs.Prelude.{◌≡◌, ℕ, ◌++◌, ◌∷◌, [], map, option_map, IfOk, OnOk};
ghost use Rattle.sync_terms.specs.Stored.{Stored};
ghost use Rattle.sync_thread.specs.Arrays.{code_decl};
ghost use Rattle.sync_thread.specs.Code.{code_list, code_of, code_thread};
ghost use Rattle.sync_thread.specs.Programs.{ListTree};
ghost use Rattle.sync_thread.specs.Views.{code_before, code_list_tree, code_stmt_tree, code_thread_tree, code_tree, decl_tree, list_tree, program_tree, stmt_tree, thread_tree};
ghost use Rattle.sync_erase.specs.Erasing.{Appends, atomic_tree};

use sqlite_items::Items;
use std::alloc::{AllocError, Global};
use sync_base::NoMemory;
use sync_thread::{
    Atomic, Code, CodeDecl, CodeStmt, CodeThread, Decl, List, Program, Stmt, StmtKind, Tail, Thread,
};

/// The code of a program.
pub fn erase(alloc: Global, p: &Program) -> Result<Code, NoMemory>
    ensures { IfOk result (λ code. (s : Stored) → code_tree code ≡ code_of (program_tree s p.now)) }
{
    let decls = declarations(alloc, p.decls.as_slice())?;
    let threads = threads(alloc, p.threads.as_slice())?;
    let last = last(alloc, &p.last)?;
    Ok(Code {
        decls,
        threads,
        last,
    })
}

/// A word or cell: its name, length and first value.
fn declaration(decl: &Decl) -> CodeDecl
    ensures { (s : Stored) → result ≡ code_decl (decl_tree s decl.now) }
{
    match decl {
        Decl::Word(word) => CodeDecl::Word(word.name, word.len, word.init),
        Decl::Cell(cell) => CodeDecl::Cell(cell.name, cell.len, cell.init),
    }
}

/// The words and cells.
fn declarations(alloc: Global, decls: &[Decl]) -> Result<Items<CodeDecl>, AllocError>
    ensures { IfOk result (λ code. (s : Stored) → code ≡ map (λ d. code_decl (decl_tree s d)) decls.now) }
{
    let mut code = Items::new(alloc);
    for decl in decls {
        code.push(declaration(decl))?;
    }
    Ok(code)
}

/// The threads.
fn threads(alloc: Global, threads: &[Thread]) -> Result<Items<CodeThread>, AllocError>
    ensures { IfOk result (λ code. (s : Stored) → map code_thread_tree code ≡
        map (λ t. code_thread (thread_tree s t)) threads.now) }
{
    let mut code = Items::new(alloc);
    for thread in threads {
        let body = statements(alloc, &thread.body)?;
        code.push(CodeThread {
            name: thread.name,
            body,
        })?;
    }
    Ok(code)
}

/// The final block, if there is one.
fn last(alloc: Global, last: &Option<List>) -> Result<Option<Items<CodeStmt>>, AllocError>
    ensures { IfOk result (λ code. (s : Stored) → option_map code_list_tree code ≡
        option_map code_list (option_map (list_tree s) last.now)) }
{
    match last {
        Some(list) => Ok(Some(statements(alloc, list)?)),
        None => Ok(None),
    }
}

/// The statements of a list.
#[cycle(statements)]
fn statements(alloc: Global, list: &List) -> Result<Items<CodeStmt>, AllocError>
    ensures { IfOk result (λ code. (s : Stored) → code_list_tree code ≡ code_list (list_tree s list.now)) }
{
    let mut code = Items::new(alloc);
    for stmt in list.stmts.as_slice() {
        statement(alloc, stmt, &mut code)?;
    }
    Ok(code)
}

/// A statement's code: one statement, none of a proof statement or a `meet`, and two of a step with branches.
#[cycle(statements)]
fn statement(alloc: Global, stmt: &Stmt, code: &mut Items<CodeStmt>) -> Result<(), AllocError>
    ensures { OnOk result (Appends code.old code.new (λ s rest. stmt_tree s stmt.now rest)) }
{
    match &stmt.what {
        StmtKind::Set(local, calc, _) => code.push(CodeStmt::Set(*local, *calc)),
        StmtKind::Read(local, cell, index, _, _) => {
            code.push(CodeStmt::Read(*local, *cell, index.opd))
        }
        StmtKind::Write(cell, index, operand, _, _) => {
            code.push(CodeStmt::Write(*cell, index.opd, *operand))
        }
        StmtKind::Peek(local, cell, index, _) => {
            code.push(CodeStmt::Peek(*local, *cell, index.opd))
        }
        StmtKind::Word(step) => atomic(alloc, step, code),
        StmtKind::Print(label, operand) => code.push(CodeStmt::Print(*label, *operand)),
        StmtKind::If(cond, _, yes, no, _) => {
            let yes = statements(alloc, yes)?;
            let no = statements(alloc, no)?;
            code.push(CodeStmt::If(*cond, yes, no))
        }
        StmtKind::Loop(_, _, _, body, _) => {
            let body = statements(alloc, body)?;
            code.push(CodeStmt::Loop(body))
        }
        StmtKind::Next(_, _) => code.push(CodeStmt::Next),
        StmtKind::Break(_, _) => code.push(CodeStmt::Break),
        StmtKind::End(_, _) => code.push(CodeStmt::End),
        StmtKind::Meet(_, _) | StmtKind::Proof(_) => Ok(()),
    }
}

/// An operation on a word, and the branches after it.
#[cycle(statements)]
fn atomic(alloc: Global, step: &Atomic, code: &mut Items<CodeStmt>) -> Result<(), AllocError>
    ensures { OnOk result ((line : ℕ) → Appends code.old code.new (λ s rest. atomic_tree s step.now line rest)) }
{
    code.push(CodeStmt::Word(step.local, step.op, step.word, step.index.opd))?;
    match &step.tail {
        Tail::When(when) => {
            let yes = statements(alloc, &when.yes)?;
            let no = statements(alloc, &when.no)?;
            code.push(CodeStmt::If(when.cond, yes, no))
        }
        Tail::Plain | Tail::Proof(_) => Ok(()),
    }
}
