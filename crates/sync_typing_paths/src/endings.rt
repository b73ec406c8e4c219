//! The endings of a list: its `meet`, its loop's `break`, and its brace.

ghost use Rattle.std.specs.Prelude.{◌≡◌, ℕ, ◌||◌};
ghost use Rattle.sync_terms.specs.Stored.{Stored};
ghost use Rattle.sync_thread.specs.Programs.{ListTree};
ghost use Rattle.sync_thread.specs.Views.{list_tree, stmt_tree};
ghost use Rattle.sync_typing.specs.Lists.{end_line, has_break, has_meet};
ghost use Rattle.sync_typing_paths.specs.Statements.{atomic_tree};

use sync_thread::{Atomic, List, Stmt, StmtKind, Tail};

/// The line of the brace that closes a list.
pub fn end_line(list: &List) -> u32
    ensures { (s : Stored) → result ≡ end_line (list_tree s list.now) }
{
    list.end_line
}

/// Whether a list has a `meet` of its own.
pub fn has_meet(list: &List) -> bool
    ensures { (s : Stored) → result ≡ has_meet (list_tree s list.now) }
{
    for stmt in list.stmts.as_slice() {
        if is_meet(stmt) {
            return true;
        }
    }
    false
}

/// Whether a statement is a `meet`.
fn is_meet(stmt: &Stmt) -> bool
    ensures { (s : Stored) (rest : ListTree) → has_meet (stmt_tree s stmt.now rest) ≡ (result || has_meet rest) }
{
    match &stmt.what {
        StmtKind::Meet(_, _) => true,
        StmtKind::Set(_, _, _)
        | StmtKind::Read(_, _, _, _, _)
        | StmtKind::Write(_, _, _, _, _)
        | StmtKind::Peek(_, _, _, _)
        | StmtKind::Word(_)
        | StmtKind::Print(_, _)
        | StmtKind::If(_, _, _, _, _)
        | StmtKind::Loop(_, _, _, _, _)
        | StmtKind::Next(_, _)
        | StmtKind::Break(_, _)
        | StmtKind::End(_, _)
        | StmtKind::Proof(_) => false,
    }
}

/// Whether a list has a `break` of the loop whose body it is or stands in.
#[cycle(breaking)]
pub fn has_break(list: &List) -> bool
    ensures { (s : Stored) → result ≡ has_break (list_tree s list.now) }
{
    for stmt in list.stmts.as_slice() {
        if breaks(stmt) {
            return true;
        }
    }
    false
}

/// Whether a statement is a `break`, or has one in its branches.
#[cycle(breaking)]
fn breaks(stmt: &Stmt) -> bool
    ensures { (s : Stored) (rest : ListTree) → has_break (stmt_tree s stmt.now rest) ≡ (result || has_break rest) }
{
    match &stmt.what {
        StmtKind::Break(_, _) => true,
        StmtKind::If(_, _, yes, no, _) => {
            let one = has_break(yes);
            let two = has_break(no);
            one || two
        }
        StmtKind::Word(step) => step_breaks(step),
        StmtKind::Set(_, _, _)
        | StmtKind::Read(_, _, _, _, _)
        | StmtKind::Write(_, _, _, _, _)
        | StmtKind::Peek(_, _, _, _)
        | StmtKind::Print(_, _)
        | StmtKind::Loop(_, _, _, _, _)
        | StmtKind::Next(_, _)
        | StmtKind::Meet(_, _)
        | StmtKind::End(_, _)
        | StmtKind::Proof(_) => false,
    }
}

/// Whether an operation on a word has a `break` in the branches after it.
#[cycle(breaking)]
fn step_breaks(step: &Atomic) -> bool
    ensures { (s : Stored) (line : ℕ) (rest : ListTree) →
        has_break (atomic_tree s step.now line rest) ≡ (result || has_break rest) }
{
    match &step.tail {
        Tail::When(when) => {
            let one = has_break(&when.yes);
            let two = has_break(&when.no);
            one || two
        }
        Tail::Plain | Tail::Proof(_) => false,
    }
}
