//! The jumps that a list may come to without a shared step.

ghost use Rattle.std.specs.Prelude.{◌≡◌, false, if◌then◌else◌};
ghost use Rattle.sync_terms.specs.Stored.{Stored};
ghost use Rattle.sync_thread.specs.Programs.{ListTree};
ghost use Rattle.sync_thread.specs.Resting.{either, no_way, silent};
ghost use Rattle.sync_thread.specs.Views.{list_tree, stmt_tree};
ghost use Rattle.sync_typing_paths.specs.Statements.{silent_of};

use sync_thread::{List, Stmt, StmtKind};

/// Which jumps a list may come to without a shared step.
#[derive(Clone, Copy, PartialEq, Eq, Debug)]
pub struct Silence {
    pub next: bool,
    pub breaks: bool,
    pub meet: bool,
}

/// The jumps that a list may come to without a shared step.
#[cycle(silence)]
pub fn silent_jumps(list: &List) -> Silence
    ensures { (s : Stored) → silent_of result ≡ silent (list_tree s list.now) }
{
    let mut found = Silence {
        next: false,
        breaks: false,
        meet: false,
    };
    for stmt in list.stmts.as_slice() {
        if !passes(stmt, &mut found) {
            return found;
        }
    }
    found
}

/// Notes the jumps that a statement may come to, and answers whether what stands behind it is come to.
#[cycle(silence)]
fn passes(stmt: &Stmt, found: &mut Silence) -> bool
    ensures { (s : Stored) (rest : ListTree) → either (silent_of found.old) (silent (stmt_tree s stmt.now rest)) ≡
        either (silent_of found.new) (if result then silent rest else no_way) }
{
    match &stmt.what {
        StmtKind::Set(_, _, _) | StmtKind::Proof(_) => true,
        StmtKind::If(_, _, yes, no, _) => {
            let one = silent_jumps(yes);
            let two = silent_jumps(no);
            let inner = both(one, two);
            *found = both(*found, outward(inner));
            inner.meet
        }
        StmtKind::Loop(_, _, _, body, _) => silent_jumps(body).breaks,
        StmtKind::Next(_, _) => {
            found.next = true;
            false
        }
        StmtKind::Break(_, _) => {
            found.breaks = true;
            false
        }
        StmtKind::Meet(_, _) => {
            found.meet = true;
            false
        }
        StmtKind::Read(_, _, _, _, _)
        | StmtKind::Write(_, _, _, _, _)
        | StmtKind::Peek(_, _, _, _)
        | StmtKind::Word(_)
        | StmtKind::Print(_, _)
        | StmtKind::End(_, _) => false,
    }
}

/// The jumps of one or of the other.
fn both(one: Silence, two: Silence) -> Silence
    ensures { silent_of result ≡ either (silent_of one) (silent_of two) }
{
    Silence {
        next: one.next || two.next,
        breaks: one.breaks || two.breaks,
        meet: one.meet || two.meet,
    }
}

/// The jumps of branches that leave their form, and so no `meet`.
fn outward(inner: Silence) -> Silence
    ensures { silent_of result ≡ record { next = inner.next; break = inner.breaks; meet = false } }
{
    Silence {
        next: inner.next,
        breaks: inner.breaks,
        meet: false,
    }
}
