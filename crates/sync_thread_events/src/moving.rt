//! A thread goes on by one event.

ghost use Rattle.std.specs.Prelude.{◌≡◌, ◌<◌, ◌⊎◌, length, true, false, IfSome, MatchResult, OnOk};
ghost use Rattle.sync_thread_places.specs.Runs.{HasRoom};
ghost use Rattle.sync_thread_events.specs.Moves.{AsksNothing, Halts, IsBegun, IsMoved, IsSettled, IsThere, KeepsTables};
ghost use Rattle.sync_thread_events.specs.Steps.{AreNarrow, with_local};

use crate::asking::{asked, local_of};
use crate::endings::Halted;
use crate::finding::list_at;
use crate::steps::Spans;
use crate::stores::Steps;
use sync_thread::CodeStmt;
use sync_thread_places::{Outcome, Standing, advance, resume};

/// Runs a list from its beginning up to its first shared step.
pub fn begin(list: &[CodeStmt], standing: &mut Standing) -> Result<(), Halted>
    requires { HasRoom list.now 0 standing.old }
    ensures begins { MatchResult result (λ _. IsBegun true list.now standing.old standing.new)
        (Halts (IsBegun false list.now standing.old standing.new)) }
    ensures there { OnOk result (IsThere list.now standing.new) }
    ensures keeps { KeepsTables standing.old standing.new }
{
    let outcome = advance(list, 0, 0, standing);
    if !settle(list, outcome, standing) {
        return Err(Halted::Stuck);
    }
    Ok(())
}

/// The shared step of one who waits, and what follows up to the next one.
pub fn go_on<S: Steps>(
    list: &[CodeStmt],
    spans: &Spans,
    standing: &mut Standing,
    shared: &mut S,
) -> Result<(), Halted>
    requires room { HasRoom list.now 0 standing.old }
    requires words { AreNarrow spans.now.words.items }
    requires cells { AreNarrow spans.now.cells.items }
    requires waits { standing.old.waits ≡ true }
    ensures moves { MatchResult result
        (λ _. IsMoved S.does true list.now spans.now standing.old shared.old standing.new shared.new)
        (Halts (AsksNothing list.now spans.now standing.old
        ⊎ IsMoved S.does false list.now spans.now standing.old shared.old standing.new shared.new)) }
    ensures there { OnOk result (IsThere list.now standing.new) }
    ensures keeps { KeepsTables standing.old standing.new }
{
    let Some(inner) = list_at(list, 0, standing) else {
        return Err(Halted::Stuck);
    };
    let at = standing.at;
    if at >= inner.len() {
        return Err(Halted::Stuck);
    }
    let statement = &inner[at];
    let Some(step) = asked(statement, spans, standing.locals.as_slice()) else {
        return Err(Halted::Stuck);
    };
    let found = shared.perform(step)?;
    keep(local_of(statement), found, standing);
    let outcome = resume(list, 0, at + 1, standing);
    if !settle(list, outcome, standing) {
        return Err(Halted::Stuck);
    }
    Ok(())
}

/// Puts what a step found into a local.
fn keep(local: Option<u32>, found: u64, standing: &mut Standing)
    requires { IfSome local (λ x. x < length standing.old.locals.items) }
    ensures locals { standing.new.locals.items ≡ with_local local found standing.old.locals.items }
    ensures hops { standing.new.hops ≡ standing.old.hops }
    ensures depth { standing.new.depth ≡ standing.old.depth }
    ensures at { standing.new.at ≡ standing.old.at }
{
    if let Some(local) = local {
        standing.locals[local as usize] = found;
    }
}

/// Stands where a list has ended so, or tells that no list ends so.
fn settle(list: &[CodeStmt], outcome: Outcome, standing: &mut Standing) -> bool
    requires { HasRoom list.now 0 standing.old }
    ensures { IsSettled outcome list.now standing.old standing.new result }
{
    match outcome {
        Outcome::Waits => {
            standing.waits = list_at(list, 0, standing).is_some();
            standing.waits
        }
        Outcome::End | Outcome::Over => {
            standing.waits = false;
            true
        }
        Outcome::Next | Outcome::Break | Outcome::Stuck => false,
    }
}
