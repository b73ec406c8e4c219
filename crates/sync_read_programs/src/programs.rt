//! The start, threads and whole programs.
ghost use Rattle.std.specs.Prelude.{◌≡◌, [], map, option_map};
ghost use Rattle.sync_base.specs.Outcome.{Gives};
ghost use Rattle.sync_terms.specs.Stored.{Stored, Extends};
ghost use Rattle.sync_thread.specs.Views.{list_tree, start_tree, thread_tree, program_tree};
ghost use Rattle.sync_read_programs.specs.Programs.{threads_noted, start_in, aims_at, known_again, thread_in, threads_from, last_in, program_from};

use crate::declarations::declarations;
use crate::keeps::keep;
use crate::proof_statements::{start_exchange, start_steps};
use crate::scopes::{Aims, ProgramScope};
use crate::statements::list;
use sqlite_items::Items;
use std::alloc::Global;
use sync_base::Stop;
use sync_parse_exprs::RawName;
use sync_parse_programs::{RawList, RawProgram, RawStart, RawThread};
use sync_read::few_before;
use sync_terms::Terms;
use sync_thread::{List, Program, Start, Thread};

/// The start knows all threads, also those that are declared behind it.
#[tactic(auto, unfolding(crate::specs::Programs::threads_noted))]
fn note_threads(scope: &mut ProgramScope, raw: &[RawThread])
    ensures { scope.new ≡ threads_noted 0 scope.old raw.now }
{
    for (number, thread) in raw.iter().enumerate() {
        scope.note_thread(number, thread.takes.names.len(), thread.name);
    }
}

#[tactic(auto, using(sync_read_names::proofs::Kept::along, sync_read_names::proofs::Kept::stays), unfolding(crate::specs::Programs::start_in))]
fn start(
    alloc: Global,
    terms: &mut Terms,
    scope: &mut ProgramScope,
    raw: &RawStart,
) -> Result<Start, Stop>
    ensures exact { (t : Stored) → Extends terms.new t →
        Gives (λ x. (start_tree t x, scope.new)) result (start_in scope.old raw.now) }
    ensures keeps { Extends terms.old terms.new }
{
    let form = start_exchange(alloc, terms, scope, &raw.form)?;
    let stmts = start_steps(alloc, terms, scope, raw.statements.as_slice())?;
    Ok(Start {
        form,
        stmts,
        line: raw.line,
    })
}

/// A list round which there is no loop and no branch.
fn aims_at(end: Option<usize>) -> Aims
    ensures { result ≡ aims_at end }
{
    Aims {
        next: None,
        breaks: None,
        meet: None,
        end,
    }
}

/// The names that a thread takes are known in its body, also those that its keep at the end has too.
#[tactic(auto, unfolding(crate::specs::Programs::known_again))]
fn know_again(scope: &mut ProgramScope, raw: &[RawName]) -> Result<(), Stop>
    ensures { Gives (λ _. scope.new) result (known_again scope.old raw.now) }
{
    for named in raw {
        scope.prove_name(*named)?;
    }
    Ok(())
}

/// The thread with this number.
#[tactic(auto, using(sync_read_names::proofs::Kept::along, sync_read_names::proofs::Kept::stays), unfolding(crate::specs::Programs::thread_in))]
fn thread(
    alloc: Global,
    terms: &mut Terms,
    scope: &mut ProgramScope,
    number: usize,
    raw: &RawThread,
) -> Result<Thread, Stop>
    ensures exact { (t : Stored) → Extends terms.new t →
        Gives (λ x. (thread_tree t x, scope.new)) result (thread_in number scope.old raw.now) }
    ensures keeps { Extends terms.old terms.new }
{
    few_before(16, number, raw.line)?;
    scope.first_of_name(number, raw.name)?;
    scope.enter_thread(number);
    let takes = keep(alloc, terms, scope, false, &raw.takes)?;
    scope.enter_ends(number);
    let ends = keep(alloc, terms, scope, true, &raw.ends)?;
    scope.enter_thread(number);
    know_again(scope, raw.takes.names.as_slice())?;
    let aims = aims_at(Some(raw.ends.names.len()));
    let body = list(alloc, terms, scope, aims, &raw.body)?;
    Ok(Thread {
        name: raw.name.name,
        takes,
        ends,
        body,
        line: raw.line,
    })
}

#[tactic(auto, using(sync_read_names::proofs::Kept::along, sync_read_names::proofs::Kept::stays), unfolding(crate::specs::Programs::threads_from))]
fn threads(
    alloc: Global,
    terms: &mut Terms,
    scope: &mut ProgramScope,
    raw: &[RawThread],
) -> Result<Items<Thread>, Stop>
    ensures exact { (t : Stored) → Extends terms.new t →
        Gives (λ xs. (map (thread_tree t) xs, scope.new)) result (threads_from [] scope.old raw.now) }
    ensures keeps { Extends terms.old terms.new }
{
    let mut held = Items::new(alloc);
    for x in raw {
        let made = thread(alloc, terms, scope, held.len(), x)?;
        held.push(made)?;
    }
    Ok(held)
}

/// The final block, if there is one.
#[tactic(auto, using(sync_read_names::proofs::Kept::stays), unfolding(crate::specs::Programs::last_in))]
fn last(
    alloc: Global,
    terms: &mut Terms,
    scope: &mut ProgramScope,
    raw: &Option<RawList>,
) -> Result<Option<List>, Stop>
    ensures exact { (t : Stored) → Extends terms.new t →
        Gives (option_map (list_tree t)) result (last_in scope.old raw.now) }
    ensures keeps { Extends terms.old terms.new }
{
    match raw {
        Some(x) => {
            scope.enter_last();
            Ok(Some(list(alloc, terms, scope, aims_at(None), x)?))
        }
        None => Ok(None),
    }
}

/// The program of a raw tree, in the scope behind its machine and proofs. Refuses with the first broken rule N.
#[tactic(auto, using(sync_read_names::proofs::Kept::along, sync_read_names::proofs::Kept::stays), unfolding(crate::specs::Programs::program_from))]
pub fn program(
    alloc: Global,
    terms: &mut Terms,
    scope: &mut ProgramScope,
    raw: &RawProgram,
) -> Result<Program, Stop>
    ensures exact { (t : Stored) → Extends terms.new t →
        Gives (program_tree t) result (program_from scope.old raw.now) }
    ensures keeps { Extends terms.old terms.new }
{
    let decls = declarations(alloc, terms, scope, raw.declarations.as_slice())?;
    note_threads(scope, raw.threads.as_slice());
    scope.enter_start();
    let start = start(alloc, terms, scope, &raw.start)?;
    let threads = threads(alloc, terms, scope, raw.threads.as_slice())?;
    let last = last(alloc, terms, scope, &raw.last)?;
    Ok(Program {
        decls,
        start: Some(start),
        threads,
        last,
    })
}
