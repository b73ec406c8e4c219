//! Proof statements.
ghost use Rattle.std.specs.Prelude.{◌≡◌, [], map, IfOk};
ghost use Rattle.sync_base.specs.Outcome.{Gives};
ghost use Rattle.sync_terms.specs.Stored.{Stored, tree, Extends};
ghost use Rattle.sync_read.specs.Scripts.{numbers_from};
ghost use Rattle.sync_thread.specs.Views.{do_tree, closing_tree, case_tree, proof_tree, proof_step_tree, proof_steps_tree};
ghost use Rattle.sync_read_programs.specs.Operands.{token_name};
ghost use Rattle.sync_read_programs.specs.ProofStatements.{token_in, tokens_from, token_or_no, tokens_or_no_from, has_counts, call_with, called, exchange_with, exchange_in, start_exchange, closing_in, closes, let_in, split_in, move_in, assert_in, plain_in, opens, open_in, case_in, close_in, proof_in, proof_step, proof_steps_from, proof_block, seal_in, give_in, start_kind, start_step, start_steps_from};

use crate::keeps::proof_names;
use crate::operands::{label_of, place_of, scripts, token_name, token_name_if};
use crate::scopes::{ProgramScope, Purpose, WordCounts, as_many, may_call};
use sqlite_items::{Items, at};
use std::alloc::{AllocError, Global};
use sync_base::{Rule, Stop};
use sync_parse::RawScript;
use sync_parse_exprs::RawName;
use sync_parse_programs::{
    RawAssert, RawCase, RawClosing, RawDoForm, RawGive, RawLet, RawMove, RawOpen, RawPlainProof,
    RawProofKind, RawProofStatement, RawSeal, RawSplit, RawStartKind, RawStartStatement, RawToken,
};
use sync_read::numbers;
use sync_read_names::{Meaning, Sort, form_of, refused, term_of};
use sync_terms::{TermId, Terms};
use sync_thread::{CaseForm, Closing, DoForm, ProofKind, ProofStmt, Tok};

// ---- tokens and exchanges

/// A token; the permission of a cell stands in the start alone.
fn token(scope: &ProgramScope, raw: RawToken) -> Result<Tok, Stop>
    ensures { Gives (λ x. x) result (token_in scope.now raw) }
{
    let name = token_name(raw.name);
    match raw.at {
        None => Ok(Tok { name, at: None }),
        Some(number) => {
            if scope.starts && scope.is_cell(name) {
                Ok(Tok {
                    name,
                    at: Some(place_of(number)),
                })
            } else {
                Err(refused(Rule::N1, raw.name.line))
            }
        }
    }
}

#[tactic(auto, unfolding(crate::specs::ProofStatements::tokens_from))]
fn tokens(alloc: Global, scope: &ProgramScope, raw: &[RawToken]) -> Result<Items<Tok>, Stop>
    ensures { Gives (λ xs. xs) result (tokens_from [] scope.now raw.now) }
{
    let mut held = Items::new(alloc);
    for x in raw {
        let made = token(scope, *x)?;
        held.push(made)?;
    }
    Ok(held)
}

fn token_or_no(scope: &ProgramScope, raw: Option<RawToken>) -> Result<Option<Tok>, Stop>
    ensures { Gives (λ x. x) result (token_or_no scope.now raw) }
{
    match raw {
        Some(x) => Ok(Some(token(scope, x)?)),
        None => Ok(None),
    }
}

#[tactic(auto, unfolding(crate::specs::ProofStatements::tokens_or_no_from))]
fn tokens_or_no(
    alloc: Global,
    scope: &ProgramScope,
    raw: &[Option<RawToken>],
) -> Result<Items<Option<Tok>>, Stop>
    ensures { Gives (λ xs. xs) result (tokens_or_no_from [] scope.now raw.now) }
{
    let mut held = Items::new(alloc);
    for x in raw {
        let made = token_or_no(scope, *x)?;
        held.push(made)?;
    }
    Ok(held)
}

/// The numbers of names of tokens.
fn names_of(alloc: Global, raw: &[RawName]) -> Result<Items<u32>, AllocError>
    ensures { IfOk result (λ ns. ns ≡ map token_name raw.now) }
{
    let mut held = Items::new(alloc);
    for named in raw {
        held.push(token_name(*named))?;
    }
    Ok(held)
}

/// The number of an operation that may be called so.
#[tactic(auto, unfolding(crate::specs::ProofStatements::called))]
fn called(scope: &ProgramScope, purpose: Purpose, raw: &RawDoForm) -> Result<u32, Stop>
    ensures { Gives (λ n. n) result (called purpose scope.now raw.now) }
{
    let line = raw.operation.line;
    let Meaning::Operation(number) = scope.scope.meaning(raw.operation.name) else {
        return Err(refused(Rule::N1, line));
    };
    let Some(call) = at(scope.calls.as_slice(), number as usize) else {
        return Err(refused(Rule::N1, line));
    };
    if !may_call(purpose, *call) {
        return Err(refused(Rule::N1, line));
    }
    if raw.args.len() == call.args
        && raw.tokens.len() == call.tokens
        && raw.given.len() == call.given
    {
        Ok(number)
    } else {
        Err(refused(Rule::N3, line))
    }
}

/// An exchange behind its arguments.
#[tactic(auto, using(sync_read_names::proofs::Kept::stays), unfolding(crate::specs::ProofStatements::exchange_with))]
fn exchange_with(
    alloc: Global,
    terms: &mut Terms,
    scope: &mut ProgramScope,
    op: u32,
    args: Items<TermId>,
    raw: &RawDoForm,
) -> Result<DoForm, Stop>
    ensures exact { (t : Stored) → Extends terms.new t → Gives (λ x. (do_tree t x, scope.new)) result (exchange_with op (map (tree t) args) scope.old raw.now) }
    ensures keeps { Extends terms.old terms.new }
{
    let tokens = tokens(alloc, scope, raw.tokens.as_slice())?;
    let scripts = scripts(alloc, terms, scope, raw.scripts.as_slice())?;
    let given = names_of(alloc, raw.given.as_slice())?;
    Ok(DoForm {
        op,
        args,
        tokens,
        given,
        label: label_of(raw.label),
        scripts,
        line: raw.operation.line,
    })
}

#[tactic(auto, using(sync_read_names::proofs::Kept::along, sync_read_names::proofs::Kept::stays), unfolding(crate::specs::ProofStatements::exchange_in))]
pub(crate) fn exchange(
    alloc: Global,
    terms: &mut Terms,
    scope: &mut ProgramScope,
    purpose: Purpose,
    raw: &RawDoForm,
) -> Result<DoForm, Stop>
    ensures exact { (t : Stored) → Extends terms.new t → Gives (λ x. (do_tree t x, scope.new)) result (exchange_in purpose scope.old raw.now) }
    ensures keeps { Extends terms.old terms.new }
{
    let op = called(scope, purpose, raw)?;
    let args = numbers(alloc, terms, &scope.scope, raw.args.as_slice())?;
    exchange_with(alloc, terms, scope, op, args, raw)
}

/// The exchange of the start, behind whose arguments constants are known.
#[tactic(auto, using(sync_read_names::proofs::Kept::along, sync_read_names::proofs::Kept::stays), unfolding(crate::specs::ProofStatements::start_exchange))]
pub(crate) fn start_exchange(
    alloc: Global,
    terms: &mut Terms,
    scope: &mut ProgramScope,
    raw: &RawDoForm,
) -> Result<DoForm, Stop>
    ensures exact { (t : Stored) → Extends terms.new t → Gives (λ x. (do_tree t x, scope.new)) result (start_exchange scope.old raw.now) }
    ensures keeps { Extends terms.old terms.new }
{
    let op = called(scope, Purpose::Start, raw)?;
    let args = numbers(alloc, terms, &scope.scope, raw.args.as_slice())?;
    scope.know_constants();
    exchange_with(alloc, terms, scope, op, args, raw)
}

#[tactic(auto, using(sync_read_names::proofs::Kept::along, sync_read_names::proofs::Kept::stays), unfolding(crate::specs::ProofStatements::closing_in))]
fn closing(
    alloc: Global,
    terms: &mut Terms,
    scope: &mut ProgramScope,
    raw: &RawClosing,
) -> Result<Closing, Stop>
    ensures exact { (t : Stored) → Extends terms.new t → Gives (λ x. (closing_tree t x, scope.new)) result (closing_in scope.old raw.now) }
    ensures keeps { Extends terms.old terms.new }
{
    let args = numbers(alloc, terms, &scope.scope, raw.args.as_slice())?;
    let tokens = tokens_or_no(alloc, scope, raw.tokens.as_slice())?;
    let scripts = scripts(alloc, terms, scope, raw.scripts.as_slice())?;
    Ok(Closing {
        args,
        tokens,
        scripts,
    })
}

/// As many values and tokens as the word has names and clauses.
fn closes(counts: WordCounts, raw: &RawClosing, line: u32) -> Result<usize, Stop>
    ensures { Gives (λ n. n) result (closes counts raw.now line) }
{
    if raw.args.len() == counts.names && raw.tokens.len() == counts.clauses {
        Ok(counts.clauses)
    } else {
        Err(refused(Rule::N3, line))
    }
}

// ---- statements that stand everywhere

#[tactic(auto, using(sync_read_names::proofs::Kept::kept_tree, sync_read_names::proofs::Kept::stays), unfolding(crate::specs::ProofStatements::let_in))]
fn let_kind(terms: &mut Terms, scope: &mut ProgramScope, raw: &RawLet) -> Result<ProofKind, Stop>
    ensures exact { (t : Stored) → Extends terms.new t → Gives (λ x. (proof_tree t x, scope.new)) result (let_in scope.old raw.now) }
    ensures keeps { Extends terms.old terms.new }
{
    let name = scope.may_prove(raw.name)?;
    let value = term_of(terms, &scope.scope, &raw.value, Sort::Number)?;
    scope.prove_name(raw.name)?;
    Ok(ProofKind::Let(name, value))
}

#[tactic(auto, using(sync_read_names::proofs::Kept::kept_tree, sync_read_names::proofs::Kept::along, sync_read_names::proofs::Kept::stays), unfolding(crate::specs::ProofStatements::split_in))]
fn split(
    alloc: Global,
    terms: &mut Terms,
    scope: &mut ProgramScope,
    raw: &RawSplit,
) -> Result<ProofKind, Stop>
    ensures exact { (t : Stored) → Extends terms.new t → Gives (λ x. (proof_tree t x, scope.new)) result (split_in scope.old raw.now) }
    ensures keeps { Extends terms.old terms.new }
{
    let amount = term_of(terms, &scope.scope, &raw.amount, Sort::Number)?;
    let scripts = scripts(alloc, terms, scope, raw.scripts.as_slice())?;
    Ok(ProofKind::Split(
        token_name(raw.token),
        token_name(raw.first),
        token_name(raw.second),
        amount,
        scripts,
    ))
}

#[tactic(auto, unfolding(crate::specs::ProofStatements::move_in))]
fn move_kind(scope: &ProgramScope, raw: RawMove) -> Result<ProofKind, Stop>
    ensures { (t : Stored) → Gives (proof_tree t) result (move_in scope.now raw) }
{
    let moved = token(scope, raw.token)?;
    Ok(ProofKind::Move(moved, token_name(raw.given)))
}

#[tactic(auto, using(sync_read_names::proofs::Kept::kept_formula, sync_read_names::proofs::Kept::along, sync_read_names::proofs::Kept::stays), unfolding(crate::specs::ProofStatements::assert_in))]
fn assertion(
    alloc: Global,
    terms: &mut Terms,
    scope: &mut ProgramScope,
    raw: &RawAssert,
) -> Result<ProofKind, Stop>
    ensures exact { (t : Stored) → Extends terms.new t → Gives (λ x. (proof_tree t x, scope.new)) result (assert_in scope.old raw.now) }
    ensures keeps { Extends terms.old terms.new }
{
    let form = form_of(terms, &scope.scope, &raw.form)?;
    let scripts = scripts(alloc, terms, scope, raw.scripts.as_slice())?;
    Ok(ProofKind::Assert(form, label_of(raw.label), scripts))
}

#[tactic(auto, using(sync_read_names::proofs::Kept::stays), unfolding(crate::specs::ProofStatements::plain_in))]
pub(crate) fn plain(
    alloc: Global,
    terms: &mut Terms,
    scope: &mut ProgramScope,
    raw: &RawPlainProof,
) -> Result<ProofKind, Stop>
    ensures exact { (t : Stored) → Extends terms.new t → Gives (λ x. (proof_tree t x, scope.new)) result (plain_in scope.old raw.now) }
    ensures keeps { Extends terms.old terms.new }
{
    match raw {
        RawPlainProof::Let(x) => let_kind(terms, scope, x),
        RawPlainProof::Do(d) => {
            let made = exchange(alloc, terms, scope, Purpose::Do, d)?;
            Ok(ProofKind::Do(made))
        }
        RawPlainProof::Split(x) => split(alloc, terms, scope, x),
        RawPlainProof::Merge(x) => Ok(ProofKind::Merge(
            token_name(x.first),
            token_name(x.second),
            token_name(x.given),
        )),
        RawPlainProof::Copy(x) => { Ok(ProofKind::Copy(token_name(x.token), token_name(x.given))) }
        RawPlainProof::Move(x) => move_kind(scope, *x),
        RawPlainProof::Assert(x) => assertion(alloc, terms, scope, x),
    }
}

// ---- the block of an operation on a word

/// As many names as the word has, and a token for each clause without a guard.
fn opens(counts: WordCounts, raw: &RawOpen, line: u32) -> Result<usize, Stop>
    ensures { Gives (λ n. n) result (opens counts raw.now line) }
{
    if raw.names.len() == counts.names && raw.tokens.len() == counts.unguarded {
        Ok(counts.names)
    } else {
        Err(refused(Rule::N3, line))
    }
}

#[tactic(auto, unfolding(crate::specs::ProofStatements::open_in))]
fn open_kind(
    alloc: Global,
    scope: &mut ProgramScope,
    counts: WordCounts,
    line: u32,
    raw: &RawOpen,
) -> Result<ProofKind, Stop>
    ensures { (t : Stored) → Gives (λ x. (proof_tree t x, scope.new)) result (open_in counts line scope.old raw.now) }
{
    opens(counts, raw, line)?;
    scope.next_list();
    let names = proof_names(alloc, scope, false, raw.names.as_slice())?;
    let tokens = names_of(alloc, raw.tokens.as_slice())?;
    Ok(ProofKind::Open(names, tokens, label_of(raw.label)))
}

#[tactic(auto, using(sync_read_names::proofs::Kept::stays), unfolding(crate::specs::ProofStatements::case_in))]
fn case(
    alloc: Global,
    terms: &mut Terms,
    scope: &mut ProgramScope,
    raw: &RawCase,
) -> Result<ProofKind, Stop>
    ensures exact { (t : Stored) → Extends terms.new t → Gives (λ x. (proof_tree t x, scope.new)) result (case_in scope.old raw.now) }
    ensures keeps { Extends terms.old terms.new }
{
    let scripts = scripts(alloc, terms, scope, raw.scripts.as_slice())?;
    Ok(ProofKind::Case(CaseForm {
        clause: place_of(raw.clause),
        yes: token_name_if(raw.yes),
        scripts,
    }))
}

#[tactic(auto, using(sync_read_names::proofs::Kept::stays), unfolding(crate::specs::ProofStatements::close_in))]
fn close(
    alloc: Global,
    terms: &mut Terms,
    scope: &mut ProgramScope,
    counts: WordCounts,
    line: u32,
    raw: &RawClosing,
) -> Result<ProofKind, Stop>
    ensures exact { (t : Stored) → Extends terms.new t → Gives (λ x. (proof_tree t x, scope.new)) result (close_in counts line scope.old raw.now) }
    ensures keeps { Extends terms.old terms.new }
{
    closes(counts, raw, line)?;
    let made = closing(alloc, terms, scope, raw)?;
    Ok(ProofKind::Close(made))
}

#[tactic(auto, using(sync_read_names::proofs::Kept::stays), unfolding(crate::specs::ProofStatements::proof_in))]
fn proof(
    alloc: Global,
    terms: &mut Terms,
    scope: &mut ProgramScope,
    counts: WordCounts,
    line: u32,
    raw: &RawProofKind,
) -> Result<ProofKind, Stop>
    ensures exact { (t : Stored) → Extends terms.new t → Gives (λ x. (proof_tree t x, scope.new)) result (proof_in counts line scope.old raw.now) }
    ensures keeps { Extends terms.old terms.new }
{
    match raw {
        RawProofKind::Plain(x) => plain(alloc, terms, scope, x),
        RawProofKind::Open(x) => open_kind(alloc, scope, counts, line, x),
        RawProofKind::Case(x) => case(alloc, terms, scope, x),
        RawProofKind::Close(x) => close(alloc, terms, scope, counts, line, x),
        RawProofKind::Still(xs) => {
            let made = scripts(alloc, terms, scope, xs.as_slice())?;
            Ok(ProofKind::Still(made))
        }
    }
}

#[tactic(auto, unfolding(crate::specs::ProofStatements::proof_step))]
fn proof_step(
    alloc: Global,
    terms: &mut Terms,
    scope: &mut ProgramScope,
    counts: WordCounts,
    raw: &RawProofStatement,
) -> Result<ProofStmt, Stop>
    ensures exact { (t : Stored) → Extends terms.new t → Gives (λ x. (proof_step_tree t x, scope.new)) result (proof_step counts scope.old raw.now) }
    ensures keeps { Extends terms.old terms.new }
{
    let what = proof(alloc, terms, scope, counts, raw.line, &raw.what)?;
    Ok(ProofStmt {
        what,
        line: raw.line,
    })
}

#[tactic(auto, using(sync_read_names::proofs::Kept::along, sync_read_names::proofs::Kept::stays), unfolding(crate::specs::ProofStatements::proof_steps_from))]
fn proof_steps(
    alloc: Global,
    terms: &mut Terms,
    scope: &mut ProgramScope,
    counts: WordCounts,
    raw: &[RawProofStatement],
) -> Result<Items<ProofStmt>, Stop>
    ensures exact { (t : Stored) → Extends terms.new t → Gives (λ xs. (proof_steps_tree t xs, scope.new)) result (proof_steps_from counts [] scope.old raw.now) }
    ensures keeps { Extends terms.old terms.new }
{
    let mut held = Items::new(alloc);
    for x in raw {
        let made = proof_step(alloc, terms, scope, counts, x)?;
        held.push(made)?;
    }
    Ok(held)
}

/// A block, in which `old` and `new` are known.
#[tactic(auto, using(sync_read_names::proofs::Kept::stays), unfolding(crate::specs::ProofStatements::proof_block))]
pub(crate) fn proof_block(
    alloc: Global,
    terms: &mut Terms,
    scope: &mut ProgramScope,
    counts: WordCounts,
    raw: &[RawProofStatement],
) -> Result<Items<ProofStmt>, Stop>
    ensures exact { (t : Stored) → Extends terms.new t → Gives (λ xs. (proof_steps_tree t xs, scope.new)) result (proof_block counts scope.old raw.now) }
    ensures keeps { Extends terms.old terms.new }
{
    scope.set_atomic(true);
    let steps = proof_steps(alloc, terms, scope, counts, raw)?;
    scope.set_atomic(false);
    Ok(steps)
}

// ---- the start

#[tactic(auto, using(sync_read_names::proofs::Kept::stays), unfolding(crate::specs::ProofStatements::seal_in))]
fn seal(
    alloc: Global,
    terms: &mut Terms,
    scope: &mut ProgramScope,
    raw: &RawSeal,
) -> Result<ProofKind, Stop>
    ensures exact { (t : Stored) → Extends terms.new t → Gives (λ x. (proof_tree t x, scope.new)) result (seal_in scope.old raw.now) }
    ensures keeps { Extends terms.old terms.new }
{
    let counts = scope.word(raw.word)?;
    closes(counts, &raw.closing, raw.word.line)?;
    let made = closing(alloc, terms, scope, &raw.closing)?;
    Ok(ProofKind::Seal(raw.word.name, place_of(raw.at), made))
}

#[tactic(auto, using(sync_read_names::proofs::Kept::along, sync_read_names::proofs::Kept::stays), unfolding(crate::specs::ProofStatements::give_in))]
fn give(
    alloc: Global,
    terms: &mut Terms,
    scope: &mut ProgramScope,
    raw: &RawGive,
) -> Result<ProofKind, Stop>
    ensures exact { (t : Stored) → Extends terms.new t → Gives (λ x. (proof_tree t x, scope.new)) result (give_in scope.old raw.now) }
    ensures keeps { Extends terms.old terms.new }
{
    let entrance = scope.thread_named(raw.thread)?;
    as_many(raw.args.len(), entrance.names, raw.thread.line)?;
    let args = numbers(alloc, terms, &scope.scope, raw.args.as_slice())?;
    let scripts = scripts(alloc, terms, scope, raw.scripts.as_slice())?;
    Ok(ProofKind::Give(raw.thread.name, args, scripts))
}

#[tactic(auto, using(sync_read_names::proofs::Kept::stays), unfolding(crate::specs::ProofStatements::start_kind))]
fn start_kind(
    alloc: Global,
    terms: &mut Terms,
    scope: &mut ProgramScope,
    raw: &RawStartKind,
) -> Result<ProofKind, Stop>
    ensures exact { (t : Stored) → Extends terms.new t → Gives (λ x. (proof_tree t x, scope.new)) result (start_kind scope.old raw.now) }
    ensures keeps { Extends terms.old terms.new }
{
    match raw {
        RawStartKind::Plain(x) => plain(alloc, terms, scope, x),
        RawStartKind::Seal(x) => seal(alloc, terms, scope, x),
        RawStartKind::Give(x) => give(alloc, terms, scope, x),
    }
}

#[tactic(auto, unfolding(crate::specs::ProofStatements::start_step))]
fn start_step(
    alloc: Global,
    terms: &mut Terms,
    scope: &mut ProgramScope,
    raw: &RawStartStatement,
) -> Result<ProofStmt, Stop>
    ensures exact { (t : Stored) → Extends terms.new t → Gives (λ x. (proof_step_tree t x, scope.new)) result (start_step scope.old raw.now) }
    ensures keeps { Extends terms.old terms.new }
{
    let what = start_kind(alloc, terms, scope, &raw.what)?;
    Ok(ProofStmt {
        what,
        line: raw.line,
    })
}

#[tactic(auto, using(sync_read_names::proofs::Kept::along, sync_read_names::proofs::Kept::stays), unfolding(crate::specs::ProofStatements::start_steps_from))]
pub(crate) fn start_steps(
    alloc: Global,
    terms: &mut Terms,
    scope: &mut ProgramScope,
    raw: &[RawStartStatement],
) -> Result<Items<ProofStmt>, Stop>
    ensures exact { (t : Stored) → Extends terms.new t → Gives (λ xs. (proof_steps_tree t xs, scope.new)) result (start_steps_from [] scope.old raw.now) }
    ensures keeps { Extends terms.old terms.new }
{
    let mut held = Items::new(alloc);
    for x in raw {
        let made = start_step(alloc, terms, scope, x)?;
        held.push(made)?;
    }
    Ok(held)
}
