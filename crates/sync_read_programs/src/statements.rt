//! Statements.
ghost use Rattle.std.specs.Prelude.{◌≡◌, ℕ};
ghost use Rattle.sync_base.specs.Outcome.{Gives};
ghost use Rattle.sync_terms.specs.Stored.{Stored, Extends};
ghost use Rattle.sync_thread.specs.Views.{jump_tree, list_tree, stmt_tree};
ghost use Rattle.sync_read_programs.specs.Statements.{load_in, change_in, cas_in, word_operation_in, wraps, calculation_wraps, wrap_if, set_in, read_in, peek_in, write_in, print_in, jump_in, proof_statement, names_of, in_branch, in_loop, assigned_in, stored_in, list_in, statement_in};
ghost use Rattle.sync_read_programs.specs.Parts.{kind_of, right_of, tail_of, if_of, loop_of, when_of, kind_tree, tail_tree, when_tree, word_operation_tree, change_op};

use crate::keeps::{keep, keep_if};
use crate::operands::{
    calculation, condition, index, label_of, operand, scripts, token_name, two_operands,
};
use crate::proof_statements::{exchange, plain, proof_block};
use crate::scopes::{Aims, ProgramScope, Purpose, WordCounts, as_many_if};
use sqlite_items::Items;
use std::alloc::Global;
use sync_base::Stop;
use sync_parse::RawScript;
use sync_parse_exprs::{RawExpr, RawName};
use sync_parse_programs::{
    RawAtomic, RawCalculation, RawCas, RawChange, RawIf, RawJump, RawKeep, RawList, RawLoad,
    RawLoop, RawOperand, RawPeek, RawPlainProof, RawRead, RawRightSide, RawStatement,
    RawStatementKind, RawStore, RawTail, RawWhen, RawWordOperation, RawWrite,
};
use sync_read::numbers;
use sync_terms::{Script, TermId, Terms};
use sync_thread::{Atomic, Idx, List, Stmt, StmtKind, Tail, When, WordOp};

// ---- operations on words

/// An operation on a word, with what the word has.
#[derive(Drop)]
struct Operation {
    op: WordOp,
    word: u32,
    index: Idx,
    counts: WordCounts,
}

#[tactic(auto, using(sync_read_names::proofs::Kept::along, sync_read_names::proofs::Kept::stays), unfolding(crate::specs::Statements::load_in))]
fn load(
    alloc: Global,
    terms: &mut Terms,
    scope: &mut ProgramScope,
    raw: &RawLoad,
) -> Result<Operation, Stop>
    ensures exact { (t : Stored) → Extends terms.new t →
        Gives (λ x. (word_operation_tree t x, scope.new)) result (load_in scope.old raw.now) }
    ensures keeps { Extends terms.old terms.new }
{
    let counts = scope.word(raw.word)?;
    let index = index(alloc, terms, scope, &raw.index)?;
    Ok(Operation {
        op: WordOp::Load,
        word: raw.word.name,
        index,
        counts,
    })
}

/// What is done with an operand.
#[derive(Clone, Copy)]
enum Change {
    Store,
    Swap,
    Add,
    Sub,
}

#[tactic(auto, using(sync_read_names::proofs::Kept::along, sync_read_names::proofs::Kept::stays), unfolding(crate::specs::Statements::change_in))]
fn changing(
    alloc: Global,
    terms: &mut Terms,
    scope: &mut ProgramScope,
    what: Change,
    raw: &RawChange,
) -> Result<Operation, Stop>
    ensures exact { (t : Stored) → Extends terms.new t →
        Gives (λ x. (word_operation_tree t x, scope.new)) result (change_in (change_op what) scope.old raw.now) }
    ensures keeps { Extends terms.old terms.new }
{
    let counts = scope.word(raw.word)?;
    let index = index(alloc, terms, scope, &raw.index)?;
    let operand = operand(scope, raw.operand)?;
    let op = match what {
        Change::Store => WordOp::Store(operand),
        Change::Swap => WordOp::Swap(operand),
        Change::Add => WordOp::Add(operand),
        Change::Sub => WordOp::Sub(operand),
    };
    Ok(Operation {
        op,
        word: raw.word.name,
        index,
        counts,
    })
}

#[tactic(auto, using(sync_read_names::proofs::Kept::along, sync_read_names::proofs::Kept::stays), unfolding(crate::specs::Statements::cas_in))]
fn cas(
    alloc: Global,
    terms: &mut Terms,
    scope: &mut ProgramScope,
    raw: &RawCas,
) -> Result<Operation, Stop>
    ensures exact { (t : Stored) → Extends terms.new t →
        Gives (λ x. (word_operation_tree t x, scope.new)) result (cas_in scope.old raw.now) }
    ensures keeps { Extends terms.old terms.new }
{
    let counts = scope.word(raw.word)?;
    let index = index(alloc, terms, scope, &raw.index)?;
    let (expected, changed) = two_operands(scope, raw.expected, raw.changed)?;
    Ok(Operation {
        op: WordOp::Cas(expected, changed),
        word: raw.word.name,
        index,
        counts,
    })
}

#[tactic(auto, using(sync_read_names::proofs::Kept::along, sync_read_names::proofs::Kept::stays), unfolding(crate::specs::Statements::word_operation_in))]
fn word_operation(
    alloc: Global,
    terms: &mut Terms,
    scope: &mut ProgramScope,
    raw: &RawWordOperation,
) -> Result<Operation, Stop>
    ensures exact { (t : Stored) → Extends terms.new t →
        Gives (λ x. (word_operation_tree t x, scope.new)) result (word_operation_in scope.old raw.now) }
    ensures keeps { Extends terms.old terms.new }
{
    match raw {
        RawWordOperation::Load(x) => load(alloc, terms, scope, x),
        RawWordOperation::Swap(x) => changing(alloc, terms, scope, Change::Swap, x),
        RawWordOperation::Add(x) => changing(alloc, terms, scope, Change::Add, x),
        RawWordOperation::Sub(x) => changing(alloc, terms, scope, Change::Sub, x),
        RawWordOperation::Cas(x) => cas(alloc, terms, scope, x),
    }
}

fn wraps(raw: &RawWordOperation) -> bool
    ensures { result ≡ wraps raw.now }
{
    match raw {
        RawWordOperation::Add(_) | RawWordOperation::Sub(_) => true,
        RawWordOperation::Load(_) | RawWordOperation::Swap(_) | RawWordOperation::Cas(_) => false,
    }
}

fn calculation_wraps(raw: RawCalculation) -> bool
    ensures { result ≡ calculation_wraps raw }
{
    match raw {
        RawCalculation::Plain(_) => false,
        RawCalculation::Plus(_, _)
        | RawCalculation::Minus(_, _)
        | RawCalculation::Times(_, _)
        | RawCalculation::Over(_, _)
        | RawCalculation::Modulo(_, _) => true,
    }
}

/// From here on `wrap` is known, if it is.
fn wrap_if(scope: &mut ProgramScope, wraps: bool)
    ensures { scope.new ≡ wrap_if wraps scope.old }
{
    if wraps {
        scope.set_wrap(true);
    }
}

// ---- statements without lists

#[tactic(auto, unfolding(crate::specs::Statements::set_in))]
fn set(
    scope: &mut ProgramScope,
    local: RawName,
    raw: RawCalculation,
    label: Option<RawName>,
) -> Result<StmtKind, Stop>
    ensures { (t : Stored) → (line : ℕ) →
        Gives (λ x. (kind_tree t x line, scope.new)) result (set_in local raw label line scope.old) }
{
    let name = scope.may_assign(local)?;
    let calc = calculation(scope, raw)?;
    wrap_if(scope, calculation_wraps(raw));
    scope.assign_name(local)?;
    Ok(StmtKind::Set(name, calc, label_of(label)))
}

#[tactic(auto, using(sync_read_names::proofs::Kept::along, sync_read_names::proofs::Kept::stays), unfolding(crate::specs::Statements::read_in))]
fn read(
    alloc: Global,
    terms: &mut Terms,
    scope: &mut ProgramScope,
    local: RawName,
    raw: &RawRead,
) -> Result<StmtKind, Stop>
    ensures exact { (t : Stored) → (line : ℕ) → Extends terms.new t →
        Gives (λ x. (kind_tree t x line, scope.new)) result (read_in local raw.now line scope.old) }
    ensures keeps { Extends terms.old terms.new }
{
    let name = scope.may_assign(local)?;
    let cell = scope.cell(raw.cell)?;
    let index = index(alloc, terms, scope, &raw.index)?;
    let scripts = scripts(alloc, terms, scope, raw.scripts.as_slice())?;
    scope.assign_name(local)?;
    Ok(StmtKind::Read(name, cell, index, token_name(raw.permission), scripts))
}

#[tactic(auto, using(sync_read_names::proofs::Kept::along, sync_read_names::proofs::Kept::stays), unfolding(crate::specs::Statements::peek_in))]
fn peek(
    alloc: Global,
    terms: &mut Terms,
    scope: &mut ProgramScope,
    local: RawName,
    raw: &RawPeek,
) -> Result<StmtKind, Stop>
    ensures exact { (t : Stored) → (line : ℕ) → Extends terms.new t →
        Gives (λ x. (kind_tree t x line, scope.new)) result (peek_in local raw.now line scope.old) }
    ensures keeps { Extends terms.old terms.new }
{
    let name = scope.may_assign(local)?;
    let cell = scope.cell(raw.cell)?;
    let index = index(alloc, terms, scope, &raw.index)?;
    let via = exchange(alloc, terms, scope, Purpose::Via, &raw.via)?;
    scope.assign_name(local)?;
    Ok(StmtKind::Peek(name, cell, index, via))
}

#[tactic(auto, using(sync_read_names::proofs::Kept::along, sync_read_names::proofs::Kept::stays), unfolding(crate::specs::Statements::write_in))]
fn write(
    alloc: Global,
    terms: &mut Terms,
    scope: &mut ProgramScope,
    raw: &RawWrite,
) -> Result<StmtKind, Stop>
    ensures exact { (t : Stored) → (line : ℕ) → Extends terms.new t →
        Gives (λ x. (kind_tree t x line, scope.new)) result (write_in raw.now line scope.old) }
    ensures keeps { Extends terms.old terms.new }
{
    let cell = scope.cell(raw.cell)?;
    let index = index(alloc, terms, scope, &raw.index)?;
    let operand = operand(scope, raw.operand)?;
    let scripts = scripts(alloc, terms, scope, raw.scripts.as_slice())?;
    Ok(StmtKind::Write(cell, index, operand, token_name(raw.permission), scripts))
}

#[tactic(auto, unfolding(crate::specs::Statements::print_in))]
fn print(scope: &ProgramScope, label: RawName, raw: RawOperand) -> Result<StmtKind, Stop>
    ensures { (t : Stored) → (line : ℕ) →
        Gives (λ x. (kind_tree t x line, scope.now)) result (print_in label raw line scope.now) }
{
    let operand = operand(scope, raw)?;
    Ok(StmtKind::Print(label.name, operand))
}

/// What a jump brings to its keep, of which so many names are wanted.
#[tactic(auto, using(sync_read_names::proofs::Kept::along, sync_read_names::proofs::Kept::stays), unfolding(crate::specs::Statements::jump_in))]
fn jump(
    alloc: Global,
    terms: &mut Terms,
    scope: &mut ProgramScope,
    wanted: Option<usize>,
    line: u32,
    args: &[RawExpr],
    raw: &[RawScript],
) -> Result<(Items<TermId>, Items<Script>), Stop>
    ensures exact { (t : Stored) → Extends terms.new t →
        Gives (λ x. (jump_tree t x.0 x.1, scope.new)) result (jump_in wanted line scope.old (record { args = args.now; scripts = raw.now })) }
    ensures keeps { Extends terms.old terms.new }
{
    as_many_if(wanted, args.len(), line)?;
    let args = numbers(alloc, terms, &scope.scope, args)?;
    let scripts = scripts(alloc, terms, scope, raw)?;
    Ok((args, scripts))
}

#[tactic(auto, using(sync_read_names::proofs::Kept::along, sync_read_names::proofs::Kept::stays))]
fn jump_of(
    alloc: Global,
    terms: &mut Terms,
    scope: &mut ProgramScope,
    wanted: Option<usize>,
    line: u32,
    raw: &RawJump,
) -> Result<(Items<TermId>, Items<Script>), Stop>
    ensures exact { (t : Stored) → Extends terms.new t →
        Gives (λ x. (jump_tree t x.0 x.1, scope.new)) result (jump_in wanted line scope.old raw.now) }
    ensures keeps { Extends terms.old terms.new }
{
    jump(
        alloc,
        terms,
        scope,
        wanted,
        line,
        raw.args.as_slice(),
        raw.scripts.as_slice(),
    )
}

#[tactic(auto, using(sync_read_names::proofs::Kept::along, sync_read_names::proofs::Kept::stays), unfolding(crate::specs::Statements::proof_statement))]
fn proof_statement(
    alloc: Global,
    terms: &mut Terms,
    scope: &mut ProgramScope,
    raw: &RawPlainProof,
) -> Result<StmtKind, Stop>
    ensures exact { (t : Stored) → (line : ℕ) → Extends terms.new t →
        Gives (λ x. (kind_tree t x line, scope.new)) result (proof_statement line scope.old raw.now) }
    ensures keeps { Extends terms.old terms.new }
{
    let made = plain(alloc, terms, scope, raw)?;
    Ok(StmtKind::Proof(made))
}

// ---- statements with lists

/// How many names a keep has, where there is one.
fn names_of(raw: &Option<RawKeep>) -> Option<usize>
    ensures { result ≡ names_of raw.now }
{
    match raw {
        Some(keep) => Some(keep.names.len()),
        None => None,
    }
}

/// In a branch, `meet` goes to the `join`.
fn in_branch(aims: Aims, joined: &Option<RawKeep>) -> Aims
    ensures { result ≡ in_branch joined.now aims }
{
    Aims {
        meet: names_of(joined),
        ..aims
    }
}

fn in_loop(aims: Aims, keep: &RawKeep, left: &Option<RawKeep>) -> Aims
    ensures { result ≡ in_loop keep.now left.now aims }
{
    Aims {
        next: Some(keep.names.len()),
        breaks: names_of(left),
        meet: None,
        end: aims.end,
    }
}

#[cycle(statements)]
#[tactic(auto, using(sync_read_names::proofs::Kept::along, sync_read_names::proofs::Kept::stays))]
fn when(
    alloc: Global,
    terms: &mut Terms,
    scope: &mut ProgramScope,
    counts: WordCounts,
    aims: Aims,
    raw: &RawWhen,
) -> Result<When, Stop>
    ensures exact { (t : Stored) → Extends terms.new t →
        Gives (λ x. (when_tree t x, scope.new)) result (when_of raw.now counts aims scope.old) }
    ensures keeps { Extends terms.old terms.new }
{
    let cond = condition(scope, raw.condition)?;
    let aims = in_branch(aims, &raw.joined);
    let yes_proof = proof_block(alloc, terms, scope, counts, raw.yes_proof.as_slice())?;
    let yes = list(alloc, terms, scope, aims, &raw.yes)?;
    let no_proof = proof_block(alloc, terms, scope, counts, raw.no_proof.as_slice())?;
    let no = list(alloc, terms, scope, aims, &raw.no)?;
    let joined = keep_if(alloc, terms, scope, &raw.joined)?;
    Ok(When {
        cond,
        label: label_of(raw.label),
        yes_proof,
        yes,
        no_proof,
        no,
        joined,
    })
}

#[cycle(statements)]
#[tactic(auto, using(sync_read_names::proofs::Kept::along, sync_read_names::proofs::Kept::stays))]
fn tail(
    alloc: Global,
    terms: &mut Terms,
    scope: &mut ProgramScope,
    counts: WordCounts,
    aims: Aims,
    raw: &RawTail,
) -> Result<Tail, Stop>
    ensures exact { (t : Stored) → Extends terms.new t →
        Gives (λ x. (tail_tree t x, scope.new)) result (tail_of raw.now counts aims scope.old) }
    ensures keeps { Extends terms.old terms.new }
{
    match raw {
        RawTail::Plain => Ok(Tail::Plain),
        RawTail::Block(block) => {
            let made = proof_block(alloc, terms, scope, counts, block.as_slice())?;
            Ok(Tail::Proof(made))
        }
        RawTail::When(x) => {
            let made = when(alloc, terms, scope, counts, aims, x)?;
            Ok(Tail::When(made))
        }
    }
}

/// An operation that gives its old value to a local, which is known in the tail.
#[cycle(statements)]
#[tactic(auto, using(sync_read_names::proofs::Kept::along, sync_read_names::proofs::Kept::stays))]
fn assigned(
    alloc: Global,
    terms: &mut Terms,
    scope: &mut ProgramScope,
    aims: Aims,
    local: RawName,
    raw: &RawAtomic,
    ending: &RawTail,
) -> Result<StmtKind, Stop>
    ensures exact { (t : Stored) → (line : ℕ) → Extends terms.new t →
        Gives (λ x. (kind_tree t x line, scope.new)) result (assigned_in local raw.now (tail_of ending.now) line aims scope.old) }
    ensures keeps { Extends terms.old terms.new }
{
    let name = scope.may_assign(local)?;
    let operation = word_operation(alloc, terms, scope, &raw.operation)?;
    wrap_if(scope, wraps(&raw.operation));
    scope.assign_name(local)?;
    let tail = tail(alloc, terms, scope, operation.counts, aims, ending)?;
    Ok(StmtKind::Word(Atomic {
        op: operation.op,
        local: Some(name),
        word: operation.word,
        index: operation.index,
        label: label_of(raw.label),
        tail,
    }))
}

#[cycle(statements)]
#[tactic(auto, using(sync_read_names::proofs::Kept::along, sync_read_names::proofs::Kept::stays))]
fn stored(
    alloc: Global,
    terms: &mut Terms,
    scope: &mut ProgramScope,
    aims: Aims,
    raw: &RawStore,
    ending: &RawTail,
) -> Result<StmtKind, Stop>
    ensures exact { (t : Stored) → (line : ℕ) → Extends terms.new t →
        Gives (λ x. (kind_tree t x line, scope.new)) result (stored_in raw.now (tail_of ending.now) line aims scope.old) }
    ensures keeps { Extends terms.old terms.new }
{
    let operation = changing(alloc, terms, scope, Change::Store, &raw.change)?;
    let tail = tail(alloc, terms, scope, operation.counts, aims, ending)?;
    Ok(StmtKind::Word(Atomic {
        op: operation.op,
        local: None,
        word: operation.word,
        index: operation.index,
        label: label_of(raw.label),
        tail,
    }))
}

#[cycle(statements)]
#[tactic(auto, using(sync_read_names::proofs::Kept::along, sync_read_names::proofs::Kept::stays))]
fn right_side(
    alloc: Global,
    terms: &mut Terms,
    scope: &mut ProgramScope,
    aims: Aims,
    local: RawName,
    raw: &RawRightSide,
) -> Result<StmtKind, Stop>
    ensures exact { (t : Stored) → (line : ℕ) → Extends terms.new t →
        Gives (λ x. (kind_tree t x line, scope.new)) result (right_of raw.now local line aims scope.old) }
    ensures keeps { Extends terms.old terms.new }
{
    match raw {
        RawRightSide::Atomic(operation, ending) => {
            assigned(alloc, terms, scope, aims, local, operation, ending)
        }
        RawRightSide::Read(x) => read(alloc, terms, scope, local, x),
        RawRightSide::Peek(x) => peek(alloc, terms, scope, local, x),
        RawRightSide::Calculated(x, label) => set(scope, local, *x, *label),
    }
}

#[cycle(statements)]
#[tactic(auto, using(sync_read_names::proofs::Kept::along, sync_read_names::proofs::Kept::stays))]
fn if_kind(
    alloc: Global,
    terms: &mut Terms,
    scope: &mut ProgramScope,
    aims: Aims,
    raw: &RawIf,
) -> Result<StmtKind, Stop>
    ensures exact { (t : Stored) → (line : ℕ) → Extends terms.new t →
        Gives (λ x. (kind_tree t x line, scope.new)) result (if_of raw.now line aims scope.old) }
    ensures keeps { Extends terms.old terms.new }
{
    let cond = condition(scope, raw.condition)?;
    let aims = in_branch(aims, &raw.joined);
    let yes = list(alloc, terms, scope, aims, &raw.yes)?;
    let no = list(alloc, terms, scope, aims, &raw.no)?;
    let joined = keep_if(alloc, terms, scope, &raw.joined)?;
    Ok(StmtKind::If(cond, label_of(raw.label), yes, no, joined))
}

/// A loop: `wrap` is known in what `from` brings, and not in the keeps and the body.
#[cycle(statements)]
#[tactic(auto, using(sync_read_names::proofs::Kept::along, sync_read_names::proofs::Kept::stays))]
fn loop_kind(
    alloc: Global,
    terms: &mut Terms,
    scope: &mut ProgramScope,
    aims: Aims,
    raw: &RawLoop,
) -> Result<StmtKind, Stop>
    ensures exact { (t : Stored) → (line : ℕ) → Extends terms.new t →
        Gives (λ x. (kind_tree t x line, scope.new)) result (loop_of raw.now line aims scope.old) }
    ensures keeps { Extends terms.old terms.new }
{
    let wrap = scope.knows_wrap();
    scope.set_wrap(false);
    let keep = keep(alloc, terms, scope, false, &raw.keep)?;
    scope.set_wrap(wrap);
    let wanted = Some(raw.keep.names.len());
    let (args, scripts) = jump(
        alloc,
        terms,
        scope,
        wanted,
        raw.from_line,
        raw.args.as_slice(),
        raw.scripts.as_slice(),
    )?;
    scope.set_wrap(false);
    let aims = in_loop(aims, &raw.keep, &raw.after);
    let body = list(alloc, terms, scope, aims, &raw.body)?;
    let left = keep_if(alloc, terms, scope, &raw.after)?;
    scope.set_wrap(wrap);
    Ok(StmtKind::Loop(keep, args, scripts, body, left))
}

#[cycle(statements)]
#[tactic(auto, using(sync_read_names::proofs::Kept::along, sync_read_names::proofs::Kept::stays))]
fn kind(
    alloc: Global,
    terms: &mut Terms,
    scope: &mut ProgramScope,
    aims: Aims,
    line: u32,
    raw: &RawStatementKind,
) -> Result<StmtKind, Stop>
    ensures exact { (t : Stored) → Extends terms.new t →
        Gives (λ x. (kind_tree t x line, scope.new)) result (kind_of raw.now line aims scope.old) }
    ensures keeps { Extends terms.old terms.new }
{
    match raw {
        RawStatementKind::Store(x, ending) => stored(alloc, terms, scope, aims, x, ending),
        RawStatementKind::Write(x) => write(alloc, terms, scope, x),
        RawStatementKind::Print(label, x) => print(scope, *label, *x),
        RawStatementKind::If(x) => if_kind(alloc, terms, scope, aims, x),
        RawStatementKind::Loop(x) => loop_kind(alloc, terms, scope, aims, x),
        RawStatementKind::Next(x) => {
            let (args, scripts) = jump_of(alloc, terms, scope, aims.next, line, x)?;
            Ok(StmtKind::Next(args, scripts))
        }
        RawStatementKind::Break(x) => {
            let (args, scripts) = jump_of(alloc, terms, scope, aims.breaks, line, x)?;
            Ok(StmtKind::Break(args, scripts))
        }
        RawStatementKind::Meet(x) => {
            let (args, scripts) = jump_of(alloc, terms, scope, aims.meet, line, x)?;
            Ok(StmtKind::Meet(args, scripts))
        }
        RawStatementKind::End(x) => {
            let (args, scripts) = jump_of(alloc, terms, scope, aims.end, line, x)?;
            Ok(StmtKind::End(args, scripts))
        }
        RawStatementKind::Proof(x) => proof_statement(alloc, terms, scope, x),
        RawStatementKind::Assign(local, x) => right_side(alloc, terms, scope, aims, *local, x),
    }
}

#[cycle(statements)]
#[tactic(auto, using(sync_read_names::proofs::Kept::along, sync_read_names::proofs::Kept::stays))]
fn statement(
    alloc: Global,
    terms: &mut Terms,
    scope: &mut ProgramScope,
    aims: Aims,
    raw: &RawStatement,
) -> Result<Stmt, Stop>
    ensures exact { (t : Stored) → Extends terms.new t →
        Gives (λ x. (stmt_tree t x, scope.new)) result (statement_in raw.now aims scope.old) }
    ensures keeps { Extends terms.old terms.new }
{
    let what = kind(alloc, terms, scope, aims, raw.line, &raw.what)?;
    Ok(Stmt {
        what,
        line: raw.line,
    })
}

/// A list of statements, behind which `wrap` is what it was before.
#[cycle(statements)]
#[tactic(auto, using(sync_read_names::proofs::Kept::along, sync_read_names::proofs::Kept::stays), unfolding(crate::specs::Statements::statements_from))]
pub(crate) fn list(
    alloc: Global,
    terms: &mut Terms,
    scope: &mut ProgramScope,
    aims: Aims,
    raw: &RawList,
) -> Result<List, Stop>
    ensures exact { (t : Stored) → Extends terms.new t →
        Gives (λ x. (list_tree t x, scope.new)) result (list_in raw.now aims scope.old) }
    ensures keeps { Extends terms.old terms.new }
{
    let wrap = scope.knows_wrap();
    let mut held = Items::new(alloc);
    for x in raw.statements.as_slice() {
        let made = statement(alloc, terms, scope, aims, x)?;
        held.push(made)?;
    }
    scope.set_wrap(wrap);
    Ok(List {
        stmts: held,
        end_line: raw.end_line,
    })
}
