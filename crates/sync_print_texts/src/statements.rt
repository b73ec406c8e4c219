//! Writing statements.
ghost use Rattle.std.specs.Prelude.{◌≡◌, ◌++◌, OnOk};
ghost use Rattle.sync_lex.specs.declared.signs.Sign.TheVariants as sign;
ghost use Rattle.sync_parse_forms.specs.Codes.{a_name};
ghost use Rattle.sync_parse_programs.specs.Known.{scripts, ◌∘◌, ◌▸◌, ◌◂◌};
ghost use Rattle.sync_parse_programs.specs.ProofStatements.{proof_block};
ghost use Rattle.sync_parse_programs.specs.Statements.{list, joined, behind_loop, atomic, store, when_form, ending, read_form, peek, right_side, write_form, if_form, loop_form, jump, print_form, assignment, statement_kind, statement, statement_row};
ghost use Rattle.sync_print_programs.specs.Written.{all_written, written_of, written_statement};

use std::alloc::{AllocError, Global};
use sync_base::NameList;
use sync_lex::Sign;
use sync_parse::RawScript;
use sync_parse_exprs::RawName;
use sync_parse_programs::{
    RawAtomic, RawIf, RawJump, RawKeep, RawList, RawLoop, RawOperand, RawPeek, RawProofStatement,
    RawRead, RawRightSide, RawStatement, RawStatementKind, RawStore, RawTail, RawWhen, RawWrite,
};
use sync_print_programs::{
    args, calculated, condition, do_form, index, keep, label, name, operand, plain_proof,
    proof_block, scripts, sign, stored, word_operation,
};

/// `join` and a keep, or nothing.
#[tactic(auto, unfolding(sync_parse_programs::specs::Statements::joined))]
fn joined(
    alloc: Global,
    names: &NameList,
    out: &mut Vec<u8>,
    x: &Option<RawKeep>,
) -> Result<(), AllocError>
    ensures { OnOk result (out.new.items ≡ out.old.items ++ written_of names.now joined x.now) }
{
    match x {
        Some(k) => {
            sign(names, out, Sign::Join)?;
            keep(alloc, names, out, k)?;
            Ok(())
        }
        None => Ok(()),
    }
}

/// `after` and a keep, or nothing.
#[tactic(auto, unfolding(sync_parse_programs::specs::Statements::behind_loop))]
fn behind_loop(
    alloc: Global,
    names: &NameList,
    out: &mut Vec<u8>,
    x: &Option<RawKeep>,
) -> Result<(), AllocError>
    ensures { OnOk result (out.new.items ≡ out.old.items ++ written_of names.now behind_loop x.now) }
{
    match x {
        Some(k) => {
            sign(names, out, Sign::After)?;
            keep(alloc, names, out, k)?;
            Ok(())
        }
        None => Ok(()),
    }
}

#[tactic(auto, unfolding(sync_parse_programs::specs::Statements::atomic))]
fn atomic(
    alloc: Global,
    names: &NameList,
    out: &mut Vec<u8>,
    x: &RawAtomic,
) -> Result<(), AllocError>
    ensures { OnOk result (out.new.items ≡ out.old.items ++ written_of names.now atomic x.now) }
{
    word_operation(alloc, names, out, &x.operation)?;
    label(names, out, x.label)?;
    Ok(())
}

#[tactic(auto, unfolding(sync_parse_programs::specs::Statements::store))]
fn store(alloc: Global, names: &NameList, out: &mut Vec<u8>, x: &RawStore) -> Result<(), AllocError>
    ensures { OnOk result (out.new.items ≡ out.old.items ++ written_of names.now store x.now) }
{
    sign(names, out, Sign::Store)?;
    stored(alloc, names, out, &x.change)?;
    label(names, out, x.label)?;
    Ok(())
}

/// `with`, a permission and its scripts.
fn with_permission(
    alloc: Global,
    names: &NameList,
    out: &mut Vec<u8>,
    x: RawName,
    y: &[RawScript],
) -> Result<(), AllocError>
    ensures { OnOk result (out.new.items ≡ out.old.items ++ written_of names.now (sign.With ▸ a_name ∘ scripts ◂ sign.Semicolon) (x, y.now)) }
{
    sign(names, out, Sign::With)?;
    name(names, out, x)?;
    scripts(alloc, names, out, y)?;
    sign(names, out, Sign::Semicolon)?;
    Ok(())
}

#[tactic(auto, unfolding(sync_parse_programs::specs::Statements::read_form))]
fn read_form(
    alloc: Global,
    names: &NameList,
    out: &mut Vec<u8>,
    x: &RawRead,
) -> Result<(), AllocError>
    ensures { OnOk result (out.new.items ≡ out.old.items ++ written_of names.now read_form x.now) }
{
    sign(names, out, Sign::Read)?;
    name(names, out, x.cell)?;
    index(alloc, names, out, &x.index)?;
    with_permission(alloc, names, out, x.permission, x.scripts.as_slice())?;
    Ok(())
}

#[tactic(auto, unfolding(sync_parse_programs::specs::Statements::peek))]
fn peek(alloc: Global, names: &NameList, out: &mut Vec<u8>, x: &RawPeek) -> Result<(), AllocError>
    ensures { OnOk result (out.new.items ≡ out.old.items ++ written_of names.now peek x.now) }
{
    sign(names, out, Sign::Peek)?;
    name(names, out, x.cell)?;
    index(alloc, names, out, &x.index)?;
    sign(names, out, Sign::Via)?;
    do_form(alloc, names, out, &x.via)?;
    sign(names, out, Sign::Semicolon)?;
    Ok(())
}

#[tactic(auto, unfolding(sync_parse_programs::specs::Statements::write_form))]
fn write_form(
    alloc: Global,
    names: &NameList,
    out: &mut Vec<u8>,
    x: &RawWrite,
) -> Result<(), AllocError>
    ensures { OnOk result (out.new.items ≡ out.old.items ++ written_of names.now write_form x.now) }
{
    sign(names, out, Sign::Write)?;
    name(names, out, x.cell)?;
    index(alloc, names, out, &x.index)?;
    sign(names, out, Sign::Equal)?;
    operand(alloc, names, out, x.operand)?;
    with_permission(alloc, names, out, x.permission, x.scripts.as_slice())?;
    Ok(())
}

/// A line that is printed.
#[tactic(auto, unfolding(sync_parse_programs::specs::Statements::print_form))]
fn print_form(
    alloc: Global,
    names: &NameList,
    out: &mut Vec<u8>,
    x: &RawName,
    y: &RawOperand,
) -> Result<(), AllocError>
    ensures { OnOk result (out.new.items ≡ out.old.items ++ written_of names.now print_form (x.now, y.now)) }
{
    sign(names, out, Sign::Print)?;
    name(names, out, *x)?;
    operand(alloc, names, out, *y)?;
    sign(names, out, Sign::Semicolon)?;
    Ok(())
}

/// A sign, and what a jump gives to its keep.
#[tactic(auto, unfolding(sync_parse_programs::specs::Statements::jump))]
fn jump(
    alloc: Global,
    names: &NameList,
    out: &mut Vec<u8>,
    first: Sign,
    x: &RawJump,
) -> Result<(), AllocError>
    ensures { OnOk result (out.new.items ≡ out.old.items ++ written_of names.now (first ▸ jump) x.now) }
{
    sign(names, out, first)?;
    args(alloc, names, out, x.args.as_slice())?;
    scripts(alloc, names, out, x.scripts.as_slice())?;
    sign(names, out, Sign::Semicolon)?;
    Ok(())
}

/// `proof`, a proof block and `;`.
fn proof_ending(
    alloc: Global,
    names: &NameList,
    out: &mut Vec<u8>,
    x: &[RawProofStatement],
) -> Result<(), AllocError>
    ensures { OnOk result (out.new.items ≡ out.old.items ++ written_of names.now (sign.Proof ▸ proof_block ◂ sign.Semicolon) x.now) }
{
    sign(names, out, Sign::Proof)?;
    proof_block(alloc, names, out, x)?;
    sign(names, out, Sign::Semicolon)?;
    Ok(())
}

// ---- statements in statements

/// Statements in a row.
#[cycle(statements)]
#[tactic(auto, unfolding(sync_parse_programs::specs::Statements::statement_row))]
fn statement_row(
    alloc: Global,
    names: &NameList,
    out: &mut Vec<u8>,
    x: &[RawStatement],
) -> Result<(), AllocError>
    ensures { OnOk result (out.new.items ≡ out.old.items ++ all_written (written_statement names.now) x.now) }
{
    for one in x {
        statement(alloc, names, out, one)?;
    }
    Ok(())
}

/// Statements in braces.
#[cycle(statements)]
#[tactic(auto, unfolding(sync_parse_programs::specs::Statements::list, sync_parse_programs::specs::Statements::statement_row))]
pub(crate) fn list(
    alloc: Global,
    names: &NameList,
    out: &mut Vec<u8>,
    x: &RawList,
) -> Result<(), AllocError>
    ensures { OnOk result (out.new.items ≡ out.old.items ++ written_of names.now list x.now) }
{
    sign(names, out, Sign::OpenBrace)?;
    statement_row(alloc, names, out, x.statements.as_slice())?;
    sign(names, out, Sign::CloseBrace)?;
    Ok(())
}

/// What an atomic statement does for an outcome of its condition.
#[cycle(statements)]
fn outcome(
    alloc: Global,
    names: &NameList,
    out: &mut Vec<u8>,
    x: &[RawProofStatement],
    y: &RawList,
) -> Result<(), AllocError>
    ensures { OnOk result (out.new.items ≡ out.old.items ++ written_of names.now (sign.Proof ▸ proof_block ∘ list) (x.now, y.now)) }
{
    sign(names, out, Sign::Proof)?;
    proof_block(alloc, names, out, x)?;
    list(alloc, names, out, y)?;
    Ok(())
}

#[cycle(statements)]
#[tactic(auto, unfolding(sync_parse_programs::specs::Statements::when_form))]
fn when_form(
    alloc: Global,
    names: &NameList,
    out: &mut Vec<u8>,
    x: &RawWhen,
) -> Result<(), AllocError>
    ensures { OnOk result (out.new.items ≡ out.old.items ++ written_of names.now when_form x.now) }
{
    sign(names, out, Sign::When)?;
    condition(alloc, names, out, x.condition)?;
    label(names, out, x.label)?;
    outcome(alloc, names, out, x.yes_proof.as_slice(), &x.yes)?;
    sign(names, out, Sign::Else)?;
    outcome(alloc, names, out, x.no_proof.as_slice(), &x.no)?;
    joined(alloc, names, out, &x.joined)?;
    Ok(())
}

/// How an atomic statement ends.
#[cycle(statements)]
#[tactic(auto, unfolding(sync_parse_programs::specs::Statements::ending))]
fn ending(alloc: Global, names: &NameList, out: &mut Vec<u8>, x: &RawTail) -> Result<(), AllocError>
    ensures { OnOk result (out.new.items ≡ out.old.items ++ written_of names.now ending x.now) }
{
    match x {
        RawTail::Plain => sign(names, out, Sign::Semicolon),
        RawTail::Block(y) => proof_ending(alloc, names, out, y.as_slice()),
        RawTail::When(y) => when_form(alloc, names, out, y),
    }
}

/// What a local is given.
#[cycle(statements)]
#[tactic(auto, unfolding(sync_parse_programs::specs::Statements::right_side))]
fn right_side(
    alloc: Global,
    names: &NameList,
    out: &mut Vec<u8>,
    x: &RawRightSide,
) -> Result<(), AllocError>
    ensures { OnOk result (out.new.items ≡ out.old.items ++ written_of names.now right_side x.now) }
{
    match x {
        RawRightSide::Atomic(y, tail) => {
            atomic(alloc, names, out, y)?;
            ending(alloc, names, out, tail)?;
            Ok(())
        }
        RawRightSide::Read(y) => read_form(alloc, names, out, y),
        RawRightSide::Peek(y) => peek(alloc, names, out, y),
        RawRightSide::Calculated(y, named) => {
            calculated(alloc, names, out, *y)?;
            label(names, out, *named)?;
            sign(names, out, Sign::Semicolon)?;
            Ok(())
        }
    }
}

#[cycle(statements)]
#[tactic(auto, unfolding(sync_parse_programs::specs::Statements::if_form))]
fn if_form(alloc: Global, names: &NameList, out: &mut Vec<u8>, x: &RawIf) -> Result<(), AllocError>
    ensures { OnOk result (out.new.items ≡ out.old.items ++ written_of names.now if_form x.now) }
{
    sign(names, out, Sign::If)?;
    condition(alloc, names, out, x.condition)?;
    label(names, out, x.label)?;
    list(alloc, names, out, &x.yes)?;
    sign(names, out, Sign::Else)?;
    list(alloc, names, out, &x.no)?;
    joined(alloc, names, out, &x.joined)?;
    Ok(())
}

#[cycle(statements)]
#[tactic(auto, unfolding(sync_parse_programs::specs::Statements::loop_form))]
fn loop_form(
    alloc: Global,
    names: &NameList,
    out: &mut Vec<u8>,
    x: &RawLoop,
) -> Result<(), AllocError>
    ensures { OnOk result (out.new.items ≡ out.old.items ++ written_of names.now loop_form x.now) }
{
    sign(names, out, Sign::Loop)?;
    keep(alloc, names, out, &x.keep)?;
    sign(names, out, Sign::From)?;
    args(alloc, names, out, x.args.as_slice())?;
    scripts(alloc, names, out, x.scripts.as_slice())?;
    list(alloc, names, out, &x.body)?;
    behind_loop(alloc, names, out, &x.after)?;
    Ok(())
}

/// A local, `=` and what it is given.
#[cycle(statements)]
#[tactic(auto, unfolding(sync_parse_programs::specs::Statements::assignment))]
fn assignment(
    alloc: Global,
    names: &NameList,
    out: &mut Vec<u8>,
    x: &RawName,
    y: &RawRightSide,
) -> Result<(), AllocError>
    ensures { OnOk result (out.new.items ≡ out.old.items ++ written_of names.now assignment (x.now, y.now)) }
{
    name(names, out, *x)?;
    sign(names, out, Sign::Equal)?;
    right_side(alloc, names, out, y)?;
    Ok(())
}

/// What a statement does.
#[cycle(statements)]
#[tactic(auto, unfolding(sync_parse_programs::specs::Statements::statement_kind))]
fn statement_kind(
    alloc: Global,
    names: &NameList,
    out: &mut Vec<u8>,
    x: &RawStatementKind,
) -> Result<(), AllocError>
    ensures { OnOk result (out.new.items ≡ out.old.items ++ written_of names.now statement_kind x.now) }
{
    match x {
        RawStatementKind::Store(y, tail) => {
            store(alloc, names, out, y)?;
            ending(alloc, names, out, tail)?;
            Ok(())
        }
        RawStatementKind::Write(y) => write_form(alloc, names, out, y),
        RawStatementKind::Print(local, y) => print_form(alloc, names, out, local, y),
        RawStatementKind::If(y) => if_form(alloc, names, out, y),
        RawStatementKind::Loop(y) => loop_form(alloc, names, out, y),
        RawStatementKind::Next(y) => jump(alloc, names, out, Sign::Next, y),
        RawStatementKind::Break(y) => jump(alloc, names, out, Sign::Break, y),
        RawStatementKind::Meet(y) => jump(alloc, names, out, Sign::Meet, y),
        RawStatementKind::End(y) => jump(alloc, names, out, Sign::End, y),
        RawStatementKind::Proof(y) => plain_proof(alloc, names, out, y),
        RawStatementKind::Assign(local, y) => assignment(alloc, names, out, local, y),
    }
}

#[cycle(statements)]
#[tactic(auto, using(sync_print_programs::proofs::Written::statement_written), unfolding(sync_parse_programs::specs::Statements::statement))]
fn statement(
    alloc: Global,
    names: &NameList,
    out: &mut Vec<u8>,
    x: &RawStatement,
) -> Result<(), AllocError>
    ensures { OnOk result (out.new.items ≡ out.old.items ++ written_statement names.now x.now) }
{
    statement_kind(alloc, names, out, &x.what)
}
