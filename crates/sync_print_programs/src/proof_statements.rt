//! Writing proof statements and the start.
ghost use Rattle.std.specs.Prelude.{◌≡◌, ◌++◌, OnOk};
ghost use Rattle.sync_parse_programs.specs.ProofStatements.{token, tokens, do_form, kept_token, kept_tokens, closing, pair, let_form, split, merge, copy, move_form, assertion, plain_proof, opened, opening, yes, case_form, proof_kind, proof_statement, proof_block, in_squares_number};
ghost use Rattle.sync_print_programs.specs.Written.{written_of};

use crate::lexemes::{expr, name, number, sign};
use crate::lists::{NameItem, Repeated, args, in_list, in_row, label, name_list, scripts};
use std::alloc::{AllocError, Global};
use sync_base::NameList;
use sync_lex::Sign;
use sync_parse_exprs::RawName;
use sync_parse_programs::{
    RawAssert, RawCase, RawClosing, RawCopy, RawDoForm, RawLet, RawMerge, RawMove, RawOpen,
    RawPlainProof, RawProofKind, RawProofStatement, RawSplit, RawToken,
};

/// A number in square brackets.
#[tactic(auto, unfolding(sync_parse_programs::specs::ProofStatements::in_squares_number))]
pub fn in_squares_number(
    alloc: Global,
    names: &NameList,
    out: &mut Vec<u8>,
    x: u128,
) -> Result<(), AllocError>
    ensures { OnOk result (out.new.items ≡ out.old.items ++ written_of names.now in_squares_number x) }
{
    sign(names, out, Sign::OpenSquare)?;
    number(alloc, names, out, x)?;
    sign(names, out, Sign::CloseSquare)?;
    Ok(())
}

#[tactic(auto, unfolding(sync_parse_programs::specs::ProofStatements::token))]
fn token(alloc: Global, names: &NameList, out: &mut Vec<u8>, x: RawToken) -> Result<(), AllocError>
    ensures { OnOk result (out.new.items ≡ out.old.items ++ written_of names.now token x) }
{
    name(names, out, x.name)?;
    match x.at {
        Some(n) => in_squares_number(alloc, names, out, n),
        None => Ok(()),
    }
}

struct TokenItem;

impl Repeated for TokenItem {
    type Value = RawToken;

    ghost writes = { λ names. written_of names token };

    fn write(
        alloc: Global,
        names: &NameList,
        out: &mut Vec<u8>,
        x: &RawToken,
    ) -> Result<(), AllocError> {
        token(alloc, names, out, *x)
    }
}

/// Tokens in round brackets.
#[tactic(auto, unfolding(sync_parse_programs::specs::ProofStatements::tokens))]
fn tokens(
    alloc: Global,
    names: &NameList,
    out: &mut Vec<u8>,
    x: &[RawToken],
) -> Result<(), AllocError>
    ensures { OnOk result (out.new.items ≡ out.old.items ++ written_of names.now tokens x.now) }
{
    sign(names, out, Sign::OpenRound)?;
    in_list::<TokenItem>(alloc, names, out, x)?;
    sign(names, out, Sign::CloseRound)?;
    Ok(())
}

/// An operation with its tokens.
#[tactic(auto, unfolding(sync_parse_programs::specs::ProofStatements::do_form))]
pub fn do_form(
    alloc: Global,
    names: &NameList,
    out: &mut Vec<u8>,
    x: &RawDoForm,
) -> Result<(), AllocError>
    ensures { OnOk result (out.new.items ≡ out.old.items ++ written_of names.now do_form x.now) }
{
    name(names, out, x.operation)?;
    args(alloc, names, out, x.args.as_slice())?;
    tokens(alloc, names, out, x.tokens.as_slice())?;
    sign(names, out, Sign::Arrow)?;
    name_list(alloc, names, out, x.given.as_slice())?;
    label(names, out, x.label)?;
    scripts(alloc, names, out, x.scripts.as_slice())?;
    Ok(())
}

/// A token, or `no`.
#[tactic(auto, unfolding(sync_parse_programs::specs::ProofStatements::kept_token))]
fn kept_token(
    alloc: Global,
    names: &NameList,
    out: &mut Vec<u8>,
    x: Option<RawToken>,
) -> Result<(), AllocError>
    ensures { OnOk result (out.new.items ≡ out.old.items ++ written_of names.now kept_token x) }
{
    match x {
        Some(t) => token(alloc, names, out, t),
        None => sign(names, out, Sign::No),
    }
}

struct KeptTokenItem;

impl Repeated for KeptTokenItem {
    type Value = Option<RawToken>;

    ghost writes = { λ names. written_of names kept_token };

    fn write(
        alloc: Global,
        names: &NameList,
        out: &mut Vec<u8>,
        x: &Option<RawToken>,
    ) -> Result<(), AllocError> {
        kept_token(alloc, names, out, *x)
    }
}

/// A token or `no` for each clause of a word.
#[tactic(auto, unfolding(sync_parse_programs::specs::ProofStatements::kept_tokens))]
fn kept_tokens(
    alloc: Global,
    names: &NameList,
    out: &mut Vec<u8>,
    x: &[Option<RawToken>],
) -> Result<(), AllocError>
    ensures { OnOk result (out.new.items ≡ out.old.items ++ written_of names.now kept_tokens x.now) }
{
    sign(names, out, Sign::OpenSquare)?;
    in_list::<KeptTokenItem>(alloc, names, out, x)?;
    sign(names, out, Sign::CloseSquare)?;
    Ok(())
}

/// Arguments, kept tokens and scripts, as an opened word is closed with them.
#[tactic(auto, unfolding(sync_parse_programs::specs::ProofStatements::closing))]
pub fn closing(
    alloc: Global,
    names: &NameList,
    out: &mut Vec<u8>,
    x: &RawClosing,
) -> Result<(), AllocError>
    ensures { OnOk result (out.new.items ≡ out.old.items ++ written_of names.now closing x.now) }
{
    args(alloc, names, out, x.args.as_slice())?;
    kept_tokens(alloc, names, out, x.tokens.as_slice())?;
    scripts(alloc, names, out, x.scripts.as_slice())?;
    Ok(())
}

/// Two names in round brackets.
#[tactic(auto, unfolding(sync_parse_programs::specs::ProofStatements::pair))]
fn pair(names: &NameList, out: &mut Vec<u8>, x: RawName, y: RawName) -> Result<(), AllocError>
    ensures { OnOk result (out.new.items ≡ out.old.items ++ written_of names.now pair (x, y)) }
{
    sign(names, out, Sign::OpenRound)?;
    name(names, out, x)?;
    sign(names, out, Sign::Comma)?;
    name(names, out, y)?;
    sign(names, out, Sign::CloseRound)?;
    Ok(())
}

#[tactic(auto, unfolding(sync_parse_programs::specs::ProofStatements::let_form))]
fn let_form(
    alloc: Global,
    names: &NameList,
    out: &mut Vec<u8>,
    x: &RawLet,
) -> Result<(), AllocError>
    ensures { OnOk result (out.new.items ≡ out.old.items ++ written_of names.now let_form x.now) }
{
    sign(names, out, Sign::Let)?;
    name(names, out, x.name)?;
    sign(names, out, Sign::Equal)?;
    expr(alloc, names, out, &x.value)?;
    sign(names, out, Sign::Semicolon)?;
    Ok(())
}

#[tactic(auto, unfolding(sync_parse_programs::specs::ProofStatements::split))]
fn split(alloc: Global, names: &NameList, out: &mut Vec<u8>, x: &RawSplit) -> Result<(), AllocError>
    ensures { OnOk result (out.new.items ≡ out.old.items ++ written_of names.now split x.now) }
{
    sign(names, out, Sign::Split)?;
    name(names, out, x.token)?;
    sign(names, out, Sign::Arrow)?;
    pair(names, out, x.first, x.second)?;
    expr(alloc, names, out, &x.amount)?;
    scripts(alloc, names, out, x.scripts.as_slice())?;
    sign(names, out, Sign::Semicolon)?;
    Ok(())
}

#[tactic(auto, unfolding(sync_parse_programs::specs::ProofStatements::merge))]
fn merge(names: &NameList, out: &mut Vec<u8>, x: RawMerge) -> Result<(), AllocError>
    ensures { OnOk result (out.new.items ≡ out.old.items ++ written_of names.now merge x) }
{
    sign(names, out, Sign::Merge)?;
    pair(names, out, x.first, x.second)?;
    sign(names, out, Sign::Arrow)?;
    name(names, out, x.given)?;
    sign(names, out, Sign::Semicolon)?;
    Ok(())
}

#[tactic(auto, unfolding(sync_parse_programs::specs::ProofStatements::copy))]
fn copy(names: &NameList, out: &mut Vec<u8>, x: RawCopy) -> Result<(), AllocError>
    ensures { OnOk result (out.new.items ≡ out.old.items ++ written_of names.now copy x) }
{
    sign(names, out, Sign::Copy)?;
    name(names, out, x.token)?;
    sign(names, out, Sign::Arrow)?;
    name(names, out, x.given)?;
    sign(names, out, Sign::Semicolon)?;
    Ok(())
}

#[tactic(auto, unfolding(sync_parse_programs::specs::ProofStatements::move_form))]
fn move_form(
    alloc: Global,
    names: &NameList,
    out: &mut Vec<u8>,
    x: RawMove,
) -> Result<(), AllocError>
    ensures { OnOk result (out.new.items ≡ out.old.items ++ written_of names.now move_form x) }
{
    sign(names, out, Sign::Move)?;
    token(alloc, names, out, x.token)?;
    sign(names, out, Sign::Arrow)?;
    name(names, out, x.given)?;
    sign(names, out, Sign::Semicolon)?;
    Ok(())
}

#[tactic(auto, unfolding(sync_parse_programs::specs::ProofStatements::assertion))]
fn assertion(
    alloc: Global,
    names: &NameList,
    out: &mut Vec<u8>,
    x: &RawAssert,
) -> Result<(), AllocError>
    ensures { OnOk result (out.new.items ≡ out.old.items ++ written_of names.now assertion x.now) }
{
    sign(names, out, Sign::Assert)?;
    expr(alloc, names, out, &x.form)?;
    label(names, out, x.label)?;
    scripts(alloc, names, out, x.scripts.as_slice())?;
    sign(names, out, Sign::Semicolon)?;
    Ok(())
}

/// A proof statement that may stand anywhere.
#[tactic(auto, unfolding(sync_parse_programs::specs::ProofStatements::plain_proof))]
pub fn plain_proof(
    alloc: Global,
    names: &NameList,
    out: &mut Vec<u8>,
    x: &RawPlainProof,
) -> Result<(), AllocError>
    ensures { OnOk result (out.new.items ≡ out.old.items ++ written_of names.now plain_proof x.now) }
{
    match x {
        RawPlainProof::Let(y) => let_form(alloc, names, out, y),
        RawPlainProof::Do(y) => {
            sign(names, out, Sign::Do)?;
            do_form(alloc, names, out, y)?;
            sign(names, out, Sign::Semicolon)?;
            Ok(())
        }
        RawPlainProof::Split(y) => split(alloc, names, out, y),
        RawPlainProof::Merge(y) => merge(names, out, *y),
        RawPlainProof::Copy(y) => copy(names, out, *y),
        RawPlainProof::Move(y) => move_form(alloc, names, out, *y),
        RawPlainProof::Assert(y) => assertion(alloc, names, out, y),
    }
}

/// Names in square brackets.
#[tactic(auto, unfolding(sync_parse_programs::specs::ProofStatements::opened))]
fn opened(
    alloc: Global,
    names: &NameList,
    out: &mut Vec<u8>,
    x: &[RawName],
) -> Result<(), AllocError>
    ensures { OnOk result (out.new.items ≡ out.old.items ++ written_of names.now opened x.now) }
{
    sign(names, out, Sign::OpenSquare)?;
    in_list::<NameItem>(alloc, names, out, x)?;
    sign(names, out, Sign::CloseSquare)?;
    Ok(())
}

#[tactic(auto, unfolding(sync_parse_programs::specs::ProofStatements::opening))]
fn opening(
    alloc: Global,
    names: &NameList,
    out: &mut Vec<u8>,
    x: &RawOpen,
) -> Result<(), AllocError>
    ensures { OnOk result (out.new.items ≡ out.old.items ++ written_of names.now opening x.now) }
{
    sign(names, out, Sign::Open)?;
    name_list(alloc, names, out, x.names.as_slice())?;
    opened(alloc, names, out, x.tokens.as_slice())?;
    label(names, out, x.label)?;
    sign(names, out, Sign::Semicolon)?;
    Ok(())
}

/// `yes` and a name, or `no`.
#[tactic(auto, unfolding(sync_parse_programs::specs::ProofStatements::yes))]
fn yes(names: &NameList, out: &mut Vec<u8>, x: Option<RawName>) -> Result<(), AllocError>
    ensures { OnOk result (out.new.items ≡ out.old.items ++ written_of names.now yes x) }
{
    match x {
        Some(named) => {
            sign(names, out, Sign::Yes)?;
            name(names, out, named)?;
            Ok(())
        }
        None => sign(names, out, Sign::No),
    }
}

#[tactic(auto, unfolding(sync_parse_programs::specs::ProofStatements::case_form))]
fn case_form(
    alloc: Global,
    names: &NameList,
    out: &mut Vec<u8>,
    x: &RawCase,
) -> Result<(), AllocError>
    ensures { OnOk result (out.new.items ≡ out.old.items ++ written_of names.now case_form x.now) }
{
    sign(names, out, Sign::Case)?;
    number(alloc, names, out, x.clause)?;
    yes(names, out, x.yes)?;
    scripts(alloc, names, out, x.scripts.as_slice())?;
    sign(names, out, Sign::Semicolon)?;
    Ok(())
}

/// What a statement of a proof block does.
#[tactic(auto, unfolding(sync_parse_programs::specs::ProofStatements::proof_kind))]
fn proof_kind(
    alloc: Global,
    names: &NameList,
    out: &mut Vec<u8>,
    x: &RawProofKind,
) -> Result<(), AllocError>
    ensures { OnOk result (out.new.items ≡ out.old.items ++ written_of names.now proof_kind x.now) }
{
    match x {
        RawProofKind::Plain(y) => plain_proof(alloc, names, out, y),
        RawProofKind::Open(y) => opening(alloc, names, out, y),
        RawProofKind::Case(y) => case_form(alloc, names, out, y),
        RawProofKind::Close(y) => {
            sign(names, out, Sign::Close)?;
            closing(alloc, names, out, y)?;
            sign(names, out, Sign::Semicolon)?;
            Ok(())
        }
        RawProofKind::Still(y) => {
            sign(names, out, Sign::Still)?;
            scripts(alloc, names, out, y.as_slice())?;
            sign(names, out, Sign::Semicolon)?;
            Ok(())
        }
    }
}

/// A statement of a proof block.
#[tactic(auto, unfolding(sync_parse_programs::specs::ProofStatements::proof_statement))]
fn proof_statement(
    alloc: Global,
    names: &NameList,
    out: &mut Vec<u8>,
    x: &RawProofStatement,
) -> Result<(), AllocError>
    ensures { OnOk result (out.new.items ≡ out.old.items ++ written_of names.now proof_statement x.now) }
{
    proof_kind(alloc, names, out, &x.what)
}

struct ProofItem;

impl Repeated for ProofItem {
    type Value = RawProofStatement;

    ghost writes = { λ names. written_of names proof_statement };

    fn write(
        alloc: Global,
        names: &NameList,
        out: &mut Vec<u8>,
        x: &RawProofStatement,
    ) -> Result<(), AllocError> {
        proof_statement(alloc, names, out, x)
    }
}

/// Proof statements in braces.
#[tactic(auto, unfolding(sync_parse_programs::specs::ProofStatements::proof_block))]
pub fn proof_block(
    alloc: Global,
    names: &NameList,
    out: &mut Vec<u8>,
    x: &[RawProofStatement],
) -> Result<(), AllocError>
    ensures { OnOk result (out.new.items ≡ out.old.items ++ written_of names.now proof_block x.now) }
{
    sign(names, out, Sign::OpenBrace)?;
    in_row::<ProofItem>(alloc, names, out, x)?;
    sign(names, out, Sign::CloseBrace)?;
    Ok(())
}
