//! Reading proof statements. `left` is 65 less the number of brackets that are open.
ghost use Rattle.std.specs.Prelude.{◌≡◌};
ghost use Rattle.sync_parse_exprs.specs.Faults.{Reads};
ghost use Rattle.sync_parse_exprs.specs.Terminals.{goes_on};
ghost use Rattle.sync_parse_forms.specs.Readings.{tests};
ghost use Rattle.sync_parse_programs.specs.ProofStatements.{in_squares_number, token, tokens, do_form, kept_token, kept_tokens, closing, pair, let_form, split, merge, copy, move_form, assertion, at_plain_proof, plain_proof, opened, opening, yes, case_form, proof_kind, proof_statement, proof_block};
ghost use Rattle.sync_parse_programs.specs.Programs.{read};

use crate::lists::{NameItem, args, in_brackets, label, names, scripts};
use crate::proof_statements::{
    RawAssert, RawCase, RawClosing, RawCopy, RawDoForm, RawLet, RawMerge, RawMove, RawOpen,
    RawPlainProof, RawProofKind, RawProofStatement, RawSplit, RawToken,
};
use sqlite_items::Items;
use std::alloc::Global;
use sync_lex::{Sign, Terminal};
use sync_parse_exprs::{RawName, Read, begins_with, expr, first_line, goes_on, name, number, sign};
use sync_parse_forms::{ListItem, RowItem, begins_name, in_row};

// ---- tokens

/// A number in square brackets.
#[tactic(auto, unfolding(crate::specs::ProofStatements::in_squares_number))]
pub fn in_squares_number<'a>(terminals: &'a [Terminal], left: u32) -> Read<'a, u128>
    ensures { Reads (λ x. (x.0, x.1.now)) result (read in_squares_number left terminals.now) }
{
    let (_, rest) = sign(terminals, left, Sign::OpenSquare)?;
    let (number, rest) = number(rest, left - 1)?;
    let (_, rest) = sign(rest, left - 1, Sign::CloseSquare)?;
    Ok((number, rest))
}

/// A token's name, and a number in square brackets where they begin.
#[tactic(auto, unfolding(crate::specs::ProofStatements::token))]
fn token<'a>(terminals: &'a [Terminal], left: u32) -> Read<'a, RawToken>
    ensures { Reads (λ x. (x.0, x.1.now)) result (read token left terminals.now) }
{
    let (name, rest) = name(terminals, left)?;
    if begins_with(rest, Sign::OpenSquare) {
        let (at, rest) = in_squares_number(rest, left)?;
        return Ok((RawToken { name, at: Some(at) }, rest));
    }
    Ok((RawToken { name, at: None }, rest))
}

struct TokenItem;

impl ListItem for TokenItem {
    type Value = RawToken;

    ghost reads = { read token };

    fn read<'a>(_alloc: Global, terminals: &'a [Terminal], left: u32) -> Read<'a, RawToken> {
        token(terminals, left)
    }
}

#[tactic(auto, unfolding(crate::specs::ProofStatements::tokens))]
fn tokens<'a>(alloc: Global, terminals: &'a [Terminal], left: u32) -> Read<'a, Items<RawToken>>
    ensures { Reads (λ x. (x.0, x.1.now)) result (read tokens left terminals.now) }
{
    in_brackets::<TokenItem>(alloc, terminals, left, Sign::OpenRound, Sign::CloseRound)
}

/// A token, or `no`.
#[tactic(auto, unfolding(crate::specs::ProofStatements::kept_token))]
fn kept_token<'a>(terminals: &'a [Terminal], left: u32) -> Read<'a, Option<RawToken>>
    ensures { Reads (λ x. (x.0, x.1.now)) result (read kept_token left terminals.now) }
{
    if begins_name(terminals) {
        let (token, rest) = token(terminals, left)?;
        return Ok((Some(token), rest));
    }
    let (_, rest) = sign(terminals, left, Sign::No)?;
    Ok((None, rest))
}

struct KeptItem;

impl ListItem for KeptItem {
    type Value = Option<RawToken>;

    ghost reads = { read kept_token };

    fn read<'a>(
        _alloc: Global,
        terminals: &'a [Terminal],
        left: u32,
    ) -> Read<'a, Option<RawToken>> {
        kept_token(terminals, left)
    }
}

#[tactic(auto, unfolding(crate::specs::ProofStatements::kept_tokens))]
fn kept_tokens<'a>(
    alloc: Global,
    terminals: &'a [Terminal],
    left: u32,
) -> Read<'a, Items<Option<RawToken>>>
    ensures { Reads (λ x. (x.0, x.1.now)) result (read kept_tokens left terminals.now) }
{
    in_brackets::<KeptItem>(alloc, terminals, left, Sign::OpenSquare, Sign::CloseSquare)
}

// ---- operations and closings

/// An operation with its arguments, the tokens that it takes and gives, its label and scripts.
#[tactic(auto, unfolding(crate::specs::ProofStatements::do_form))]
pub fn do_form<'a>(alloc: Global, terminals: &'a [Terminal], left: u32) -> Read<'a, RawDoForm>
    ensures { Reads (λ x. (x.0, x.1.now)) result (read do_form left terminals.now) }
{
    let (operation, rest) = name(terminals, left)?;
    let (args, rest) = args(alloc, rest, left)?;
    let (tokens, rest) = tokens(alloc, rest, left)?;
    let (_, rest) = sign(rest, left, Sign::Arrow)?;
    let (given, rest) = names(alloc, rest, left)?;
    let (label, rest) = label(rest, left)?;
    let (scripts, rest) = scripts(alloc, rest, left)?;
    Ok((
        RawDoForm {
            operation,
            args,
            tokens,
            given,
            label,
            scripts,
        },
        rest,
    ))
}

#[tactic(auto, unfolding(crate::specs::ProofStatements::closing))]
pub fn closing<'a>(alloc: Global, terminals: &'a [Terminal], left: u32) -> Read<'a, RawClosing>
    ensures { Reads (λ x. (x.0, x.1.now)) result (read closing left terminals.now) }
{
    let (args, rest) = args(alloc, terminals, left)?;
    let (tokens, rest) = kept_tokens(alloc, rest, left)?;
    let (scripts, rest) = scripts(alloc, rest, left)?;
    Ok((
        RawClosing {
            args,
            tokens,
            scripts,
        },
        rest,
    ))
}

// ---- plain proof statements

/// Two names in round brackets.
#[tactic(auto, unfolding(crate::specs::ProofStatements::pair))]
fn pair<'a>(terminals: &'a [Terminal], left: u32) -> Read<'a, (RawName, RawName)>
    ensures { Reads (λ x. (x.0, x.1.now)) result (read pair left terminals.now) }
{
    let (_, rest) = sign(terminals, left, Sign::OpenRound)?;
    let (first, rest) = name(rest, left - 1)?;
    let (_, rest) = sign(rest, left - 1, Sign::Comma)?;
    let (second, rest) = name(rest, left - 1)?;
    let (_, rest) = sign(rest, left - 1, Sign::CloseRound)?;
    Ok(((first, second), rest))
}

#[tactic(auto, unfolding(crate::specs::ProofStatements::let_form, crate::specs::Known::expr))]
fn let_form<'a>(alloc: Global, terminals: &'a [Terminal], left: u32) -> Read<'a, RawLet>
    ensures { Reads (λ x. (x.0, x.1.now)) result (read let_form left terminals.now) }
{
    let (_, rest) = sign(terminals, left, Sign::Let)?;
    let (name, rest) = name(rest, left)?;
    let (_, rest) = sign(rest, left, Sign::Equal)?;
    let (value, rest) = expr(alloc, rest, left)?;
    let (_, rest) = sign(rest, left, Sign::Semicolon)?;
    Ok((RawLet { name, value }, rest))
}

#[tactic(auto, unfolding(crate::specs::ProofStatements::split, crate::specs::Known::expr))]
fn split<'a>(alloc: Global, terminals: &'a [Terminal], left: u32) -> Read<'a, RawSplit>
    ensures { Reads (λ x. (x.0, x.1.now)) result (read split left terminals.now) }
{
    let (_, rest) = sign(terminals, left, Sign::Split)?;
    let (token, rest) = name(rest, left)?;
    let (_, rest) = sign(rest, left, Sign::Arrow)?;
    let ((first, second), rest) = pair(rest, left)?;
    let (amount, rest) = expr(alloc, rest, left)?;
    let (scripts, rest) = scripts(alloc, rest, left)?;
    let (_, rest) = sign(rest, left, Sign::Semicolon)?;
    Ok((
        RawSplit {
            token,
            first,
            second,
            amount,
            scripts,
        },
        rest,
    ))
}

#[tactic(auto, unfolding(crate::specs::ProofStatements::merge))]
fn merge<'a>(terminals: &'a [Terminal], left: u32) -> Read<'a, RawMerge>
    ensures { Reads (λ x. (x.0, x.1.now)) result (read merge left terminals.now) }
{
    let (_, rest) = sign(terminals, left, Sign::Merge)?;
    let ((first, second), rest) = pair(rest, left)?;
    let (_, rest) = sign(rest, left, Sign::Arrow)?;
    let (given, rest) = name(rest, left)?;
    let (_, rest) = sign(rest, left, Sign::Semicolon)?;
    Ok((
        RawMerge {
            first,
            second,
            given,
        },
        rest,
    ))
}

#[tactic(auto, unfolding(crate::specs::ProofStatements::copy))]
fn copy<'a>(terminals: &'a [Terminal], left: u32) -> Read<'a, RawCopy>
    ensures { Reads (λ x. (x.0, x.1.now)) result (read copy left terminals.now) }
{
    let (_, rest) = sign(terminals, left, Sign::Copy)?;
    let (token, rest) = name(rest, left)?;
    let (_, rest) = sign(rest, left, Sign::Arrow)?;
    let (given, rest) = name(rest, left)?;
    let (_, rest) = sign(rest, left, Sign::Semicolon)?;
    Ok((RawCopy { token, given }, rest))
}

#[tactic(auto, unfolding(crate::specs::ProofStatements::move_form))]
fn move_form<'a>(terminals: &'a [Terminal], left: u32) -> Read<'a, RawMove>
    ensures { Reads (λ x. (x.0, x.1.now)) result (read move_form left terminals.now) }
{
    let (_, rest) = sign(terminals, left, Sign::Move)?;
    let (token, rest) = token(rest, left)?;
    let (_, rest) = sign(rest, left, Sign::Arrow)?;
    let (given, rest) = name(rest, left)?;
    let (_, rest) = sign(rest, left, Sign::Semicolon)?;
    Ok((RawMove { token, given }, rest))
}

#[tactic(auto, unfolding(crate::specs::ProofStatements::assertion, crate::specs::Known::expr))]
fn assertion<'a>(alloc: Global, terminals: &'a [Terminal], left: u32) -> Read<'a, RawAssert>
    ensures { Reads (λ x. (x.0, x.1.now)) result (read assertion left terminals.now) }
{
    let (_, rest) = sign(terminals, left, Sign::Assert)?;
    let (form, rest) = expr(alloc, rest, left)?;
    let (label, rest) = label(rest, left)?;
    let (scripts, rest) = scripts(alloc, rest, left)?;
    let (_, rest) = sign(rest, left, Sign::Semicolon)?;
    Ok((
        RawAssert {
            form,
            label,
            scripts,
        },
        rest,
    ))
}

/// Whether a plain proof statement begins here.
pub fn begins_plain_proof(terminals: &[Terminal]) -> bool
    ensures { result ≡ tests at_plain_proof terminals.now }
{
    begins_with(terminals, Sign::Let)
        || begins_with(terminals, Sign::Do)
        || begins_with(terminals, Sign::Split)
        || begins_with(terminals, Sign::Merge)
        || begins_with(terminals, Sign::Copy)
        || begins_with(terminals, Sign::Move)
        || begins_with(terminals, Sign::Assert)
}

/// A proof statement that may stand in the start, in a proof block and among statements.
#[tactic(auto, unfolding(crate::specs::ProofStatements::plain_proof))]
pub fn plain_proof<'a>(
    alloc: Global,
    terminals: &'a [Terminal],
    left: u32,
) -> Read<'a, RawPlainProof>
    ensures { Reads (λ x. (x.0, x.1.now)) result (read plain_proof left terminals.now) }
{
    if begins_with(terminals, Sign::Let) {
        let (bound, rest) = let_form(alloc, terminals, left)?;
        Ok((RawPlainProof::Let(bound), rest))
    } else if begins_with(terminals, Sign::Do) {
        let (_, rest) = sign(terminals, left, Sign::Do)?;
        let (done, rest) = do_form(alloc, rest, left)?;
        let (_, rest) = sign(rest, left, Sign::Semicolon)?;
        Ok((RawPlainProof::Do(done), rest))
    } else if begins_with(terminals, Sign::Split) {
        let (split, rest) = split(alloc, terminals, left)?;
        Ok((RawPlainProof::Split(split), rest))
    } else if begins_with(terminals, Sign::Merge) {
        let (merge, rest) = merge(terminals, left)?;
        Ok((RawPlainProof::Merge(merge), rest))
    } else if begins_with(terminals, Sign::Copy) {
        let (copy, rest) = copy(terminals, left)?;
        Ok((RawPlainProof::Copy(copy), rest))
    } else if begins_with(terminals, Sign::Move) {
        let (moved, rest) = move_form(terminals, left)?;
        Ok((RawPlainProof::Move(moved), rest))
    } else {
        let (assertion, rest) = assertion(alloc, terminals, left)?;
        Ok((RawPlainProof::Assert(assertion), rest))
    }
}

// ---- proof blocks

/// Names in square brackets.
#[tactic(auto, unfolding(crate::specs::ProofStatements::opened))]
fn opened<'a>(alloc: Global, terminals: &'a [Terminal], left: u32) -> Read<'a, Items<RawName>>
    ensures { Reads (λ x. (x.0, x.1.now)) result (read opened left terminals.now) }
{
    in_brackets::<NameItem>(alloc, terminals, left, Sign::OpenSquare, Sign::CloseSquare)
}

#[tactic(auto, unfolding(crate::specs::ProofStatements::opening))]
fn opening<'a>(alloc: Global, terminals: &'a [Terminal], left: u32) -> Read<'a, RawOpen>
    ensures { Reads (λ x. (x.0, x.1.now)) result (read opening left terminals.now) }
{
    let (_, rest) = sign(terminals, left, Sign::Open)?;
    let (names, rest) = names(alloc, rest, left)?;
    let (tokens, rest) = opened(alloc, rest, left)?;
    let (label, rest) = label(rest, left)?;
    let (_, rest) = sign(rest, left, Sign::Semicolon)?;
    Ok((
        RawOpen {
            names,
            tokens,
            label,
        },
        rest,
    ))
}

/// `yes` and a name, or `no`.
#[tactic(auto, unfolding(crate::specs::ProofStatements::yes))]
fn yes<'a>(terminals: &'a [Terminal], left: u32) -> Read<'a, Option<RawName>>
    ensures { Reads (λ x. (x.0, x.1.now)) result (read yes left terminals.now) }
{
    if begins_with(terminals, Sign::Yes) {
        let (_, rest) = sign(terminals, left, Sign::Yes)?;
        let (token, rest) = name(rest, left)?;
        return Ok((Some(token), rest));
    }
    let (_, rest) = sign(terminals, left, Sign::No)?;
    Ok((None, rest))
}

#[tactic(auto, unfolding(crate::specs::ProofStatements::case_form))]
fn case_form<'a>(alloc: Global, terminals: &'a [Terminal], left: u32) -> Read<'a, RawCase>
    ensures { Reads (λ x. (x.0, x.1.now)) result (read case_form left terminals.now) }
{
    let (_, rest) = sign(terminals, left, Sign::Case)?;
    let (clause, rest) = number(rest, left)?;
    let (yes, rest) = yes(rest, left)?;
    let (scripts, rest) = scripts(alloc, rest, left)?;
    let (_, rest) = sign(rest, left, Sign::Semicolon)?;
    Ok((
        RawCase {
            clause,
            yes,
            scripts,
        },
        rest,
    ))
}

#[tactic(auto, unfolding(crate::specs::ProofStatements::proof_kind))]
fn proof_kind<'a>(alloc: Global, terminals: &'a [Terminal], left: u32) -> Read<'a, RawProofKind>
    ensures { Reads (λ x. (x.0, x.1.now)) result (read proof_kind left terminals.now) }
{
    if begins_plain_proof(terminals) {
        let (plain, rest) = plain_proof(alloc, terminals, left)?;
        Ok((RawProofKind::Plain(plain), rest))
    } else if begins_with(terminals, Sign::Open) {
        let (opening, rest) = opening(alloc, terminals, left)?;
        Ok((RawProofKind::Open(opening), rest))
    } else if begins_with(terminals, Sign::Case) {
        let (case, rest) = case_form(alloc, terminals, left)?;
        Ok((RawProofKind::Case(case), rest))
    } else if begins_with(terminals, Sign::Close) {
        let (_, rest) = sign(terminals, left, Sign::Close)?;
        let (closing, rest) = closing(alloc, rest, left)?;
        let (_, rest) = sign(rest, left, Sign::Semicolon)?;
        Ok((RawProofKind::Close(closing), rest))
    } else {
        let (_, rest) = sign(terminals, left, Sign::Still)?;
        let (scripts, rest) = scripts(alloc, rest, left)?;
        let (_, rest) = sign(rest, left, Sign::Semicolon)?;
        Ok((RawProofKind::Still(scripts), rest))
    }
}

#[tactic(auto, unfolding(crate::specs::ProofStatements::proof_statement))]
fn proof_statement<'a>(
    alloc: Global,
    terminals: &'a [Terminal],
    left: u32,
) -> Read<'a, RawProofStatement>
    ensures { Reads (λ x. (x.0, x.1.now)) result (read proof_statement left terminals.now) }
{
    let line = first_line(terminals);
    let (what, rest) = proof_kind(alloc, terminals, left)?;
    Ok((RawProofStatement { what, line }, rest))
}

struct ProofItem;

impl RowItem for ProofItem {
    type Value = RawProofStatement;

    ghost begins = { goes_on };

    ghost reads = { read proof_statement };

    fn begins(terminals: &[Terminal]) -> bool {
        goes_on(terminals)
    }

    fn read<'a>(
        alloc: Global,
        terminals: &'a [Terminal],
        left: u32,
    ) -> Read<'a, RawProofStatement> {
        proof_statement(alloc, terminals, left)
    }
}

/// Proof statements in braces.
#[tactic(auto, unfolding(crate::specs::ProofStatements::proof_block))]
pub fn proof_block<'a>(
    alloc: Global,
    terminals: &'a [Terminal],
    left: u32,
) -> Read<'a, Items<RawProofStatement>>
    ensures { Reads (λ x. (x.0, x.1.now)) result (read proof_block left terminals.now) }
{
    let (_, rest) = sign(terminals, left, Sign::OpenBrace)?;
    let (statements, rest) = in_row::<ProofItem>(alloc, rest, left - 1)?;
    let (_, rest) = sign(rest, left - 1, Sign::CloseBrace)?;
    Ok((statements, rest))
}
