//! Writing shapes, keeps, words and cells.
ghost use Rattle.std.specs.Prelude.{◌≡◌, ◌++◌, Option, OnOk};
ghost use Rattle.sync_lex.specs.declared.signs.Sign.TheVariants as sign;
ghost use Rattle.sync_parse_exprs.specs.declared.raw_names.RawName.{RawName};
ghost use Rattle.sync_parse_forms.specs.Codes.{at_name, at_sign, a_name, nothing, row};
ghost use Rattle.sync_parse_programs.specs.Known.{either_or_none, braces, ◌∘◌, ◌▸◌};
ghost use Rattle.sync_parse_programs.specs.ProofStatements.{pattern, place, shape, keep_line, keep_fact, keep, guard, clause, in_squares, with_names, word_fact, word, cell, declaration};
ghost use Rattle.sync_print_programs.specs.Written.{written_of};

use crate::lexemes::{expr, name, sign};
use crate::lists::{Repeated, in_row, label, name_list, numbered};
use sqlite_items::Items;
use std::alloc::{AllocError, Global};
use sync_base::NameList;
use sync_lex::Sign;
use sync_parse::{RawPattern, RawPlace};
use sync_parse_exprs::{RawExpr, RawName};
use sync_parse_programs::{
    RawCell, RawClause, RawDeclaration, RawKeep, RawKeepFact, RawKeepLine, RawNumber, RawShape,
    RawWord,
};

#[tactic(auto, unfolding(sync_parse_programs::specs::ProofStatements::pattern))]
fn pattern(
    alloc: Global,
    names: &NameList,
    out: &mut Vec<u8>,
    x: &RawPattern,
) -> Result<(), AllocError>
    ensures { OnOk result (out.new.items ≡ out.old.items ++ written_of names.now pattern x.now) }
{
    match x {
        RawPattern::Bind(named) => {
            sign(names, out, Sign::Question)?;
            name(names, out, *named)?;
            Ok(())
        }
        RawPattern::Term(e) => expr(alloc, names, out, e),
    }
}

#[tactic(auto, unfolding(sync_parse_programs::specs::ProofStatements::place))]
fn place(alloc: Global, names: &NameList, out: &mut Vec<u8>, x: &RawPlace) -> Result<(), AllocError>
    ensures { OnOk result (out.new.items ≡ out.old.items ++ written_of names.now place x.now) }
{
    match x {
        RawPlace::Value(p) => {
            sign(names, out, Sign::OpenRound)?;
            pattern(alloc, names, out, p)?;
            sign(names, out, Sign::CloseRound)?;
            Ok(())
        }
        RawPlace::Key(e) => {
            sign(names, out, Sign::OpenSquare)?;
            expr(alloc, names, out, e)?;
            sign(names, out, Sign::CloseSquare)?;
            Ok(())
        }
        RawPlace::Entry(e, p) => {
            sign(names, out, Sign::OpenSquare)?;
            expr(alloc, names, out, e)?;
            sign(names, out, Sign::MapsTo)?;
            pattern(alloc, names, out, p)?;
            sign(names, out, Sign::CloseSquare)?;
            Ok(())
        }
    }
}

/// A field, or `perm`.
fn field(names: &NameList, out: &mut Vec<u8>, x: Option<RawName>) -> Result<(), AllocError>
    ensures { OnOk result (out.new.items ≡ out.old.items ++ written_of names.now (either_or_none at_name a_name (sign.Perm ▸ nothing)) x) }
{
    match x {
        Some(field) => name(names, out, field),
        None => sign(names, out, Sign::Perm),
    }
}

#[tactic(auto, unfolding(sync_parse_programs::specs::ProofStatements::shape))]
pub(crate) fn shape(
    alloc: Global,
    names: &NameList,
    out: &mut Vec<u8>,
    x: &RawShape,
) -> Result<(), AllocError>
    ensures { OnOk result (out.new.items ≡ out.old.items ++ written_of names.now shape x.now) }
{
    field(names, out, x.field)?;
    place(alloc, names, out, &x.place)?;
    Ok(())
}

/// A token that a keep names.
#[tactic(auto, unfolding(sync_parse_programs::specs::ProofStatements::keep_line))]
fn keep_line(
    alloc: Global,
    names: &NameList,
    out: &mut Vec<u8>,
    x: &RawKeepLine,
) -> Result<(), AllocError>
    ensures { OnOk result (out.new.items ≡ out.old.items ++ written_of names.now keep_line x.now) }
{
    name(names, out, x.name)?;
    sign(names, out, Sign::Colon)?;
    shape(alloc, names, out, &x.shape)?;
    sign(names, out, Sign::Semicolon)?;
    Ok(())
}

/// A formula that a keep states.
#[tactic(auto, unfolding(sync_parse_programs::specs::ProofStatements::keep_fact))]
fn keep_fact(
    alloc: Global,
    names: &NameList,
    out: &mut Vec<u8>,
    x: &RawKeepFact,
) -> Result<(), AllocError>
    ensures { OnOk result (out.new.items ≡ out.old.items ++ written_of names.now keep_fact x.now) }
{
    sign(names, out, Sign::Fact)?;
    expr(alloc, names, out, &x.form)?;
    label(names, out, x.label)?;
    sign(names, out, Sign::Semicolon)?;
    Ok(())
}

struct KeepLineItem;

impl Repeated for KeepLineItem {
    type Value = RawKeepLine;

    ghost writes = { λ names. written_of names keep_line };

    fn write(
        alloc: Global,
        names: &NameList,
        out: &mut Vec<u8>,
        x: &RawKeepLine,
    ) -> Result<(), AllocError> {
        keep_line(alloc, names, out, x)
    }
}

struct KeepFactItem;

impl Repeated for KeepFactItem {
    type Value = RawKeepFact;

    ghost writes = { λ names. written_of names keep_fact };

    fn write(
        alloc: Global,
        names: &NameList,
        out: &mut Vec<u8>,
        x: &RawKeepFact,
    ) -> Result<(), AllocError> {
        keep_fact(alloc, names, out, x)
    }
}

/// What a keep says of tokens and values.
fn keep_body(
    alloc: Global,
    names: &NameList,
    out: &mut Vec<u8>,
    x: &[RawKeepLine],
    y: &[RawKeepFact],
) -> Result<(), AllocError>
    ensures { OnOk result (out.new.items ≡ out.old.items ++ written_of names.now (braces (row at_name keep_line ∘ row (at_sign sign.Fact) keep_fact)) (x.now, y.now)) }
{
    sign(names, out, Sign::OpenBrace)?;
    in_row::<KeepLineItem>(alloc, names, out, x)?;
    in_row::<KeepFactItem>(alloc, names, out, y)?;
    sign(names, out, Sign::CloseBrace)?;
    Ok(())
}

/// The tokens and facts that a keep lists, in braces.
#[tactic(auto, unfolding(sync_parse_programs::specs::ProofStatements::keep))]
pub fn keep(
    alloc: Global,
    names: &NameList,
    out: &mut Vec<u8>,
    x: &RawKeep,
) -> Result<(), AllocError>
    ensures { OnOk result (out.new.items ≡ out.old.items ++ written_of names.now keep x.now) }
{
    name_list(alloc, names, out, x.names.as_slice())?;
    keep_body(alloc, names, out, x.lines.as_slice(), x.facts.as_slice())?;
    Ok(())
}

/// The guard of a clause, or nothing.
#[tactic(auto, unfolding(sync_parse_programs::specs::ProofStatements::guard))]
fn guard(
    alloc: Global,
    names: &NameList,
    out: &mut Vec<u8>,
    x: &Option<RawExpr>,
) -> Result<(), AllocError>
    ensures { OnOk result (out.new.items ≡ out.old.items ++ written_of names.now guard x.now) }
{
    match x {
        Some(e) => {
            sign(names, out, Sign::When)?;
            expr(alloc, names, out, e)?;
            Ok(())
        }
        None => Ok(()),
    }
}

#[tactic(auto, unfolding(sync_parse_programs::specs::ProofStatements::clause))]
fn clause(
    alloc: Global,
    names: &NameList,
    out: &mut Vec<u8>,
    x: &RawClause,
) -> Result<(), AllocError>
    ensures { OnOk result (out.new.items ≡ out.old.items ++ written_of names.now clause x.now) }
{
    sign(names, out, Sign::Holds)?;
    shape(alloc, names, out, &x.shape)?;
    guard(alloc, names, out, &x.guard)?;
    sign(names, out, Sign::Semicolon)?;
    Ok(())
}

struct ClauseItem;

impl Repeated for ClauseItem {
    type Value = RawClause;

    ghost writes = { λ names. written_of names clause };

    fn write(
        alloc: Global,
        names: &NameList,
        out: &mut Vec<u8>,
        x: &RawClause,
    ) -> Result<(), AllocError> {
        clause(alloc, names, out, x)
    }
}

/// A number in square brackets.
#[tactic(auto, unfolding(sync_parse_programs::specs::ProofStatements::in_squares))]
fn in_squares(
    alloc: Global,
    names: &NameList,
    out: &mut Vec<u8>,
    x: RawNumber,
) -> Result<(), AllocError>
    ensures { OnOk result (out.new.items ≡ out.old.items ++ written_of names.now in_squares x) }
{
    sign(names, out, Sign::OpenSquare)?;
    numbered(alloc, names, out, x)?;
    sign(names, out, Sign::CloseSquare)?;
    Ok(())
}

/// `with` and names, or nothing.
#[tactic(auto, unfolding(sync_parse_programs::specs::ProofStatements::with_names))]
fn with_names(
    alloc: Global,
    names: &NameList,
    out: &mut Vec<u8>,
    x: &Option<Items<RawName>>,
) -> Result<(), AllocError>
    ensures { OnOk result (out.new.items ≡ out.old.items ++ written_of names.now with_names x.now) }
{
    match x {
        Some(list) => {
            sign(names, out, Sign::With)?;
            name_list(alloc, names, out, list.as_slice())?;
            Ok(())
        }
        None => Ok(()),
    }
}

/// What a word states, or nothing.
#[tactic(auto, unfolding(sync_parse_programs::specs::ProofStatements::word_fact))]
fn word_fact(
    alloc: Global,
    names: &NameList,
    out: &mut Vec<u8>,
    x: &Option<RawExpr>,
) -> Result<(), AllocError>
    ensures { OnOk result (out.new.items ≡ out.old.items ++ written_of names.now word_fact x.now) }
{
    match x {
        Some(e) => {
            sign(names, out, Sign::Fact)?;
            expr(alloc, names, out, e)?;
            sign(names, out, Sign::Semicolon)?;
            Ok(())
        }
        None => Ok(()),
    }
}

/// The clauses of a word, and what it states.
fn word_body(
    alloc: Global,
    names: &NameList,
    out: &mut Vec<u8>,
    x: &[RawClause],
    y: &Option<RawExpr>,
) -> Result<(), AllocError>
    ensures { OnOk result (out.new.items ≡ out.old.items ++ written_of names.now (braces (row (at_sign sign.Holds) clause ∘ word_fact)) (x.now, y.now)) }
{
    sign(names, out, Sign::OpenBrace)?;
    in_row::<ClauseItem>(alloc, names, out, x)?;
    word_fact(alloc, names, out, y)?;
    sign(names, out, Sign::CloseBrace)?;
    Ok(())
}

#[tactic(auto, unfolding(sync_parse_programs::specs::ProofStatements::word))]
fn word(alloc: Global, names: &NameList, out: &mut Vec<u8>, x: &RawWord) -> Result<(), AllocError>
    ensures { OnOk result (out.new.items ≡ out.old.items ++ written_of names.now word x.now) }
{
    sign(names, out, Sign::Word)?;
    name(names, out, x.name)?;
    in_squares(alloc, names, out, x.length)?;
    sign(names, out, Sign::Equal)?;
    numbered(alloc, names, out, x.value)?;
    with_names(alloc, names, out, &x.with)?;
    word_body(alloc, names, out, x.clauses.as_slice(), &x.fact)?;
    Ok(())
}

#[tactic(auto, unfolding(sync_parse_programs::specs::ProofStatements::cell))]
fn cell(alloc: Global, names: &NameList, out: &mut Vec<u8>, x: RawCell) -> Result<(), AllocError>
    ensures { OnOk result (out.new.items ≡ out.old.items ++ written_of names.now cell x) }
{
    sign(names, out, Sign::Cell)?;
    name(names, out, x.name)?;
    in_squares(alloc, names, out, x.length)?;
    sign(names, out, Sign::Equal)?;
    numbered(alloc, names, out, x.value)?;
    sign(names, out, Sign::Semicolon)?;
    Ok(())
}

#[tactic(auto, unfolding(sync_parse_programs::specs::ProofStatements::declaration))]
fn declaration(
    alloc: Global,
    names: &NameList,
    out: &mut Vec<u8>,
    x: &RawDeclaration,
) -> Result<(), AllocError>
    ensures { OnOk result (out.new.items ≡ out.old.items ++ written_of names.now declaration x.now) }
{
    match x {
        RawDeclaration::Word(w) => word(alloc, names, out, w),
        RawDeclaration::Cell(c) => cell(alloc, names, out, *c),
    }
}

/// A word or a cell in the row of declarations.
pub struct DeclarationItem;

impl Repeated for DeclarationItem {
    type Value = RawDeclaration;

    ghost writes = { λ names. written_of names declaration };

    fn write(
        alloc: Global,
        names: &NameList,
        out: &mut Vec<u8>,
        x: &RawDeclaration,
    ) -> Result<(), AllocError> {
        declaration(alloc, names, out, x)
    }
}
