//! Reading shapes, keeps, words and cells. `left` is 65 less the number of brackets that are open.
ghost use Rattle.std.specs.Prelude.{◌≡◌};
ghost use Rattle.sync_lex.specs.declared.signs.Sign.TheVariants as sign;
ghost use Rattle.sync_parse_exprs.specs.Faults.{Reads};
ghost use Rattle.sync_parse_exprs.specs.Terminals.{begins_with};
ghost use Rattle.sync_parse_forms.specs.Readings.{begins_name};
ghost use Rattle.sync_parse_forms.specs.Codes.{at_name, a_name, nothing};
ghost use Rattle.sync_parse_programs.specs.Known.{either_or_none, ◌▸◌};
ghost use Rattle.sync_parse_programs.specs.ProofStatements.{pattern, place, shape, keep_line, keep_fact, keep, guard, clause, in_squares, with_names, word_fact, word, cell, declaration};
ghost use Rattle.sync_parse_programs.specs.Programs.{read};

use crate::lists::{label, names, numbered};
use crate::operands::RawNumber;
use crate::proof_statements::{
    RawCell, RawClause, RawDeclaration, RawKeep, RawKeepFact, RawKeepLine, RawShape, RawWord,
};
use sqlite_items::Items;
use std::alloc::Global;
use sync_lex::{Sign, Terminal};
use sync_parse::{RawPattern, RawPlace};
use sync_parse_exprs::{RawExpr, RawName, Read, begins_with, expr, first_line, name, sign};
use sync_parse_forms::{RowItem, begins_name, in_row};

// ---- places and shapes

/// `?` and a name, or a term.
#[tactic(auto, unfolding(crate::specs::ProofStatements::pattern, crate::specs::Known::expr))]
fn pattern<'a>(alloc: Global, terminals: &'a [Terminal], left: u32) -> Read<'a, RawPattern>
    ensures { Reads (λ x. (x.0, x.1.now)) result (read pattern left terminals.now) }
{
    if begins_with(terminals, Sign::Question) {
        let (_, rest) = sign(terminals, left, Sign::Question)?;
        let (bound, rest) = name(rest, left)?;
        return Ok((RawPattern::Bind(bound), rest));
    }
    let (term, rest) = expr(alloc, terminals, left)?;
    Ok((RawPattern::Term(term), rest))
}

/// A value in round brackets, or a key in square ones, maybe with its value.
#[tactic(auto, unfolding(crate::specs::ProofStatements::place, crate::specs::Known::expr))]
fn place<'a>(alloc: Global, terminals: &'a [Terminal], left: u32) -> Read<'a, RawPlace>
    ensures { Reads (λ x. (x.0, x.1.now)) result (read place left terminals.now) }
{
    if begins_with(terminals, Sign::OpenRound) {
        let (_, rest) = sign(terminals, left, Sign::OpenRound)?;
        let (value, rest) = pattern(alloc, rest, left - 1)?;
        let (_, rest) = sign(rest, left - 1, Sign::CloseRound)?;
        return Ok((RawPlace::Value(value), rest));
    }
    let (_, rest) = sign(terminals, left, Sign::OpenSquare)?;
    let (key, rest) = expr(alloc, rest, left - 1)?;
    if begins_with(rest, Sign::MapsTo) {
        let (_, rest) = sign(rest, left - 1, Sign::MapsTo)?;
        let (value, rest) = pattern(alloc, rest, left - 1)?;
        let (_, rest) = sign(rest, left - 1, Sign::CloseSquare)?;
        return Ok((RawPlace::Entry(key, value), rest));
    }
    let (_, rest) = sign(rest, left - 1, Sign::CloseSquare)?;
    Ok((RawPlace::Key(key), rest))
}

/// The name of a field, or `perm`.
fn field_or_perm<'a>(terminals: &'a [Terminal], left: u32) -> Read<'a, Option<RawName>>
    ensures { Reads (λ x. (x.0, x.1.now)) result (read (either_or_none at_name a_name (sign.Perm ▸ nothing)) left terminals.now) }
{
    if begins_name(terminals) {
        let (field, rest) = name(terminals, left)?;
        return Ok((Some(field), rest));
    }
    let (_, rest) = sign(terminals, left, Sign::Perm)?;
    Ok((None, rest))
}

/// A field or `perm`, and a place.
#[tactic(auto, unfolding(crate::specs::ProofStatements::shape))]
fn shape<'a>(alloc: Global, terminals: &'a [Terminal], left: u32) -> Read<'a, RawShape>
    ensures { Reads (λ x. (x.0, x.1.now)) result (read shape left terminals.now) }
{
    let line = first_line(terminals);
    let (field, rest) = field_or_perm(terminals, left)?;
    let (place, rest) = place(alloc, rest, left)?;
    Ok((RawShape { field, place, line }, rest))
}

// ---- keeps

#[tactic(auto, unfolding(crate::specs::ProofStatements::keep_line))]
fn keep_line<'a>(alloc: Global, terminals: &'a [Terminal], left: u32) -> Read<'a, RawKeepLine>
    ensures { Reads (λ x. (x.0, x.1.now)) result (read keep_line left terminals.now) }
{
    let (name, rest) = name(terminals, left)?;
    let (_, rest) = sign(rest, left, Sign::Colon)?;
    let (shape, rest) = shape(alloc, rest, left)?;
    let (_, rest) = sign(rest, left, Sign::Semicolon)?;
    Ok((RawKeepLine { name, shape }, rest))
}

#[tactic(auto, unfolding(crate::specs::ProofStatements::keep_fact, crate::specs::Known::expr))]
fn keep_fact<'a>(alloc: Global, terminals: &'a [Terminal], left: u32) -> Read<'a, RawKeepFact>
    ensures { Reads (λ x. (x.0, x.1.now)) result (read keep_fact left terminals.now) }
{
    let line = first_line(terminals);
    let (_, rest) = sign(terminals, left, Sign::Fact)?;
    let (form, rest) = expr(alloc, rest, left)?;
    let (label, rest) = label(rest, left)?;
    let (_, rest) = sign(rest, left, Sign::Semicolon)?;
    Ok((RawKeepFact { form, label, line }, rest))
}

struct LineItem;

impl RowItem for LineItem {
    type Value = RawKeepLine;

    ghost begins = { begins_name };

    ghost reads = { read keep_line };

    fn begins(terminals: &[Terminal]) -> bool {
        begins_name(terminals)
    }

    fn read<'a>(alloc: Global, terminals: &'a [Terminal], left: u32) -> Read<'a, RawKeepLine> {
        keep_line(alloc, terminals, left)
    }
}

struct FactItem;

impl RowItem for FactItem {
    type Value = RawKeepFact;

    ghost begins = { begins_with sign.Fact };

    ghost reads = { read keep_fact };

    fn begins(terminals: &[Terminal]) -> bool {
        begins_with(terminals, Sign::Fact)
    }

    fn read<'a>(alloc: Global, terminals: &'a [Terminal], left: u32) -> Read<'a, RawKeepFact> {
        keep_fact(alloc, terminals, left)
    }
}

/// Names, and in braces tokens with their shapes, then facts.
#[tactic(auto, unfolding(crate::specs::ProofStatements::keep))]
pub fn keep<'a>(alloc: Global, terminals: &'a [Terminal], left: u32) -> Read<'a, RawKeep>
    ensures { Reads (λ x. (x.0, x.1.now)) result (read keep left terminals.now) }
{
    let line = first_line(terminals);
    let (names, rest) = names(alloc, terminals, left)?;
    let (_, rest) = sign(rest, left, Sign::OpenBrace)?;
    let (lines, rest) = in_row::<LineItem>(alloc, rest, left - 1)?;
    let (facts, rest) = in_row::<FactItem>(alloc, rest, left - 1)?;
    let (_, rest) = sign(rest, left - 1, Sign::CloseBrace)?;
    Ok((
        RawKeep {
            names,
            lines,
            facts,
            line,
        },
        rest,
    ))
}

// ---- words and cells

/// `when` and a formula, or nothing.
#[tactic(auto, unfolding(crate::specs::ProofStatements::guard, crate::specs::Known::expr))]
fn guard<'a>(alloc: Global, terminals: &'a [Terminal], left: u32) -> Read<'a, Option<RawExpr>>
    ensures { Reads (λ x. (x.0, x.1.now)) result (read guard left terminals.now) }
{
    if begins_with(terminals, Sign::When) {
        let (_, rest) = sign(terminals, left, Sign::When)?;
        let (form, rest) = expr(alloc, rest, left)?;
        return Ok((Some(form), rest));
    }
    Ok((None, terminals))
}

#[tactic(auto, unfolding(crate::specs::ProofStatements::clause))]
fn clause<'a>(alloc: Global, terminals: &'a [Terminal], left: u32) -> Read<'a, RawClause>
    ensures { Reads (λ x. (x.0, x.1.now)) result (read clause left terminals.now) }
{
    let line = first_line(terminals);
    let (_, rest) = sign(terminals, left, Sign::Holds)?;
    let (shape, rest) = shape(alloc, rest, left)?;
    let (guard, rest) = guard(alloc, rest, left)?;
    let (_, rest) = sign(rest, left, Sign::Semicolon)?;
    Ok((RawClause { shape, guard, line }, rest))
}

struct ClauseItem;

impl RowItem for ClauseItem {
    type Value = RawClause;

    ghost begins = { begins_with sign.Holds };

    ghost reads = { read clause };

    fn begins(terminals: &[Terminal]) -> bool {
        begins_with(terminals, Sign::Holds)
    }

    fn read<'a>(alloc: Global, terminals: &'a [Terminal], left: u32) -> Read<'a, RawClause> {
        clause(alloc, terminals, left)
    }
}

/// A number in square brackets.
#[tactic(auto, unfolding(crate::specs::ProofStatements::in_squares))]
fn in_squares<'a>(terminals: &'a [Terminal], left: u32) -> Read<'a, RawNumber>
    ensures { Reads (λ x. (x.0, x.1.now)) result (read in_squares left terminals.now) }
{
    let (_, rest) = sign(terminals, left, Sign::OpenSquare)?;
    let (number, rest) = numbered(rest, left - 1)?;
    let (_, rest) = sign(rest, left - 1, Sign::CloseSquare)?;
    Ok((number, rest))
}

/// `with` and names, or nothing.
#[tactic(auto, unfolding(crate::specs::ProofStatements::with_names))]
fn with_names<'a>(
    alloc: Global,
    terminals: &'a [Terminal],
    left: u32,
) -> Read<'a, Option<Items<RawName>>>
    ensures { Reads (λ x. (x.0, x.1.now)) result (read with_names left terminals.now) }
{
    if begins_with(terminals, Sign::With) {
        let (_, rest) = sign(terminals, left, Sign::With)?;
        let (names, rest) = names(alloc, rest, left)?;
        return Ok((Some(names), rest));
    }
    Ok((None, terminals))
}

/// `fact`, a formula and `;`, or nothing.
#[tactic(auto, unfolding(crate::specs::ProofStatements::word_fact, crate::specs::Known::expr))]
fn word_fact<'a>(alloc: Global, terminals: &'a [Terminal], left: u32) -> Read<'a, Option<RawExpr>>
    ensures { Reads (λ x. (x.0, x.1.now)) result (read word_fact left terminals.now) }
{
    if begins_with(terminals, Sign::Fact) {
        let (_, rest) = sign(terminals, left, Sign::Fact)?;
        let (form, rest) = expr(alloc, rest, left)?;
        let (_, rest) = sign(rest, left, Sign::Semicolon)?;
        return Ok((Some(form), rest));
    }
    Ok((None, terminals))
}

#[tactic(auto, unfolding(crate::specs::ProofStatements::word))]
fn word<'a>(alloc: Global, terminals: &'a [Terminal], left: u32) -> Read<'a, RawWord>
    ensures { Reads (λ x. (x.0, x.1.now)) result (read word left terminals.now) }
{
    let line = first_line(terminals);
    let (_, rest) = sign(terminals, left, Sign::Word)?;
    let (name, rest) = name(rest, left)?;
    let (length, rest) = in_squares(rest, left)?;
    let (_, rest) = sign(rest, left, Sign::Equal)?;
    let (value, rest) = numbered(rest, left)?;
    let (with, rest) = with_names(alloc, rest, left)?;
    let (_, rest) = sign(rest, left, Sign::OpenBrace)?;
    let (clauses, rest) = in_row::<ClauseItem>(alloc, rest, left - 1)?;
    let (fact, rest) = word_fact(alloc, rest, left - 1)?;
    let (_, rest) = sign(rest, left - 1, Sign::CloseBrace)?;
    Ok((
        RawWord {
            name,
            length,
            value,
            with,
            clauses,
            fact,
            line,
        },
        rest,
    ))
}

#[tactic(auto, unfolding(crate::specs::ProofStatements::cell))]
fn cell<'a>(terminals: &'a [Terminal], left: u32) -> Read<'a, RawCell>
    ensures { Reads (λ x. (x.0, x.1.now)) result (read cell left terminals.now) }
{
    let line = first_line(terminals);
    let (_, rest) = sign(terminals, left, Sign::Cell)?;
    let (name, rest) = name(rest, left)?;
    let (length, rest) = in_squares(rest, left)?;
    let (_, rest) = sign(rest, left, Sign::Equal)?;
    let (value, rest) = numbered(rest, left)?;
    let (_, rest) = sign(rest, left, Sign::Semicolon)?;
    Ok((
        RawCell {
            name,
            length,
            value,
            line,
        },
        rest,
    ))
}

/// A word or a cell.
#[tactic(auto, unfolding(crate::specs::ProofStatements::declaration))]
pub fn declaration<'a>(
    alloc: Global,
    terminals: &'a [Terminal],
    left: u32,
) -> Read<'a, RawDeclaration>
    ensures { Reads (λ x. (x.0, x.1.now)) result (read declaration left terminals.now) }
{
    if begins_with(terminals, Sign::Word) {
        let (word, rest) = word(alloc, terminals, left)?;
        return Ok((RawDeclaration::Word(word), rest));
    }
    let (cell, rest) = cell(terminals, left)?;
    Ok((RawDeclaration::Cell(cell), rest))
}
