//! Words and cells.
ghost use Rattle.std.specs.Prelude.{◌≡◌, [], map, option_map, count_by};
ghost use Rattle.sync_base.specs.Outcome.{Gives};
ghost use Rattle.sync_terms.specs.Stored.{Stored, formula, Extends};
ghost use Rattle.sync_thread.specs.Views.{clause_tree, word_tree, cell_tree, decl_tree};
ghost use Rattle.sync_read_programs.specs.Keeps as keeps;
ghost use Rattle.sync_read_programs.specs.Keeps.{take_from, word_names_from, names_or_none, form_if, clause_in, clauses_from, is_unguarded, word_counts, sizes, word_body, word_declared, cell_declared, declaration_in, declarations_from, all_room};

use crate::operands::word_number;
use crate::scopes::{Declared, ProgramScope, Room, WordCounts};
use crate::shapes::shape;
use sqlite_items::Items;
use std::alloc::Global;
use sync_base::{Rule, Stop};
use sync_parse_exprs::{RawExpr, RawName};
use sync_parse_programs::{RawCell, RawClause, RawDeclaration, RawNumber, RawWord};
use sync_read_names::{Scope, form_of, refused};
use sync_terms::{FormId, Terms};
use sync_thread::{Cell, Clause, Decl, Word};

/// How many elements may still come, behind an array.
fn take_from(left: u32, raw: RawNumber) -> Result<u32, Stop>
    ensures { Gives (λ n. n) result (take_from left raw) }
{
    if raw.number <= left as u128 {
        Ok(left - raw.number as u32)
    } else {
        Err(refused(Rule::N5, raw.line))
    }
}

/// The names that a word has for values.
#[tactic(auto, unfolding(crate::specs::Keeps::word_names_from))]
fn word_names(alloc: Global, scope: &mut ProgramScope, raw: &[RawName]) -> Result<Items<u32>, Stop>
    ensures { Gives (λ ns. (ns, scope.new)) result (word_names_from [] scope.old raw.now) }
{
    let mut held = Items::new(alloc);
    for named in raw {
        scope.word_name(*named)?;
        held.push(named.name)?;
    }
    Ok(held)
}

/// A word's names, none where there is no `with`.
fn names_or_none(raw: &Option<Items<RawName>>) -> &[RawName]
    ensures { result.now ≡ names_or_none raw.now }
{
    match raw {
        Some(names) => names.as_slice(),
        None => &[],
    }
}

#[tactic(auto, using(sync_read_names::proofs::Kept::kept_formula, sync_read_names::proofs::Kept::stays))]
fn form_if(terms: &mut Terms, scope: &Scope, raw: &Option<RawExpr>) -> Result<Option<FormId>, Stop>
    ensures exact { (t : Stored) → Extends terms.new t →
        Gives (option_map (formula t)) result (form_if raw.now scope.now) }
    ensures keeps { Extends terms.old terms.new }
{
    match raw {
        Some(e) => Ok(Some(form_of(terms, scope, e)?)),
        None => Ok(None),
    }
}

#[tactic(auto, using(sync_read_names::proofs::Kept::along, sync_read_names::proofs::Kept::stays), unfolding(crate::specs::Keeps::clause_in))]
fn clause(terms: &mut Terms, scope: &ProgramScope, raw: &RawClause) -> Result<Clause, Stop>
    ensures exact { (t : Stored) → Extends terms.new t → Gives (clause_tree t) result (clause_in scope.now raw.now) }
    ensures keeps { Extends terms.old terms.new }
{
    let shape = shape(terms, scope, &raw.shape)?;
    let guard = form_if(terms, &scope.scope, &raw.guard)?;
    Ok(Clause {
        shape,
        guard,
        line: raw.line,
    })
}

#[tactic(auto, using(sync_read_names::proofs::Kept::along, sync_read_names::proofs::Kept::stays), unfolding(crate::specs::Keeps::clauses_from))]
fn clauses(
    alloc: Global,
    terms: &mut Terms,
    scope: &ProgramScope,
    raw: &[RawClause],
) -> Result<Items<Clause>, Stop>
    ensures exact { (t : Stored) → Extends terms.new t →
        Gives (map (clause_tree t)) result (clauses_from [] scope.now raw.now) }
    ensures keeps { Extends terms.old terms.new }
{
    let mut held = Items::new(alloc);
    for x in raw {
        let made = clause(terms, scope, x)?;
        held.push(made)?;
    }
    Ok(held)
}

fn is_unguarded(raw: &RawClause) -> bool
    ensures { result ≡ is_unguarded raw.now }
{
    match &raw.guard {
        Some(_) => false,
        None => true,
    }
}

/// How many clauses have no guard.
fn unguarded(raw: &[RawClause]) -> usize
    ensures { result ≡ count_by is_unguarded raw.now }
{
    raw.iter().filter(|x| is_unguarded(x)).count()
}

fn word_counts(raw: &RawWord) -> WordCounts
    ensures { result ≡ word_counts raw.now }
{
    WordCounts {
        names: names_or_none(&raw.with).len(),
        clauses: raw.clauses.len(),
        unguarded: unguarded(raw.clauses.as_slice()),
    }
}

/// What may still come behind an array, and its first value.
fn sizes(left: u32, length: RawNumber, value: RawNumber) -> Result<(u32, u64), Stop>
    ensures { Gives (λ p. (p.0, p.1)) result (sizes left length value) }
{
    let left = take_from(left, length)?;
    let value = word_number(value)?;
    Ok((left, value))
}

/// A word behind its name, its length and its first value.
#[tactic(auto, using(sync_read_names::proofs::Kept::along, sync_read_names::proofs::Kept::stays), unfolding(crate::specs::Keeps::word_body))]
fn word_body(
    alloc: Global,
    terms: &mut Terms,
    scope: &mut ProgramScope,
    raw: &RawWord,
    len: u32,
    init: u64,
) -> Result<Word, Stop>
    requires { len ≡ raw.now.length.number }
    ensures exact { (t : Stored) → Extends terms.new t →
        Gives (λ x. (word_tree t x, scope.new)) result (word_body scope.old raw.now init) }
    ensures keeps { Extends terms.old terms.new }
{
    scope.enter_word(raw.name.name);
    let with = word_names(alloc, scope, names_or_none(&raw.with))?;
    let clauses = clauses(alloc, terms, scope, raw.clauses.as_slice())?;
    let fact = form_if(terms, &scope.scope, &raw.fact)?;
    Ok(Word {
        name: raw.name.name,
        len,
        init,
        with,
        clauses,
        fact,
        line: raw.line,
    })
}

/// A word, and what may still come behind it.
#[tactic(auto, using(sync_read_names::proofs::Kept::stays), unfolding(crate::specs::Keeps::word_declared))]
fn word(
    alloc: Global,
    terms: &mut Terms,
    scope: &mut ProgramScope,
    left: u32,
    raw: &RawWord,
) -> Result<(Word, u32), Stop>
    ensures exact { (t : Stored) → Extends terms.new t →
        Gives (λ x. (word_tree t x.0, x.1, scope.new)) result (word_declared left scope.old raw.now) }
    ensures keeps { Extends terms.old terms.new }
{
    scope.declare_name(Declared::Word(word_counts(raw)), raw.name)?;
    let (more, init) = sizes(left, raw.length, raw.value)?;
    let made = word_body(alloc, terms, scope, raw, left - more, init)?;
    Ok((made, more))
}

/// A cell, and what may still come behind it.
#[tactic(auto, unfolding(crate::specs::Keeps::cell_declared))]
fn cell(scope: &mut ProgramScope, left: u32, raw: RawCell) -> Result<(Cell, u32), Stop>
    ensures { Gives (λ x. (cell_tree x.0, x.1, scope.new)) result (cell_declared left scope.old raw) }
{
    scope.declare_name(Declared::Cell, raw.name)?;
    let (more, init) = sizes(left, raw.length, raw.value)?;
    let made = Cell {
        name: raw.name.name,
        len: left - more,
        init,
        line: raw.line,
    };
    Ok((made, more))
}

/// A declaration, and what may still come behind it.
#[tactic(auto, using(sync_read_names::proofs::Kept::stays), unfolding(crate::specs::Keeps::declaration_in))]
fn declaration(
    alloc: Global,
    terms: &mut Terms,
    scope: &mut ProgramScope,
    room: Room,
    raw: &RawDeclaration,
) -> Result<(Decl, Room), Stop>
    ensures exact { (t : Stored) → Extends terms.new t →
        Gives (λ x. (decl_tree t x.0, x.1, scope.new)) result (declaration_in room scope.old raw.now) }
    ensures keeps { Extends terms.old terms.new }
{
    match raw {
        RawDeclaration::Word(w) => {
            let (made, words) = word(alloc, terms, scope, room.words, w)?;
            Ok((Decl::Word(made), Room { words, ..room }))
        }
        RawDeclaration::Cell(c) => {
            let (made, cells) = cell(scope, room.cells, *c)?;
            Ok((Decl::Cell(made), Room { cells, ..room }))
        }
    }
}

/// The words and cells of a program, which has at most 1,024 and 4,096.
#[tactic(auto, using(sync_read_names::proofs::Kept::along, sync_read_names::proofs::Kept::stays), unfolding(crate::specs::Keeps::declarations_from))]
pub(crate) fn declarations(
    alloc: Global,
    terms: &mut Terms,
    scope: &mut ProgramScope,
    raw: &[RawDeclaration],
) -> Result<Items<Decl>, Stop>
    ensures exact { (t : Stored) → Extends terms.new t →
        Gives (λ xs. (map (decl_tree t) xs, scope.new)) result (declarations_from [] all_room scope.old raw.now) }
    ensures keeps { Extends terms.old terms.new }
{
    let mut room = Room {
        words: 1024,
        cells: 4096,
    };
    let mut held = Items::new(alloc);
    for x in raw {
        let (made, more) = declaration(alloc, terms, scope, room, x)?;
        room = more;
        held.push(made)?;
    }
    Ok(held)
}
