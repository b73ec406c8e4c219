//! The step `same`.
ghost use Rattle.std.specs.Prelude.{◌≡◌, ◌+◌, ◌&&◌, ◌++◌, ◌∷◌, [], false, List, IfOk, OnOk};
ghost use Rattle.sync_base.specs.Outcome.{Passes};
ghost use Rattle.sync_terms.specs.Stored.{Stored, IsShared};
ghost use Rattle.sync_terms.specs.Trees.{Tree};
ghost use Rattle.sync_linear.specs.Forms.{constant_of};
ghost use Rattle.sync_linear.specs.Stores.{IsLineOf};
ghost use Rattle.sync_kernel_facts.specs.Facts.{Fact};
ghost use Rattle.sync_kernel_facts.specs.Branches.{said_fact, facts_in, IsSaid, AreSaid};
ghost use Rattle.sync_kernel_facts.specs.Literals.{literal_form, IsLiteral, IsBare, denied_by, IsEntry};
ghost use Rattle.sync_kernel.specs.Rows.{no_atom, is_false, row_of};
ghost use Rattle.sync_kernel.specs.Steps.{at_line, is_false_row, same_fault};
ghost use Rattle.sync_kernel.specs.Opposed.{is_closing_with};
ghost use Rattle.sync_kernel.specs.Seen.{HasSeen, IsSeen, seen_count};

use crate::rows::{Kind, shape_of};
use crate::seen::Seen;
use crate::stops::refusal;
use std::alloc::Global;
use sync_base::{NoMemory, Rule, Stop};
use sync_kernel_facts::{Branch, Literal, Said};
use sync_linear::{Linear, LinearStop};
use sync_terms::Terms;

/// Whether a line that says this is a false one without atoms.
fn is_false_line(kind: Kind, line: &Linear) -> bool
    ensures { (s : Stored) (t : Tree) → IsLineOf s t line.now → result ≡ (no_atom t && is_false kind (constant_of t)) }
{
    match kind {
        Kind::AtMostZero => line.shows(),
        Kind::Zero => line.is_number() && !line.is_zero(),
        Kind::NotZero => line.is_zero(),
    }
}

/// Whether the line of what is said is false; one outside 128 bits is passed over.
fn is_false_fact(alloc: Global, terms: &Terms, says: Literal) -> Result<bool, NoMemory>
    requires { IsLiteral terms.now says }
    ensures { IfOk result (λ b. b ≡ is_false_row (row_of (literal_form terms.now says))) }
{
    let Some(shape) = shape_of(terms, says) else {
        return Ok(false);
    };
    match shape.line(alloc, terms) {
        Ok(line) => Ok(is_false_line(shape.kind, &line)),
        Err(LinearStop::Width) => Ok(false),
        Err(LinearStop::Memory) => Err(NoMemory),
    }
}

/// Whether what is said is a contradiction, alone or with a fact that was looked at.
fn is_closing(
    alloc: Global,
    terms: &Terms,
    seen: &Seen,
    says: Literal,
    denies: Option<Literal>,
) -> Result<bool, NoMemory>
    requires says { IsLiteral terms.now says }
    requires bare { IsBare terms.now says }
    requires denies { IsEntry terms.now denies (denied_by (literal_form terms.now says)) }
    ensures { (facts : List Fact) → IsShared terms.now → HasSeen terms.now facts seen.now → IfOk result (λ b. b ≡ is_closing_with facts (literal_form terms.now says)) }
{
    if seen.opposes(says, denies) {
        return Ok(true);
    }
    is_false_fact(alloc, terms, says)
}

/// Looks at the next fact.
fn look_at(alloc: Global, terms: &Terms, said: &Said, seen: &mut Seen) -> Result<(), NoMemory>
    requires said { IsSaid terms.now said.now }
    requires open { seen.old.closed ≡ false }
    ensures seen { (facts : List Fact) → HasSeen terms.now facts seen.old → OnOk result (HasSeen terms.now (facts ++ said_fact terms.now said.now ∷ []) seen.new) }
    ensures more { OnOk result (seen_count seen.new ≡ seen_count seen.old + 1) }
{
    if !said.params.is_empty() {
        seen.push(None, None, false)?;
        return Ok(());
    }
    let says = said.says.bare(terms);
    let denies = says.denied(terms);
    let closed = is_closing(alloc, terms, seen, says, denies)?;
    seen.push(Some(says), denies, closed)?;
    Ok(())
}

/// Whether two facts without parameters are a formula and its negation, or one is a false line; else K4. Only facts
/// that were not seen are looked at.
pub(crate) fn same(
    alloc: Global,
    terms: &Terms,
    branch: &Branch,
    seen: &mut Seen,
    line: u32,
) -> Result<(), Stop>
    requires said { AreSaid terms.now branch.now }
    requires seen { IsSeen terms.now (facts_in terms.now branch.now) seen.old }
    ensures exact { Passes result (at_line line (same_fault (facts_in terms.now branch.now))) }
    ensures seen { OnOk result (IsSeen terms.now (facts_in terms.now branch.now) seen.new) }
{
    let facts = branch.held();
    while !seen.closed && seen.len() < facts.len() {
        look_at(alloc, terms, &facts[seen.len()].said, seen)?;
    }
    if seen.closed {
        Ok(())
    } else {
        Err(refusal(line, Rule::K4))
    }
}
