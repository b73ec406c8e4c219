//! Keeps.
ghost use Rattle.std.specs.Prelude.{◌≡◌, Bool, [], map, option_map};
ghost use Rattle.sync_base.specs.Outcome.{Gives};
ghost use Rattle.sync_terms.specs.Stored.{Stored, Extends};
ghost use Rattle.sync_thread.specs.Views.{keep_line_tree, keep_fact_tree, keep_tree};
ghost use Rattle.sync_read_programs.specs.Keeps.{prove_or_end, listed_proof_name, proof_names_from, end_token_if, keep_line, keep_lines_from, keep_fact, keep_facts_from, keep_in, keep_if};

use crate::operands::label_of;
use crate::scopes::ProgramScope;
use crate::shapes::shape;
use sqlite_items::Items;
use std::alloc::Global;
use sync_base::Stop;
use sync_parse_exprs::RawName;
use sync_parse_programs::{RawKeep, RawKeepFact, RawKeepLine};
use sync_read_names::{Scope, form_of};
use sync_terms::Terms;
use sync_thread::{Keep, KeepFact, KeepLine};

/// A proof name, of a keep that a thread ends with or not.
fn prove_or_end(scope: &mut ProgramScope, ends: bool, named: RawName) -> Result<(), Stop>
    ensures { Gives (λ _. scope.new) result (prove_or_end ends scope.old named) }
{
    if ends {
        scope.end_name(named)
    } else {
        scope.prove_name(named)
    }
}

#[tactic(auto, unfolding(crate::specs::Keeps::listed_proof_name))]
fn listed_proof_name(scope: &mut ProgramScope, ends: bool, named: RawName) -> Result<(), Stop>
    ensures { Gives (λ _. scope.new) result (listed_proof_name ends scope.old named) }
{
    scope.list_name(named)?;
    scope.may_prove(named)?;
    prove_or_end(scope, ends, named)
}

/// Proof names of one list, known from here on.
#[tactic(auto, unfolding(crate::specs::Keeps::proof_names_from))]
pub(crate) fn proof_names(
    alloc: Global,
    scope: &mut ProgramScope,
    ends: bool,
    raw: &[RawName],
) -> Result<Items<u32>, Stop>
    ensures { Gives (λ ns. (ns, scope.new)) result (proof_names_from ends [] scope.old raw.now) }
{
    let mut held = Items::new(alloc);
    for named in raw {
        listed_proof_name(scope, ends, *named)?;
        held.push(named.name)?;
    }
    Ok(held)
}

fn end_token_if(scope: &mut ProgramScope, ends: bool, named: RawName) -> Result<(), Stop>
    ensures { Gives (λ _. scope.new) result (end_token_if ends scope.old named) }
{
    if ends { scope.end_token(named) } else { Ok(()) }
}

#[tactic(auto, using(sync_read_names::proofs::Kept::stays), unfolding(crate::specs::Keeps::keep_line))]
fn keep_line(
    terms: &mut Terms,
    scope: &mut ProgramScope,
    ends: bool,
    raw: &RawKeepLine,
) -> Result<KeepLine, Stop>
    ensures exact { (t : Stored) → Extends terms.new t →
        Gives (λ x. (keep_line_tree t x, scope.new)) result (keep_line ends scope.old raw.now) }
    ensures keeps { Extends terms.old terms.new }
{
    scope.list_name(raw.name)?;
    end_token_if(scope, ends, raw.name)?;
    let shape = shape(terms, scope, &raw.shape)?;
    Ok(KeepLine {
        name: raw.name.name,
        shape,
        line: raw.name.line,
    })
}

#[tactic(auto, using(sync_read_names::proofs::Kept::along, sync_read_names::proofs::Kept::stays), unfolding(crate::specs::Keeps::keep_lines_from))]
fn keep_lines(
    alloc: Global,
    terms: &mut Terms,
    scope: &mut ProgramScope,
    ends: bool,
    raw: &[RawKeepLine],
) -> Result<Items<KeepLine>, Stop>
    ensures exact { (t : Stored) → Extends terms.new t →
        Gives (λ xs. (map (keep_line_tree t) xs, scope.new)) result (keep_lines_from ends [] scope.old raw.now) }
    ensures keeps { Extends terms.old terms.new }
{
    let mut held = Items::new(alloc);
    for x in raw {
        let made = keep_line(terms, scope, ends, x)?;
        held.push(made)?;
    }
    Ok(held)
}

#[tactic(auto, using(sync_read_names::proofs::Kept::kept_formula, sync_read_names::proofs::Kept::stays), unfolding(crate::specs::Keeps::keep_fact))]
fn keep_fact(terms: &mut Terms, scope: &Scope, raw: &RawKeepFact) -> Result<KeepFact, Stop>
    ensures exact { (t : Stored) → Extends terms.new t → Gives (keep_fact_tree t) result (keep_fact scope.now raw.now) }
    ensures keeps { Extends terms.old terms.new }
{
    let form = form_of(terms, scope, &raw.form)?;
    Ok(KeepFact {
        form,
        label: label_of(raw.label),
        line: raw.line,
    })
}

#[tactic(auto, using(sync_read_names::proofs::Kept::along, sync_read_names::proofs::Kept::stays), unfolding(crate::specs::Keeps::keep_facts_from))]
fn keep_facts(
    alloc: Global,
    terms: &mut Terms,
    scope: &Scope,
    raw: &[RawKeepFact],
) -> Result<Items<KeepFact>, Stop>
    ensures exact { (t : Stored) → Extends terms.new t →
        Gives (map (keep_fact_tree t)) result (keep_facts_from [] scope.now raw.now) }
    ensures keeps { Extends terms.old terms.new }
{
    let mut held = Items::new(alloc);
    for x in raw {
        let made = keep_fact(terms, scope, x)?;
        held.push(made)?;
    }
    Ok(held)
}

#[tactic(auto, using(sync_read_names::proofs::Kept::along, sync_read_names::proofs::Kept::stays), unfolding(crate::specs::Keeps::keep_in))]
pub(crate) fn keep(
    alloc: Global,
    terms: &mut Terms,
    scope: &mut ProgramScope,
    ends: bool,
    raw: &RawKeep,
) -> Result<Keep, Stop>
    ensures exact { (t : Stored) → Extends terms.new t →
        Gives (λ x. (keep_tree t x, scope.new)) result (keep_in ends scope.old raw.now) }
    ensures keeps { Extends terms.old terms.new }
{
    scope.next_list();
    let names = proof_names(alloc, scope, ends, raw.names.as_slice())?;
    scope.next_list();
    let lines = keep_lines(alloc, terms, scope, ends, raw.lines.as_slice())?;
    let facts = keep_facts(alloc, terms, &scope.scope, raw.facts.as_slice())?;
    Ok(Keep {
        names,
        lines,
        facts,
        line: raw.line,
    })
}

#[tactic(auto, using(sync_read_names::proofs::Kept::stays), unfolding(crate::specs::Keeps::keep_if))]
pub(crate) fn keep_if(
    alloc: Global,
    terms: &mut Terms,
    scope: &mut ProgramScope,
    raw: &Option<RawKeep>,
) -> Result<Option<Keep>, Stop>
    ensures exact { (t : Stored) → Extends terms.new t →
        Gives (λ x. (option_map (keep_tree t) x, scope.new)) result (keep_if scope.old raw.now) }
    ensures keeps { Extends terms.old terms.new }
{
    match raw {
        Some(k) => Ok(Some(keep(alloc, terms, scope, false, k)?)),
        None => Ok(None),
    }
}
