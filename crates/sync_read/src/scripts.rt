//! Proof scripts and proofs.
ghost use Rattle.std.specs.Prelude.{◌≡◌, [], map};
ghost use Rattle.sync_base.specs.Outcome.{Gives};
ghost use Rattle.sync_terms.specs.Stored.{Stored, tree, Extends};
ghost use Rattle.sync_terms.specs.Plans.{plan_of};
ghost use Rattle.sync_terms.specs.Proofs.{proof_in as stored_proof};
ghost use Rattle.sync_read.specs.Scripts.{subject_symbol, hyp_in, parts_from, numbers_from, map_and_number, map_and_numbers, block_of, step_of, script_in, then_of, operation_meaning, claim_in, claim_owner, proof_in, proofs_from};
ghost use Rattle.sync_read_names.specs.Scopes.{meaning_of};

use crate::acts::few_before;
use sqlite_items::Items;
use std::alloc::Global;
use sync_base::{Rule, Stop};
use sync_parse::{
    RawBlock, RawClaim, RawHypName, RawPart, RawProof, RawScript, RawScriptStep, RawStepKind,
    RawSubject,
};
use sync_parse_exprs::{RawExpr, RawName};
use sync_read_names::{Meaning, Owner, Scope, Sort, form_of, refused, term_of};
use sync_terms::{Block, Claim, HypName, Part, Proof, Script, ScriptStep, StepKind, TermId, Terms};

/// What `low` and `high` speak of, as a symbol.
fn subject(scope: &Scope, raw: RawSubject) -> Result<u32, Stop>
    ensures { Gives (λ x. x) result (subject_symbol scope.now raw) }
{
    match raw {
        RawSubject::Name(named) => scope.local_symbol(named),
        RawSubject::Special(word, line) => scope.word_symbol(word, line),
    }
}

/// A hypothesis of a script.
#[tactic(auto, unfolding(crate::specs::Scripts::hyp_in))]
fn hyp(scope: &Scope, raw: RawHypName) -> Result<HypName, Stop>
    ensures { Gives (λ h. h) result (hyp_in scope.now raw) }
{
    match raw {
        RawHypName::Denied => Ok(HypName::Denied),
        RawHypName::Label(named) => Ok(HypName::Label(named.name)),
        RawHypName::At(number) => Ok(HypName::At(number)),
        RawHypName::Low(raw) => Ok(HypName::Low(subject(scope, raw)?)),
        RawHypName::High(raw) => Ok(HypName::High(subject(scope, raw)?)),
    }
}

/// The parts of a `sum`.
#[tactic(auto, unfolding(crate::specs::Scripts::parts_from))]
fn parts(alloc: Global, scope: &Scope, raw: &[RawPart]) -> Result<Items<Part>, Stop>
    ensures { Gives (λ ps. ps) result (parts_from scope.now [] raw.now) }
{
    let mut held = Items::new(alloc);
    for part in raw {
        let hyp = hyp(scope, part.hyp)?;
        held.push(Part {
            times: part.times,
            hyp,
        })?;
    }
    Ok(held)
}

/// Terms that are numbers.
#[tactic(auto, using(sync_read_names::proofs::Kept::kept_tree, sync_read_names::proofs::Kept::kept_term, sync_read_names::proofs::Kept::along, sync_read_names::proofs::Kept::stays), unfolding(crate::specs::Scripts::numbers_from))]
pub fn numbers(
    alloc: Global,
    terms: &mut Terms,
    scope: &Scope,
    es: &[RawExpr],
) -> Result<Items<TermId>, Stop>
    ensures exact { (t : Stored) → Extends terms.new t → Gives (map (tree t)) result (numbers_from [] scope.now es.now) }
    ensures keeps { Extends terms.old terms.new }
{
    let mut held = Items::new(alloc);
    for e in es {
        let t = term_of(terms, scope, e, Sort::Number)?;
        held.push(t)?;
    }
    Ok(held)
}

/// A map and a key.
#[tactic(auto, using(sync_read_names::proofs::Kept::kept_tree, sync_read_names::proofs::Kept::kept_term, sync_read_names::proofs::Kept::along, sync_read_names::proofs::Kept::stays), unfolding(crate::specs::Scripts::map_and_number))]
fn map_and_number(
    terms: &mut Terms,
    scope: &Scope,
    m: &RawExpr,
    k: &RawExpr,
) -> Result<(TermId, TermId), Stop>
    ensures exact { (t : Stored) → Extends terms.new t → Gives (λ p. (tree t p.0, tree t p.1)) result (map_and_number m.now k.now scope.now) }
    ensures keeps { Extends terms.old terms.new }
{
    let m = term_of(terms, scope, m, Sort::Map)?;
    let k = term_of(terms, scope, k, Sort::Number)?;
    Ok((m, k))
}

/// A map and two keys.
#[tactic(auto, using(sync_read_names::proofs::Kept::kept_tree, sync_read_names::proofs::Kept::kept_term, sync_read_names::proofs::Kept::along, sync_read_names::proofs::Kept::stays), unfolding(crate::specs::Scripts::map_and_numbers))]
fn map_and_numbers(
    terms: &mut Terms,
    scope: &Scope,
    m: &RawExpr,
    j: &RawExpr,
    k: &RawExpr,
) -> Result<(TermId, TermId, TermId), Stop>
    ensures exact { (t : Stored) → Extends terms.new t →
        Gives (λ p. (tree t p.0, tree t p.1, tree t p.2)) result (map_and_numbers m.now j.now k.now scope.now) }
    ensures keeps { Extends terms.old terms.new }
{
    let (m, j) = map_and_number(terms, scope, m, j)?;
    let k = term_of(terms, scope, k, Sort::Number)?;
    Ok((m, j, k))
}

/// A block of steps.
#[cycle(blocks)]
#[tactic(auto, using(sync_read_names::proofs::Kept::along, sync_read_names::proofs::Kept::stays), unfolding(crate::specs::Scripts::thens_from))]
fn block(alloc: Global, terms: &mut Terms, scope: &Scope, raw: &RawBlock) -> Result<Block, Stop>
    ensures exact { (t : Stored) → Extends terms.new t → Gives (plan_of t) result (block_of scope.now raw.now) }
    ensures keeps { Extends terms.old terms.new }
{
    let mut steps = Items::new(alloc);
    for step in raw.steps.as_slice() {
        let made = step_of(alloc, terms, scope, step)?;
        steps.push(made)?;
    }
    Ok(Block {
        steps,
        end_line: raw.end_line,
    })
}

/// A step that does this, at a line.
fn made(what: StepKind, line: u32) -> ScriptStep
    ensures { result ≡ record { what = what; line = line } }
{
    ScriptStep { what, line }
}

/// A step.
#[cycle(blocks)]
#[tactic(auto, using(sync_read_names::proofs::Kept::kept_formula, sync_read_names::proofs::Kept::kept_tree, sync_read_names::proofs::Kept::along, sync_read_names::proofs::Kept::stays))]
fn step_of(
    alloc: Global,
    terms: &mut Terms,
    scope: &Scope,
    raw: &RawScriptStep,
) -> Result<ScriptStep, Stop>
    ensures exact { (t : Stored) → Extends terms.new t → Gives (then_of t) result (step_of scope.now raw.now) }
    ensures keeps { Extends terms.old terms.new }
{
    let line = raw.line;
    match &raw.what {
        RawStepKind::Same => Ok(made(StepKind::Same, line)),
        RawStepKind::Sum(list) => Ok(made(
            StepKind::Sum(parts(alloc, scope, list.as_slice())?),
            line,
        )),
        RawStepKind::Inst(h, es, n) => {
            let h = hyp(scope, *h)?;
            let es = numbers(alloc, terms, scope, es.as_slice())?;
            Ok(made(StepKind::Inst(h, es, n.name), line))
        }
        RawStepKind::Parts(h, a, b) => Ok(made(
            StepKind::Parts(hyp(scope, *h)?, a.name, b.name),
            line,
        )),
        RawStepKind::Split(h, n, b, c) => {
            let h = hyp(scope, *h)?;
            let b = block(alloc, terms, scope, b)?;
            let c = block(alloc, terms, scope, c)?;
            Ok(made(StepKind::Split(h, n.name, b, c), line))
        }
        RawStepKind::Cut(e, n, b) => {
            let f = form_of(terms, scope, e)?;
            let b = block(alloc, terms, scope, b)?;
            Ok(made(StepKind::Cut(f, n.name, b), line))
        }
        RawStepKind::Read(m, k, n) => {
            let (m, k) = map_and_number(terms, scope, m, k)?;
            Ok(made(StepKind::Read(m, k, n.name), line))
        }
        RawStepKind::Size(m, k, n) => {
            let (m, k) = map_and_number(terms, scope, m, k)?;
            Ok(made(StepKind::Size(m, k, n.name), line))
        }
        RawStepKind::Total(m, k, n) => {
            let (m, k) = map_and_number(terms, scope, m, k)?;
            Ok(made(StepKind::Total(m, k, n.name), line))
        }
        RawStepKind::Cong(m, j, k, n) => {
            let (m, j, k) = map_and_numbers(terms, scope, m, j, k)?;
            Ok(made(StepKind::Cong(m, j, k, n.name), line))
        }
    }
}

/// A script: `by` and a block.
#[tactic(auto, using(sync_read_names::proofs::Kept::stays))]
pub fn script(
    alloc: Global,
    terms: &mut Terms,
    scope: &Scope,
    raw: &RawScript,
) -> Result<Script, Stop>
    ensures exact { (t : Stored) → Extends terms.new t → Gives (λ x. (plan_of t x.block, x.line)) result (script_in scope.now raw.now) }
    ensures keeps { Extends terms.old terms.new }
{
    let block = block(alloc, terms, scope, &raw.block)?;
    Ok(Script {
        block,
        line: raw.line,
    })
}

/// The operation of a name.
fn operation(scope: &Scope, named: RawName) -> Result<u32, Stop>
    ensures { Gives (λ n. n) result (operation_meaning (meaning_of scope.now named.name) named.line) }
{
    match scope.meaning(named.name) {
        Meaning::Operation(number) => Ok(number),
        Meaning::Nothing | Meaning::Field(_, _) | Meaning::Invariant(_) => {
            Err(refused(Rule::N1, named.line))
        }
    }
}

fn claim(scope: &Scope, raw: RawClaim) -> Result<Claim, Stop>
    ensures { Gives (λ c. c) result (claim_in scope.now raw) }
{
    match raw {
        RawClaim::At(number) => Ok(Claim::At(number)),
        RawClaim::Keeps(named) => match scope.meaning(named.name) {
            Meaning::Invariant(number) => Ok(Claim::Keeps(number)),
            Meaning::Nothing | Meaning::Field(_, _) | Meaning::Operation(_) => {
                Err(refused(Rule::N1, named.line))
            }
        },
    }
}

/// Whose parameters are known behind `$`.
fn claim_owner(claim: Claim) -> Owner
    ensures { result ≡ claim_owner claim }
{
    match claim {
        Claim::Keeps(number) => Owner::Invariant(number),
        Claim::At(_) => Owner::Nobody,
    }
}

/// A proof behind so many others.
#[tactic(auto, using(sync_read_names::proofs::Kept::along, sync_read_names::proofs::Kept::stays), unfolding(crate::specs::Scripts::proof_in))]
fn proof(
    alloc: Global,
    terms: &mut Terms,
    scope: &mut Scope,
    before: usize,
    raw: &RawProof,
) -> Result<Proof, Stop>
    ensures exact { (t : Stored) → Extends terms.new t → Gives (λ p. (stored_proof t p, scope.new)) result (proof_in before scope.old raw.now) }
    ensures keeps { Extends terms.old terms.new }
{
    let op = operation(scope, raw.operation)?;
    let claim = claim(scope, raw.claim)?;
    few_before(65536, before, raw.script.line)?;
    scope.owner = Owner::Operation(op);
    scope.claim = claim_owner(claim);
    let block = block(alloc, terms, scope, &raw.script.block)?;
    let script = Script {
        block,
        line: raw.script.line,
    };
    Ok(Proof {
        op,
        claim,
        script,
        line: raw.operation.line,
    })
}

/// The proofs of a text.
#[tactic(auto, using(sync_read_names::proofs::Kept::along, sync_read_names::proofs::Kept::stays), unfolding(crate::specs::Scripts::proofs_from))]
pub fn proofs(
    alloc: Global,
    terms: &mut Terms,
    scope: &mut Scope,
    raw: &[RawProof],
) -> Result<Items<Proof>, Stop>
    ensures exact { (t : Stored) → Extends terms.new t → Gives (λ ps. (map (stored_proof t) ps, scope.new)) result (proofs_from [] scope.old raw.now) }
    ensures keeps { Extends terms.old terms.new }
{
    let mut held = Items::new(alloc);
    for p in raw {
        let made = proof(alloc, terms, scope, held.len(), p)?;
        held.push(made)?;
    }
    Ok(held)
}
