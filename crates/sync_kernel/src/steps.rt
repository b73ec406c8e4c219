//! The steps of a script: what each takes from the facts of its branch, and the facts that it adds.
ghost use Rattle.std.specs.Prelude.{◌≡◌, ℕ, All, Ok, OnOk, IfOk};
ghost use Rattle.sync_terms.specs.Stored.{Stored, Extends, IsTerm, IsForm};
ghost use Rattle.sync_terms.specs.Trees.{Formula};
ghost use Rattle.sync_terms.specs.Building.{BuildsForm};
ghost use Rattle.sync_kernel_facts.specs.Facts.{newest, named};
ghost use Rattle.sync_kernel_facts.specs.Literals.{literal_form, IsLiteral};
ghost use Rattle.sync_typing_reading.specs.Sayings.{AreSaidOf};
ghost use Rattle.sync_kernel.specs.Readings.{form_read, tree_read, trees_read};
ghost use Rattle.sync_kernel.specs.Pairs.{pair_forms, IsPair};
ghost use Rattle.sync_kernel_facts.specs.Branches.{facts_in, said_fact, IsSaid, AreSaid, Begins};
ghost use Rattle.sync_kernel.specs.Taking.{plain_fact, instance};
ghost use Rattle.sync_kernel.specs.Scripts.{fitting, both_fitting, with_fact, with_instance, with_parts, with_cases, with_cut};
ghost use Rattle.sync_kernel.specs.MapFacts.{map_form, HasMapIds};
ghost use Rattle.sync_kernel.specs.Holding.{Leaves, LeavesFacts, LeavesCases, Makes};

use crate::readings::{paired, read_both, read_form, read_term};
use crate::splits::{Pair, cases_of, parts_of};
use crate::stops::{refusal, too_large};
use sqlite_items::Items;
use std::alloc::Global;
use sync_base::{Rule, Stop};
use sync_kernel_facts::{Branch, Literal, Said, cong_fact, read_fact, size_fact, total_fact};
use sync_terms::{FormId, HypName, TermId, TermStop, Terms};
use sync_typing_ledgers::Ledger;

/// Whether a step leaves its branch open, or has closed it.
#[derive(Clone, Copy, PartialEq, Eq, Debug)]
pub(crate) enum Left {
    Open,
    Closed,
}

/// A fact with a name of the script.
pub(crate) fn said(alloc: Global, terms: &Terms, name: u32, says: Literal) -> Said
    requires { IsLiteral terms.now says }
    ensures fact { said_fact terms.now result ≡ named name (literal_form terms.now says) }
    ensures said { IsSaid terms.now result }
{
    Said::new(terms, HypName::Label(name), Items::new(alloc), says)
}

/// Adds a fact to the branch; K8 where its facts are then too large.
fn add(
    alloc: Global,
    terms: &Terms,
    branch: &mut Branch,
    name: u32,
    says: Literal,
    line: u32,
) -> Result<(), Stop>
    requires branch { AreSaid terms.now branch.old }
    requires says { IsLiteral terms.now says }
    ensures leaves { LeavesFacts line result terms.now branch.new (fitting (with_fact (facts_in terms.now branch.old) name (literal_form terms.now says))) }
    ensures said { OnOk result (AreSaid terms.now branch.new) }
    ensures begins { OnOk result (Begins branch.old branch.new) }
{
    let said = said(alloc, terms, name, says);
    if !branch.fits(said.size) {
        return Err(refusal(line, Rule::K8));
    }
    branch.push(said)?;
    Ok(())
}

/// Adds a formula that was built; K8 where it, or the facts of the branch with it, are too large.
fn add_built(
    alloc: Global,
    terms: &Terms,
    branch: &mut Branch,
    form: Result<FormId, TermStop>,
    name: u32,
    line: u32,
) -> Result<(), Stop>
    requires branch { AreSaid terms.now branch.old }
    requires form { IfOk form (IsForm terms.now) }
    ensures leaves { (f : Formula) → BuildsForm terms.now f form → LeavesFacts line result terms.now branch.new (fitting (with_fact (facts_in terms.now branch.old) name f)) }
    ensures said { OnOk result (AreSaid terms.now branch.new) }
    ensures begins { OnOk result (Begins branch.old branch.new) }
{
    match form {
        Ok(form) => add(alloc, terms, branch, name, Literal::plain(form), line),
        Err(stop) => Err(too_large(stop, line)),
    }
}

/// The newest fact of a name, with terms for its parameters: K1 where there is none, K3 where it has another number of
/// parameters, K8 where a term or the instance is too large.
fn instance(
    alloc: Global,
    terms: &mut Terms,
    names: &Ledger,
    branch: &Branch,
    hyp: HypName,
    list: &[TermId],
    line: u32,
) -> Result<Literal, Stop>
    requires branch { AreSaid terms.old branch.now }
    requires list { All (IsTerm terms.old) list.now }
    requires said { AreSaidOf terms.old names.now }
    ensures makes { Makes terms.new line result
        (instance (newest hyp (facts_in terms.old branch.now)) (trees_read terms.old names.now list.now)) }
    ensures keeps { Extends terms.old terms.new }
{
    let Some(said) = branch.find(hyp) else {
        return Err(refusal(line, Rule::K1));
    };
    let params = said.params.as_slice();
    if params.len() != list.len() {
        return Err(refusal(line, Rule::K3));
    }
    let pairs = match paired(alloc, terms, names, params, list) {
        Ok(pairs) => pairs,
        Err(stop) => return Err(too_large(stop, line)),
    };
    match terms.subst(said.says.form, pairs.as_slice()) {
        Ok(form) => Ok(Literal {
            form,
            negated: said.says.negated,
        }),
        Err(stop) => Err(too_large(stop, line)),
    }
}

/// `inst`: adds a fact with terms for its parameters.
pub(crate) fn inst(
    alloc: Global,
    terms: &mut Terms,
    names: &Ledger,
    branch: &mut Branch,
    hyp: HypName,
    list: &[TermId],
    name: u32,
    line: u32,
) -> Result<(), Stop>
    requires branch { AreSaid terms.old branch.old }
    requires list { All (IsTerm terms.old) list.now }
    requires said { AreSaidOf terms.old names.now }
    ensures leaves { LeavesFacts line result terms.new branch.new
        (with_instance (facts_in terms.old branch.old) hyp (trees_read terms.old names.now list.now) name) }
    ensures said { OnOk result (AreSaid terms.new branch.new) }
    ensures begins { OnOk result (Begins branch.old branch.new) }
    ensures keeps { Extends terms.old terms.new }
{
    let says = instance(alloc, terms, names, branch, hyp, list, line)?;
    add(alloc, terms, branch, name, says, line)
}

/// What a fact without parameters says: K1 where there is none, K2 where it has parameters.
fn plain(terms: &Terms, branch: &Branch, hyp: HypName, line: u32) -> Result<Literal, Stop>
    requires { AreSaid terms.now branch.now }
    ensures { Leaves line result (λ l f. (literal_form terms.now l ≡ f.form) × IsLiteral terms.now l) (plain_fact (newest hyp (facts_in terms.now branch.now))) }
{
    match branch.known(hyp) {
        None => Err(refusal(line, Rule::K1)),
        Some(known) if known.plain => Ok(known.says),
        Some(_) => Err(refusal(line, Rule::K2)),
    }
}

/// `parts`: adds the two formulas that hold where a fact does.
pub(crate) fn parts(
    alloc: Global,
    terms: &Terms,
    branch: &mut Branch,
    hyp: HypName,
    left: u32,
    right: u32,
    line: u32,
) -> Result<(), Stop>
    requires { AreSaid terms.now branch.old }
    ensures leaves { LeavesFacts line result terms.now branch.new (with_parts (facts_in terms.now branch.old) hyp left right) }
    ensures said { OnOk result (AreSaid terms.now branch.new) }
    ensures begins { OnOk result (Begins branch.old branch.new) }
{
    let says = plain(terms, branch, hyp, line)?;
    let Some(pair) = parts_of(terms, says) else {
        return Err(refusal(line, Rule::K2));
    };
    add(alloc, terms, branch, left, pair.left, line)?;
    add(alloc, terms, branch, right, pair.right, line)
}

/// The two formulas, where each, with the facts of the branch, is within the limit; else K8.
fn both(terms: &Terms, branch: &Branch, pair: Pair, line: u32) -> Result<Pair, Stop>
    requires branch { AreSaid terms.now branch.now }
    requires pair { IsPair terms.now pair }
    ensures leaves { (name : ℕ) → LeavesCases line result terms.now (facts_in terms.now branch.now) name (both_fitting (facts_in terms.now branch.now) name (pair_forms terms.now pair)) }
    ensures stored { IfOk result (IsPair terms.now) }
{
    if branch.fits(pair.left.size(terms)) && branch.fits(pair.right.size(terms)) {
        Ok(pair)
    } else {
        Err(refusal(line, Rule::K8))
    }
}

/// `split`: the two formulas of which one holds where a fact does.
pub(crate) fn split(
    terms: &mut Terms,
    branch: &Branch,
    hyp: HypName,
    line: u32,
) -> Result<Pair, Stop>
    requires { AreSaid terms.old branch.now }
    ensures leaves { (name : ℕ) → LeavesCases line result terms.new (facts_in terms.old branch.now) name (with_cases (facts_in terms.old branch.now) hyp name) }
    ensures stored { IfOk result (IsPair terms.new) }
    ensures keeps { Extends terms.old terms.new }
{
    let says = plain(terms, branch, hyp, line)?;
    match cases_of(terms, says) {
        Ok(Some(pair)) => both(terms, branch, pair, line),
        Ok(None) => Err(refusal(line, Rule::K2)),
        Err(stop) => Err(too_large(stop, line)),
    }
}

/// `cut`: the negation of a formula, for the block, and the formula, for what goes on.
pub(crate) fn cut(
    terms: &mut Terms,
    names: &Ledger,
    branch: &Branch,
    form: FormId,
    line: u32,
) -> Result<Pair, Stop>
    requires branch { AreSaid terms.old branch.now }
    requires form { IsForm terms.old form }
    requires said { AreSaidOf terms.old names.now }
    ensures leaves { (name : ℕ) → LeavesCases line result terms.new (facts_in terms.old branch.now) name
        (with_cut (facts_in terms.old branch.now) (form_read terms.old names.now form) name) }
    ensures stored { IfOk result (IsPair terms.new) }
    ensures keeps { Extends terms.old terms.new }
{
    match read_form(terms, names, form) {
        Ok(read) => {
            let pair = Pair {
                left: Literal::denial(terms, read),
                right: Literal::plain(read),
            };
            both(terms, branch, pair, line)
        }
        Err(stop) => Err(too_large(stop, line)),
    }
}

/// What a step says of a map: at a key, or at two keys.
#[derive(Clone, Copy, Debug)]
pub(crate) enum MapFact {
    Read(TermId, TermId),
    Size(TermId, TermId),
    Total(TermId, TermId),
    Cong(TermId, TermId, TermId),
}

/// The formula of what is said, its terms as the names say.
fn built(terms: &mut Terms, names: &Ledger, fact: MapFact) -> Result<FormId, TermStop>
    requires fact { HasMapIds terms.old fact }
    requires said { AreSaidOf terms.old names.now }
    ensures built { BuildsForm terms.new (map_form (tree_read terms.old names.now) fact) result }
    ensures keeps { Extends terms.old terms.new }
{
    match fact {
        MapFact::Read(map, key) => {
            let at = read_both(terms, names, map, key)?;
            read_fact(terms, at.0, at.1)
        }
        MapFact::Size(map, key) => {
            let at = read_both(terms, names, map, key)?;
            size_fact(terms, at.0, at.1)
        }
        MapFact::Total(map, key) => {
            let at = read_both(terms, names, map, key)?;
            total_fact(terms, at.0, at.1)
        }
        MapFact::Cong(map, left, right) => {
            let at = read_term(terms, names, map)?;
            let keys = read_both(terms, names, left, right)?;
            cong_fact(terms, at, keys.0, keys.1)
        }
    }
}

/// `read`, `size`, `total` and `cong`: adds what is true of a map.
pub(crate) fn learn(
    alloc: Global,
    terms: &mut Terms,
    names: &Ledger,
    branch: &mut Branch,
    fact: MapFact,
    name: u32,
    line: u32,
) -> Result<(), Stop>
    requires branch { AreSaid terms.old branch.old }
    requires fact { HasMapIds terms.old fact }
    requires said { AreSaidOf terms.old names.now }
    ensures leaves { LeavesFacts line result terms.new branch.new
        (fitting (with_fact (facts_in terms.old branch.old) name (map_form (tree_read terms.old names.now) fact))) }
    ensures said { OnOk result (AreSaid terms.new branch.new) }
    ensures begins { OnOk result (Begins branch.old branch.new) }
    ensures keeps { Extends terms.old terms.new }
{
    let form = built(terms, names, fact);
    add_built(alloc, terms, branch, form, name, line)
}
