//! The proof of a claim by a script.
ghost use Rattle.std.specs.Prelude.{◌≡◌, OnOk, IfOk, map};
ghost use Rattle.sync_base.specs.Outcome.{Passes};
ghost use Rattle.sync_terms.specs.Stored.{Extends, IsForm, formula};
ghost use Rattle.sync_terms.specs.Plans.{plan_of, IsScriptOf};
ghost use Rattle.sync_terms.specs.Values.{IsValid};
ghost use Rattle.sync_typing_reading.specs.Sayings.{stands_in, AreSaidOf};
ghost use Rattle.sync_kernel_facts.specs.Facts.{fact_of, as_hypothesis};
ghost use Rattle.sync_kernel.specs.Holding.{AreForms};
ghost use Rattle.sync_kernel.specs.Hypotheses.{AreReady, known_in};
ghost use Rattle.sync_kernel.specs.Scripts.{script_fault};
ghost use Rattle.sync_kernel.specs.Replaced.{plan_replaced};

use crate::blocks::check_block;
use crate::hypotheses::Hypotheses;
use sqlite_items::Items;
use std::alloc::{AllocError, Global};
use sync_base::Stop;
use sync_kernel_facts::{Hyp, Literal, Said, Sequent};
use sync_terms::{FormId, HypName, Script, Terms};
use sync_typing_ledgers::Ledger;

/// The hypotheses of a sequent, ready for a proof.
fn hypotheses_of(alloc: Global, terms: &Terms, hyps: &[Hyp]) -> Result<Hypotheses, AllocError>
    requires { AreForms terms.now hyps.now }
    ensures ready { IfOk result (AreReady terms.now) }
    ensures known { IfOk result (λ h. known_in terms.now h ≡ map (fact_of terms.now) hyps.now) }
{
    let mut ready = Hypotheses::new(alloc);
    for hyp in hyps {
        let params = Items::from_slice(alloc, hyp.params.as_slice())?;
        ready.push(
            terms,
            Hyp {
                name: hyp.name,
                params,
                form: hyp.form,
            },
        )?;
    }
    Ok(ready)
}

/// Checks that the script proves the claim from the hypotheses: it holds wherever they do, those with parameters for
/// all that these may stand for. Each symbol of the script stands for what the names say.
///
/// The refusal is the first broken rule, at its line. A step is refused with K1 where no fact has its name, K2 where
/// the fact has another shape or parameters, K3 for another number of terms, K4 where `same` finds no contradiction, K5
/// to K7 where the parts of a `sum` make none, and K8 where a term or a formula of the step as the names say, or the
/// facts of a branch, have more than `MOST_NODES` nodes. K9 is for a block that does not end in `same`, `sum` or
/// `split`, at its end, or that goes on behind one, at the next step. The store keeps its trees. The hypotheses stay as
/// they are, for the next claim; behind an error they may have gained facts, so nothing is to be proved from them any
/// more.
pub fn prove_by_names(
    alloc: Global,
    terms: &mut Terms,
    names: &Ledger,
    hyps: &mut Hypotheses,
    claim: FormId,
    script: &Script,
) -> Result<(), Stop>
    requires ready { AreReady terms.old hyps.old }
    requires claim { IsForm terms.old claim }
    requires script { IsScriptOf terms.old script.now.block }
    requires said { AreSaidOf terms.old names.now }
    ensures valid { OnOk result (IsValid (map as_hypothesis (known_in terms.old hyps.old)) (formula terms.old claim)) }
    ensures exact { Passes result
        (script_fault (known_in terms.old hyps.old) (formula terms.old claim)
        (plan_replaced (stands_in terms.old names.now) (plan_of terms.old script.now.block))) }
    ensures ready { OnOk result (AreReady terms.new hyps.new) }
    ensures hyps { OnOk result (known_in terms.new hyps.new ≡ known_in terms.old hyps.old) }
    ensures keeps { Extends terms.old terms.new }
{
    let len = hyps.branch.len();
    let denied = Literal::denial(terms, claim);
    hyps.branch.push(Said::new(terms, HypName::Denied, Items::new(alloc), denied))?;
    check_block(
        alloc,
        terms,
        names,
        &mut hyps.branch,
        &mut hyps.notes,
        &script.block,
    )?;
    hyps.branch.cut_back(len);
    hyps.notes.cut_back(len);
    Ok(())
}

/// Checks that the script proves the claim from the hypotheses, as `prove_by_names` does where each symbol stands for
/// itself.
pub fn prove_from(
    alloc: Global,
    terms: &mut Terms,
    hyps: &mut Hypotheses,
    claim: FormId,
    s: &Script,
) -> Result<(), Stop>
    requires ready { AreReady terms.old hyps.old }
    requires claim { IsForm terms.old claim }
    requires script { IsScriptOf terms.old s.now.block }
    ensures valid { OnOk result (IsValid (map as_hypothesis (known_in terms.old hyps.old)) (formula terms.old claim)) }
    ensures exact { Passes result (script_fault (known_in terms.old hyps.old) (formula terms.old claim) (plan_of terms.old s.now.block)) }
    ensures ready { OnOk result (AreReady terms.new hyps.new) }
    ensures hyps { OnOk result (known_in terms.new hyps.new ≡ known_in terms.old hyps.old) }
    ensures keeps { Extends terms.old terms.new }
{
    let names = Ledger::new(alloc);
    prove_by_names(alloc, terms, &names, hyps, claim, s)
}

/// Checks that the script proves the sequent: its claim from its hypotheses.
pub fn prove(alloc: Global, terms: &mut Terms, q: &Sequent, s: &Script) -> Result<(), Stop>
    requires hyps { AreForms terms.old q.now.hyps }
    requires claim { IsForm terms.old q.now.claim }
    requires script { IsScriptOf terms.old s.now.block }
    ensures valid { OnOk result (IsValid (map (λ h. as_hypothesis (fact_of terms.old h)) q.now.hyps) (formula terms.old q.now.claim)) }
    ensures exact { Passes result (script_fault (map (fact_of terms.old) q.now.hyps) (formula terms.old q.now.claim) (plan_of terms.old s.now.block)) }
    ensures keeps { Extends terms.old terms.new }
{
    let mut hyps = hypotheses_of(alloc, terms, q.hyps.as_slice())?;
    prove_from(alloc, terms, &mut hyps, q.claim, s)
}
