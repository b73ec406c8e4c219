//! The check of one obligation.
ghost use Rattle.std.specs.Prelude.{◌≡◌, true, Err, OnOk};
ghost use Rattle.sync_base.specs.Outcome.{Passes};
ghost use Rattle.sync_terms.specs.Stored.{Stored, Extends, IsForm, formula};
ghost use Rattle.sync_terms.specs.Values.{IsValid};
ghost use Rattle.sync_kernel.specs.Hypotheses.{AreReady, known_in};
ghost use Rattle.sync_induct.specs.Books.{ArePlaced, IsBook};
ghost use Rattle.sync_induct.specs.Checks.{duty_fault, duty_of, is_large};
ghost use Rattle.sync_terms.specs.Proofs.{proofs_in};
ghost use Rattle.sync_induct.specs.Duties.{Duty, as_hypotheses};

use crate::index::{Book, Title};
use crate::sizes::denied_size;
use std::alloc::Global;
use sync_base::{Refusal, Rule, Stop};
use sync_kernel::{Hypotheses, prove_from};
use sync_terms::{FormId, Obligation, Terms};

pub fn refused(line: u32, rule: Rule) -> Stop
    ensures { result ≡ Stop.Refused (record { line = line; rule = rule }) }
{
    Stop::Refused(Refusal { line, rule })
}

/// Why an obligation is refused whose claim would be too large: it has no proof, or its sequent is too large.
pub fn too_large(book: Book<'_>, obligation: Obligation) -> Stop
    requires { ArePlaced book }
    ensures { (s : Stored) (d : Duty) → d.obligation ≡ obligation → is_large d ≡ true
        → Passes {A = Unit {0}} (Err result) (duty_fault (proofs_in s book.entry.proofs.now) d) }
{
    let title = Title::new(obligation.op, obligation.claim);
    if book.places.contains_key(&title) {
        refused(obligation.line, Rule::K8)
    } else {
        refused(obligation.line, Rule::I1)
    }
}

/// Checks the proof of an obligation: that it proves the claim from the hypotheses, which stay as they are.
pub fn check_duty(
    alloc: Global,
    terms: &mut Terms,
    hyps: &mut Hypotheses,
    claim: FormId,
    book: Book<'_>,
    obligation: Obligation,
) -> Result<(), Stop>
    requires ready { AreReady terms.old hyps.old }
    requires claim { IsForm terms.old claim }
    requires book { IsBook terms.old book }
    ensures exact { Passes result (duty_fault (proofs_in terms.old book.entry.proofs.now)
        (duty_of terms.old hyps.old claim obligation)) }
    ensures valid { OnOk result (IsValid (as_hypotheses (known_in terms.old hyps.old)) (formula terms.old claim)) }
    ensures ready { OnOk result (AreReady terms.new hyps.new) }
    ensures hyps { OnOk result (known_in terms.new hyps.new ≡ known_in terms.old hyps.old) }
    ensures keeps { Extends terms.old terms.new }
{
    let Some(&at) = book
        .places
        .get(&Title::new(obligation.op, obligation.claim))
    else {
        return Err(refused(obligation.line, Rule::I1));
    };
    let Some(proof) = sqlite_items::at(book.proofs, at) else {
        return Err(refused(obligation.line, Rule::I1));
    };
    if !hyps.fit(denied_size(terms, claim)) {
        return Err(refused(obligation.line, Rule::K8));
    }
    prove_from(alloc, terms, hyps, claim, &proof.script)
}
