//! The step `sum`.
ghost use Rattle.std.specs.Prelude.{◌≡◌, Option, None, IfSome, OnSome, OnOk, option_map, if◌then◌else◌};
ghost use Rattle.std.specs.List.{list_all};
ghost use Rattle.sync_base.specs.Outcome.{Passes};
ghost use Rattle.sync_terms.specs.Stored.{Stored, IsShared};
ghost use Rattle.sync_terms.specs.Trees.{Tree};
ghost use Rattle.sync_linear.specs.Stores.{IsLineOf};
ghost use Rattle.sync_kernel_facts.specs.Facts.{Fact};
ghost use Rattle.sync_kernel_facts.specs.Branches.{facts_in, AreSaid};
ghost use Rattle.sync_kernel_facts.specs.Literals.{literal_form, IsLiteral};
ghost use Rattle.sync_kernel.specs.SumLines.{WereLines};
ghost use Rattle.sync_kernel.specs.Rows.{row_of};
ghost use Rattle.sync_kernel.specs.Shapes.{shaped, row_shaped};
ghost use Rattle.sync_kernel.specs.Steps.{at_line, is_bound, is_turned, with_part as part_added, one_apart as has_one_apart, closes as is_closed, sum_fault};
ghost use Rattle.sync_kernel.specs.Holding.{IsKnown, StepGives};

use crate::lines::Lines;
use crate::rows::{Kind, Shape, Used, shape_of};
use crate::stops::{refusal, too_wide};
use std::alloc::Global;
use sync_base::{Rule, Stop};
use sync_kernel_facts::{Branch, Known};
use sync_linear::{Change, Linear};
use sync_terms::{Part, Terms};

/// A sum with one part more, and what was used for it.
#[derive(Debug, Drop)]
pub(crate) struct Summed {
    pub total: Linear,
    pub used: Used,
}

/// Whether a line that is at most 0 would be taken a negative number of times.
fn turned(kind: Kind, part: &Part) -> bool
    ensures { result ≡ is_turned kind part.now.times }
{
    match kind {
        Kind::AtMostZero => part.times < 0,
        Kind::Zero | Kind::NotZero => false,
    }
}

/// The line of what is known; none where it has parameters.
fn shape_known(terms: &Terms, known: Known) -> Option<Shape>
    requires { IsLiteral terms.now known.says }
    ensures row { option_map (row_shaped terms.now) result ≡ (if known.plain then row_of (literal_form terms.now known.says) else None) }
    ensures stored { IfSome result (shaped terms.now) }
    ensures shared { OnSome result (IsShared terms.now) }
{
    if known.plain {
        shape_of(terms, known.says)
    } else {
        None
    }
}

/// The sum and one part more.
fn with_part(
    alloc: Global,
    terms: &Terms,
    lines: &mut Lines,
    known: Option<Known>,
    part: &Part,
    total: Linear,
    line: u32,
) -> Result<Summed, Stop>
    requires known { IfSome known (λ k. IsLiteral terms.now k.says) }
    requires lines { WereLines terms.now lines.old }
    ensures lines { WereLines terms.now lines.new }
    ensures part { (sum : Tree) (fact : Option Fact) → IsLineOf terms.now sum total → IsKnown terms.now known fact → StepGives terms.now line result (part_added fact sum part.now) }
{
    let Some(known) = known else {
        return Err(refusal(line, Rule::K1));
    };
    let Some(shape) = shape_known(terms, known) else {
        return Err(refusal(line, Rule::K2));
    };
    if turned(shape.kind, part) {
        return Err(refusal(line, Rule::K6));
    }
    if let Err(stop) = lines.keep(alloc, terms, known.says, shape) {
        return Err(too_wide(stop, line));
    }
    let row = lines.kept.get(&known.says).unwrap();
    match total.changed(Change::Times(part.times), row) {
        Ok(total) => Ok(Summed {
            total,
            used: Used {
                times: part.times,
                kind: shape.kind,
            },
        }),
        Err(stop) => Err(too_wide(stop, line)),
    }
}

/// Whether exactly one line is not 0, with the number 1, and the others are equations.
fn one_apart(used: &[Used]) -> bool
    ensures { result ≡ has_one_apart used.now }
{
    let mut found = false;
    for one in used {
        match one.kind {
            Kind::AtMostZero => return false,
            Kind::Zero => {}
            Kind::NotZero => {
                if found || one.times != 1 {
                    return false;
                }
                found = true;
            }
        }
    }
    found
}

/// Whether no line of these is "not 0".
fn all_bound(used: &[Used]) -> bool
    ensures { result ≡ list_all (λ u. is_bound u.kind) used.now }
{
    for one in used {
        if one.kind == Kind::NotZero {
            return false;
        }
    }
    true
}

/// Whether the sum of lines that were used so is a contradiction.
fn closes(used: &[Used], total: &Linear) -> bool
    ensures { (s : Stored) (sum : Tree) → IsLineOf s sum total.now → result ≡ is_closed used.now sum }
{
    if total.shows() {
        all_bound(used)
    } else if total.is_zero() {
        one_apart(used)
    } else {
        false
    }
}

/// Whether the parts add up to a contradiction; else the first rule that is broken.
pub(crate) fn sum(
    alloc: Global,
    terms: &Terms,
    branch: &Branch,
    lines: &mut Lines,
    line: u32,
    parts: &[Part],
) -> Result<(), Stop>
    requires said { AreSaid terms.now branch.now }
    requires lines { WereLines terms.now lines.old }
    ensures exact { Passes result (at_line line (sum_fault (facts_in terms.now branch.now) parts.now)) }
    ensures lines { OnOk result (WereLines terms.now lines.new) }
{
    lines.limit(alloc);
    let mut total = Linear::zero(alloc);
    let mut used = Vec::new(alloc);
    for part in parts {
        let known = branch.known(part.hyp);
        let next = with_part(alloc, terms, lines, known, part, total, line)?;
        total = next.total;
        used.push(next.used)?;
    }
    if closes(&used, &total) {
        Ok(())
    } else {
        Err(refusal(line, Rule::K5))
    }
}
