//! Values of stored terms, and the truth of stored formulas.
ghost use Rattle.std.specs.Prelude.{◌≡◌, true, false, Err, OnOk, IfOk};
ghost use Rattle.sync_terms.specs.Stored.{tree, formula, IsTerm, IsForm};
ghost use Rattle.sync_terms.specs.Values.{num, mapped, truth};
ghost use Rattle.sync_exchange_values.specs.declared.stops.EvalStop.TheVariants.{Width};
ghost use Rattle.sync_exchange_values.specs.Fitting.{number_fits, map_fits, form_fits};
ghost use Rattle.sync_entries.specs.Narrow.{is_narrow};

use crate::evaluation::Evaluation;
use crate::meanings::Meanings;
use crate::stops::EvalStop;
use std::alloc::Global;
use sync_entries::Entries;
use sync_terms::{FormId, TermId, Terms};

/// The number that a stored term is.
///
/// `Width` comes exactly where a number of the term or of a part of it leaves signed 128 bits; of a sum over a map
/// the whole counts, and no partial sum. What it costs goes with the nodes of the term as a tree and the sizes of the
/// maps that are summed or changed; a call is taken for each level of the term.
pub fn number_of<M: Meanings>(
    alloc: Global,
    terms: &Terms,
    names: &M,
    t: TermId,
) -> Result<i128, EvalStop>
    requires { IsTerm terms.now t }
    ensures value { IfOk result (λ n. n ≡ num (M.meaning names.now) (tree terms.now t)) }
    ensures fits { OnOk result (number_fits is_narrow (M.meaning names.now) (tree terms.now t) ≡ true) }
    ensures width { result ≡ Err Width → number_fits is_narrow (M.meaning names.now) (tree terms.now t) ≡ false }
{
    Evaluation {
        alloc,
        terms,
        names,
    }
    .number(t)
}

/// The map that a stored term is. It stops as `number_of` does.
pub fn map_of<M: Meanings>(
    alloc: Global,
    terms: &Terms,
    names: &M,
    t: TermId,
) -> Result<Entries, EvalStop>
    requires { IsTerm terms.now t }
    ensures value { IfOk result (λ m. m ≡ mapped (M.meaning names.now) (tree terms.now t)) }
    ensures fits { OnOk result (map_fits is_narrow (M.meaning names.now) (tree terms.now t) ≡ true) }
    ensures width { result ≡ Err Width → map_fits is_narrow (M.meaning names.now) (tree terms.now t) ≡ false }
{
    Evaluation {
        alloc,
        terms,
        names,
    }
    .map(t)
}

/// Whether a stored formula is true. All of its terms are evaluated, and it stops as `number_of` does.
pub fn truth_of<M: Meanings>(
    alloc: Global,
    terms: &Terms,
    names: &M,
    f: FormId,
) -> Result<bool, EvalStop>
    requires { IsForm terms.now f }
    ensures value { IfOk result (λ b. b ≡ truth (M.meaning names.now) (formula terms.now f)) }
    ensures fits { OnOk result (form_fits is_narrow (M.meaning names.now) (formula terms.now f) ≡ true) }
    ensures width { result ≡ Err Width → form_fits is_narrow (M.meaning names.now) (formula terms.now f) ≡ false }
{
    Evaluation {
        alloc,
        terms,
        names,
    }
    .truth(f)
}
