//! Sequents: hypotheses with names, and a claim.
use sqlite_items::Items;
use sync_terms::{FormId, HypName, Sym};

/// A named hypothesis. One with parameters holds for all numbers as their values.
#[derive(Debug, Drop)]
pub struct Hyp {
    pub name: HypName,
    pub params: Items<Sym>,
    pub form: FormId,
}

/// Hypotheses, the newest last, and the formula that is claimed of them.
#[derive(Debug, Drop)]
pub struct Sequent {
    pub hyps: Items<Hyp>,
    pub claim: FormId,
}
