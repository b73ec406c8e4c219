//! Which proof is of which obligation.
ghost use Rattle.std.specs.Prelude.{◌≡◌, List, [], IfOk};
ghost use Rattle.std.specs.HashSet.{contains};
ghost use Rattle.std.specs.HashMap.{get};
ghost use Rattle.sync_base.specs.Outcome.{Passes};
ghost use Rattle.sync_induct.specs.Checks.{has_title, stray_fault};
ghost use Rattle.sync_terms.specs.Proofs.{titles_of};
ghost use Rattle.sync_induct.specs.Titles.{same_title, first_at};

use std::alloc::Global;
use std::collections::{HashMap, HashSet};
use sync_base::{NoMemory, Refusal, Rule, Stop};
use sync_terms::{Claim, Obligation, Proof};

/// What a proof is of: an operation, and the number of a statement of it or of an invariant.
#[derive(Clone, Copy, PartialEq, Eq, Hash, Debug)]
pub struct Title {
    pub op: u32,
    pub keeps: bool,
    pub number: u32,
}

impl Title {
    ghost use Rattle.sync_induct.specs.Titles.{title};

    /// The title of a claim of an operation.
    pub fn new(op: u32, claim: Claim) -> Title
        ensures { result ≡ title op claim }
    {
        match claim {
            Claim::At(number) => Title {
                op,
                keeps: false,
                number,
            },
            Claim::Keeps(number) => Title {
                op,
                keeps: true,
                number,
            },
        }
    }
}

/// The place of each title's first proof in a text's proofs.
pub type Places = HashMap<Title, usize>;

/// A text's proofs, where each title's first one stands, and the titles of the obligations.
#[derive(Clone, Copy)]
pub struct Book<'a> {
    pub proofs: &'a [Proof],
    pub places: &'a Places,
    pub wanted: &'a HashSet<Title>,
}

/// The titles of obligations.
pub fn wanted(alloc: Global, obligations: &[Obligation]) -> Result<HashSet<Title>, NoMemory>
    ensures { IfOk result (λ s. (t : Title) → contains same_title s t ≡ has_title obligations.now t) }
{
    let mut titles = HashSet::new(alloc);
    for o in obligations {
        titles.insert(Title::new(o.op, o.claim))?;
    }
    Ok(titles)
}

/// The place of each title's first proof, where no proof is of no obligation and none is a second one.
pub fn places(alloc: Global, wanted: &HashSet<Title>, proofs: &[Proof]) -> Result<Places, Stop>
    ensures placed { IfOk result (λ m. (t : Title) → get same_title m t ≡ first_at t 0 (titles_of proofs.now)) }
    ensures exact { (os : List Obligation) → ((t : Title) → contains same_title wanted.now t ≡ has_title os t)
        → Passes result (stray_fault os [] (titles_of proofs.now)) }
{
    let mut places = HashMap::new(alloc);
    for (i, p) in proofs.iter().enumerate() {
        let title = Title::new(p.op, p.claim);
        if !wanted.contains(&title) || places.contains_key(&title) {
            return Err(Stop::Refused(Refusal {
                line: p.line,
                rule: Rule::I2,
            }));
        }
        places.insert(title, i)?;
    }
    Ok(places)
}
