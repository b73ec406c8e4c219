//! How large a denied claim is.
ghost use Rattle.std.specs.Prelude.{◌≡◌, ◌≤◌, ◌+◌};
ghost use Rattle.sync_terms.specs.Stored.{IsForm, formula};
ghost use Rattle.sync_terms.specs.Trees.{most_nodes, formula_size, neg};

use sync_terms::{FormId, FormNode, Terms};

/// The nodes of the negation of a claim.
pub fn denied_size(terms: &Terms, claim: FormId) -> u64
    requires { IsForm terms.now claim }
    ensures size { result ≡ formula_size (neg (formula terms.now claim)) }
    ensures bound { result ≤ most_nodes + 1 }
    ensures claim { formula_size (formula terms.now claim) ≤ most_nodes }
{
    let size = terms.size_of(claim);
    match terms.form(claim) {
        FormNode::Not(_) => size - 1,
        _ => size + 1,
    }
}
