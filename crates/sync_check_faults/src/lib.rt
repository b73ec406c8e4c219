//! The first rule that a text breaks, over all layers.
#![tactic(auto)]

ghost use Rattle.std.specs.Prelude.{ℕ, List};
ghost use Rattle.sync_check_faults.specs.Faults.{VerdictIsFirstFault, ListingIsFirstFault};

/// The verdict of a text is its first fault, layer by layer: L, G, N, S, and then I and K. Where it has none it is accepted.
pub fn verdict_is_first_fault()
    ensures { (bytes : List ℕ) → VerdictIsFirstFault bytes }
{}

/// The listing of what has to be proved asks for L, G, N and S alone: a text that keeps these is listed, whatever its
/// proofs are.
pub fn listing_is_first_fault()
    ensures { (bytes : List ℕ) → ListingIsFirstFault bytes }
{}
