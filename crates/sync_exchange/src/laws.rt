//! Laws of exchanges: they do nothing, and their clauses are proved.
ghost use Rattle.std.specs.Prelude.{ℤ, Bool};
ghost use Rattle.sync_exchange.specs.Laws.{BoundAlone};
ghost use Rattle.sync_exchange.specs.Projection.{Projects, Initialises, ReadsNoState};
ghost use Rattle.sync_exchange.specs.Splitting.{SplitKeeps, MergeKeeps, CopyKeeps};

/// An exchange of a transition or property by one holder is a declared step of the whole, whatever the others hold.
pub fn exchanges_are_steps()
    ensures { (fits : ℤ → Bool) → Projects fits }
{}

/// The exchange of an init by a holder of permissions alone is a declared start.
pub fn exchanges_are_starts()
    ensures { (fits : ℤ → Bool) → Initialises fits }
{}

/// The exchange of a plain operation does not depend on the whole state.
pub fn plain_operations_read_no_state()
    ensures { (fits : ℤ → Bool) → ReadsNoState fits }
{}

/// Where an exchange of bounded numbers does not end by the bound, it is the exchange of numbers without bound.
pub fn bound_alone()
    ensures { BoundAlone }
{}

/// A split keeps sound shards sound, and the state that they make.
pub fn split_keeps()
    ensures { SplitKeeps }
{}

/// A merger keeps sound shards sound, and the state that they make.
pub fn merge_keeps()
    ensures { MergeKeeps }
{}

/// A copy of a persistent token keeps sound shards sound, and the state that they make.
pub fn copy_keeps()
    ensures { CopyKeeps }
{}
