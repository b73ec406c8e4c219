//! The law that what is checked is what is listed.
ghost use Rattle.sync_induct.specs.Listed.{ChecksAreListed};

/// The obligations that `inductive` checks are those that `obligations` lists, in the same order.
pub fn checked_are_listed()
    ensures { ChecksAreListed }
{}
