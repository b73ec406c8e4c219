//! Laws of joins: they do nothing, and their clauses are proved.
ghost use Rattle.sync_join.specs.Laws.{BagOrder, OtherFields};

/// Where a token stands in a bag does not matter to the joined state.
pub fn bag_order()
    ensures { BagOrder }
{}

/// A token says nothing of another field than its own.
pub fn other_fields()
    ensures { OtherFields }
{}
