//! The law of what lines are worth.
ghost use Rattle.sync_linear.specs.Worth.{LinesAreWorth};

/// The line that `of_term` makes is worth what the term is, and what `add_scaled` and `changed` make of two lines is
/// worth what the change makes of what they are worth, whatever the symbols stand for.
pub fn lines_are_worth()
    ensures { LinesAreWorth }
{}
