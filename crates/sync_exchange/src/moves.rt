//! The laws of holders: lists of moves by any of them are lists of declared steps.
ghost use Rattle.sync_exchange.specs.MoveLaws.{NamesStayApart, MovesAreSteps, StartsGoOn};

/// Where each hand has its names once, it still does behind a move.
pub fn names_stay_apart()
    ensures { NamesStayApart }
{}

/// A list of moves by any holders leads the whole through the declared steps that it stands for, whatever others hold.
pub fn moves_are_steps()
    ensures { MovesAreSteps }
{}

/// The exchange of an init, and then a list of moves by any holders, lead from a declared start through declared steps.
pub fn starts_go_on()
    ensures { StartsGoOn }
{}
