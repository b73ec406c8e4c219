//! The laws of what programs mean.
#![tactic(auto)]

ghost use Rattle.sync_thread_meaning.specs.Laws.{ErasedGoesAlong, FinalTakesAll, NoTokenIsLost, TracesAreOfMoments};

/// Wherever the annotated program has not failed, the erased one has done the same.
pub fn erased_goes_along()
    ensures { ErasedGoesAlong }
{}

/// Where the final block takes over it holds what all threads held, they hold nothing, and no token comes or goes.
pub fn final_takes_all()
    ensures { FinalTakesAll }
{}

/// Keeps, and statements that only pass tokens on, keep every token.
pub fn no_token_is_lost()
    ensures { NoTokenIsLost }
{}

/// What a schedule leaves is of the moment after its events.
pub fn traces_are_of_moments()
    ensures { TracesAreOfMoments }
{}
