//! Laws that what threads do and the typing of programs say of exchanges what the laws of exchanges say.
#![tactic(auto)]

ghost use Rattle.sync_thread_exchanges.specs.Deals.{DealsAskAlike};
ghost use Rattle.sync_thread_exchanges.specs.Safety.{NamesAgree, SightsAgree, ExchangesAreSeen, StartsAreSeen};
ghost use Rattle.sync_thread_exchanges.specs.Widths.{FitsAgree, JoinedStatesFit};

/// Before it binds a name an operation's names stand for the same to a thread and in the laws of exchanges.
pub fn names_agree()
    ensures { NamesAgree }
{}

/// Where the conditions of an operation hold, a thread sees its safety and what it guards as the laws of exchanges do.
pub fn sights_agree()
    ensures { SightsAgree }
{}

/// An exchange that succeeds is safe to the thread that does it, and guards to it what it guards.
pub fn exchanges_are_seen()
    ensures { ExchangesAreSeen }
{}

/// So is the exchange of an init, to the thread that starts.
pub fn starts_are_seen()
    ensures { StartsAreSeen }
{}

/// A state fits to threads exactly where each of its numbers is within signed 128 bits.
pub fn fits_agree()
    ensures { FitsAgree }
{}

/// A joined state fits to threads exactly where each partial sum of a count is within signed 128 bits.
pub fn joined_states_fit()
    ensures { JoinedStatesFit }
{}

/// What typing owes for an exchange of a transition or property holds exactly where the dues of the exchange of terms
/// do.
pub fn deals_ask_alike()
    ensures { DealsAskAlike }
{}
