//! Laws of exchanges that what stands on them needs: they do nothing, and their clauses are proved.
#![tactic(auto)]

ghost use Rattle.sync_exchange_laws.specs.Agreeing.{ValuationsAgree, ExchangesGoByAny, StartsGoByAny};
ghost use Rattle.sync_exchange_laws.specs.Along.{ExchangesGoAlong, ExchangesFollow};
ghost use Rattle.sync_exchange_laws.specs.Conditions.{ConditionsMakeSteps, ExchangesMeetConditions};
ghost use Rattle.sync_exchange_laws.specs.Guards.{PropertiesShowGuards};
ghost use Rattle.sync_exchange_laws.specs.Lasting.{RunsKeepPermissions, StartsGiveOnce};
ghost use Rattle.sync_exchange_laws.specs.Permissions.{PermissionsStay, FirstPermissionsStay, MovesKeepPermissions, WritesKeepShards, PermissionIsOnly, StoredIsOnly};
ghost use Rattle.sync_exchange_laws.specs.Progress.{Progresses, StopsAreHolders};
ghost use Rattle.sync_exchange_laws.specs.Starts.{ConditionsMakeStarts, StartsGoAlong, StartsFollow, StartsOfTermsFollow};
ghost use Rattle.sync_exchange_laws.specs.Succeeding.{ExchangesSucceed};
ghost use Rattle.sync_exchange_laws.specs.Terms.{TermsAreExchanged, ExchangesOfTermsFollow, ExchangesOfTermsSucceed};
ghost use Rattle.sync_exchange_laws.specs.WholeTerms.{ExchangesGoByTerms, StartsGoByTerms};
ghost use Rattle.sync_exchange_laws.specs.Widths.{WidthsAgree, PartsAgree, StatesFit};

/// An exchange of a transition or property that succeeds keeps how often each content of each cell is there, as a
/// permission or stored.
pub fn permissions_stay()
    ensures { PermissionsStay }
{}

/// The exchange of an init keeps it.
pub fn first_permissions_stay()
    ensures { FirstPermissionsStay }
{}

/// Every move of any holder keeps it: an exchange, a split, a merger and a copy.
pub fn moves_keep_permissions()
    ensures { MovesKeepPermissions }
{}

/// So does any list of moves, between which tokens pass from hand to hand.
pub fn runs_keep_permissions()
    ensures { RunsKeepPermissions }
{}

/// Behind an init and any list of moves each permission is there as it was given to the init, of each cell once at
/// most.
pub fn starts_give_once()
    ensures { StartsGiveOnce }
{}

/// A permission with another content leaves sound shards sound, and the state that they make, where there are at most
/// 32
/// fields.
pub fn writes_keep_shards()
    ensures { WritesKeepShards }
{}

/// Where a cell is there once, as a permission, there is no second permission of it, and it is not stored.
pub fn permission_is_only()
    ensures { PermissionIsOnly }
{}

/// Where a cell is there once, as a stored object, there is no permission of it, and no second object.
pub fn stored_is_only()
    ensures { StoredIsOnly }
{}

/// Where the conditions of a transition or property hold at a state, as computed, it is a step to the state that is
/// computed.
pub fn conditions_make_steps()
    ensures { ConditionsMakeSteps }
{}

/// Of sound shards a partial sum leaves signed 128 bits exactly where the joined amount of a count does.
pub fn widths_agree()
    ensures { WidthsAgree }
{}

/// Of a count and of a multiset a sum on the way leaves signed 128 bits exactly where the joined field does.
pub fn parts_agree()
    ensures { PartsAgree }
{}

/// Where tokens, records and stored objects are within signed 128 bits, and there are fewer than 2^127 tokens, each
/// joined
/// field is exactly where each partial sum of a count is.
pub fn states_fit()
    ensures { StatesFit }
{}

/// An exchange whose tokens are there, and whose requires are true, succeeds: no store lacks what it asks for.
pub fn exchanges_progress()
    ensures { Progresses }
{}

/// An exchange of a transition or property that stops answers a token that is missing or differs, at a slot that names
/// one, or a require that is false, and nothing else.
pub fn stops_are_holders()
    ensures { StopsAreHolders }
{}

/// An exchange of a transition or property that succeeds goes along one valuation: each token and object has the key
/// and the value of its terms there.
pub fn exchanges_go_along()
    ensures { ExchangesGoAlong }
{}

/// An exchange of a transition or property that succeeds is a step with the values that it answers: its conditions
/// hold, as computed, and what is left is of the state that is computed.
pub fn exchanges_meet_conditions()
    ensures { ExchangesMeetConditions }
{}

/// The exchange of a property leaves what is kept, and what it guards is stored, with the content that its terms have.
pub fn properties_show_guards()
    ensures { PropertiesShowGuards }
{}

/// And where one can go along the valuation of a list of values for its bound names, it succeeds, and answers these.
pub fn exchanges_follow()
    ensures { ExchangesFollow }
{}

/// And where the holder brings what it asks, under the valuation of the values that it binds on its way, it succeeds,
/// and answers these: the stored objects are there.
pub fn exchanges_succeed()
    ensures { ExchangesSucceed }
{}

/// Behind the tokens of variables: under a valuation under which the dues of an exchange of terms hold, and stored
/// objects are those of the terms, each statement finds what it asks, and what is left has the values of the terms.
pub fn terms_are_exchanged()
    ensures { TermsAreExchanged }
{}

/// So the exchange of a transition or property succeeds where its variables' tokens are there, the terms of its names
/// have the values of state, arguments and bound values, and the dues hold; and it leaves the values of the terms.
pub fn exchanges_of_terms_follow()
    ensures { ExchangesOfTermsFollow }
{}

/// And nothing has to be known beforehand of what it binds or of what is stored: where the dues hold it succeeds,
/// answers what is bound on the way, and each stored object that it looks for is there.
pub fn exchanges_of_terms_succeed()
    ensures { ExchangesOfTermsSucceed }
{}

/// Where the conditions of an init hold, as computed, it gives the state that is computed.
pub fn conditions_make_starts()
    ensures { ConditionsMakeStarts }
{}

/// An exchange of an init that succeeds binds no name and goes along the valuation of its arguments; its conditions
/// hold there, as computed, and what is left is of the state that is computed.
pub fn starts_go_along()
    ensures { StartsGoAlong }
{}

/// And where each statement finds what it asks along this valuation, it succeeds.
pub fn starts_follow()
    ensures { StartsFollow }
{}

/// So the exchange of an init succeeds where the terms of its parameters have the values of the arguments, and the dues
/// hold; and it leaves the values of the terms.
pub fn starts_of_terms_follow()
    ensures { StartsOfTermsFollow }
{}

/// Valuations that stand for the same at each field, parameter and bound name agree on all that an operation reads.
pub fn valuations_agree()
    ensures { ValuationsAgree }
{}

/// An exchange of a transition or property goes by each valuation that agrees with its own at the end: it succeeds
/// exactly
/// where each token that a slot names is there, with the key and the value of its terms, and each require is true; and
/// then it leaves what the terms have there.
pub fn exchanges_go_by_any()
    ensures { ExchangesGoByAny }
{}

/// So does the exchange of an init, by each valuation that agrees with that of its arguments.
pub fn starts_go_by_any()
    ensures { StartsGoByAny }
{}

/// A whole exchange of terms, with its variables: where the terms of the operation's names have the values of its own
/// valuation at the end, the exchange of the values succeeds exactly where the dues hold, and leaves the terms' values.
pub fn exchanges_go_by_terms()
    ensures { ExchangesGoByTerms }
{}

/// So is the exchange of an init over terms.
pub fn starts_go_by_terms()
    ensures { StartsGoByTerms }
{}
