//! How strategies are written. Their names are no reserved words.
ghost use Rattle.std.specs.Prelude.{◌≡◌};
ghost use Rattle.sync_lex.specs.Strategies.{spelling_of, strategy_of};

use crate::bytes::ends_in_digit;
use sync_base::Strategy;

const STRATEGIES: [Strategy; 13] = [
    Strategy::Variable,
    Strategy::Constant,
    Strategy::NotTokenized,
    Strategy::Option,
    Strategy::Map,
    Strategy::Set,
    Strategy::Multiset,
    Strategy::Count,
    Strategy::PersistentOption,
    Strategy::PersistentMap,
    Strategy::PersistentSet,
    Strategy::PersistentCount,
    Strategy::StorageMap,
];

/// How the strategy is written.
#[tactic(auto, unfolding(crate::specs::Strategies::spelling_of))]
pub fn strategy_name(strategy: Strategy) -> &'static str
    ensures { result.now ≡ spelling_of strategy }
{
    match strategy {
        Strategy::Variable => "variable",
        Strategy::Constant => "constant",
        Strategy::NotTokenized => "not_tokenized",
        Strategy::Option => "option",
        Strategy::Map => "map",
        Strategy::Set => "set",
        Strategy::Multiset => "multiset",
        Strategy::Count => "count",
        Strategy::PersistentOption => "persistent_option",
        Strategy::PersistentMap => "persistent_map",
        Strategy::PersistentSet => "persistent_set",
        Strategy::PersistentCount => "persistent_count",
        Strategy::StorageMap => "storage_map",
    }
}

/// The strategy that is written so.
#[tactic(auto, unfolding(crate::specs::Strategies::strategy_of))]
pub fn strategy_of(bytes: &[u8]) -> Option<Strategy>
    ensures { result ≡ strategy_of bytes.now }
{
    if ends_in_digit(bytes) {
        return None;
    }
    STRATEGIES
        .iter()
        .copied()
        .find(|strategy| strategy_name(*strategy).as_bytes() == bytes)
}
