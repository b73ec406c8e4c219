//! Fields with their sharding strategies.
ghost use Rattle.std.specs.Prelude.{◌≡◌};
ghost use Rattle.sync_machine.specs.States as states;

use sync_base::Strategy;

/// A field: its name's number, its strategy, and its line.
#[derive(Clone, Copy, PartialEq, Eq, Debug)]
pub struct Field {
    pub name: u32,
    pub strategy: Strategy,
    pub line: u32,
}

/// The strategy of a field. A number that is no field's has none, which counts as one without tokens.
pub fn strategy_at(fields: &[Field], field: u32) -> Strategy
    ensures { result ≡ states.strategy_at fields.now field }
{
    match fields.get(field as usize) {
        Some(f) => f.strategy,
        None => Strategy::NotTokenized,
    }
}
