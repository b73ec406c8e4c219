//! What a term asks of a map.
ghost use Rattle.std.specs.Prelude.{◌≡◌, true};
ghost use Rattle.sync_exchange_values.specs.Fitting.{values_fit};
ghost use Rattle.sync_entries.specs.Narrow.{is_narrow};
ghost use Rattle.sync_exchange_values.specs.Steps.{Evaluates, answer};

use crate::stops::EvalStop;
use sync_entries::Entries;

/// The value at a key, whether a key is there, the number of keys, or the sum of the values.
#[derive(Clone, Copy, Debug)]
pub(crate) enum Question {
    Get(i128),
    Has(i128),
    Size,
    Sum,
}

impl Question {
    /// The answer of a map.
    pub(crate) fn of(self, map: &Entries) -> Result<i128, EvalStop>
        ensures answer { Evaluates result (answer self map.now) (is_narrow (answer self map.now)) }
        ensures narrow { values_fit is_narrow map.now ≡ true }
    {
        match self {
            Question::Get(key) => Ok(map.get(key).unwrap_or(0)),
            Question::Has(key) => Ok(if map.get(key).is_some() { 1 } else { 0 }),
            Question::Size => Ok(map.len() as i128),
            Question::Sum => match map.sum() {
                Some(sum) => Ok(sum),
                None => Err(EvalStop::Width),
            },
        }
    }
}
