//! The state of which a bag of tokens and what is kept beside them are the shards.
ghost use Rattle.std.specs.Prelude.{◌≡◌, ◌<◌, length, Err, option_map, IfOk, OnOk};
ghost use Rattle.sync_machine.specs.States as states;
ghost use Rattle.sync_join.specs.declared.sums.JoinStop.TheVariants.{Width};
ghost use Rattle.sync_join.specs.Join as shards;
ghost use Rattle.sync_join.specs.Widths.{AreNarrow};
ghost use Rattle.sync_join.specs.Views.{value_tree, state_tree, kept_of};

use crate::parts::{are_elements, are_entries, are_reached, as_map, counts_of, only_value};
use crate::sums::{JoinStop, sum_of};
use crate::tokens::{Bag, Rest, Token};
use crate::values::{State, Value};
use sqlite_items::Items;
use std::alloc::Global;
use sync_base::place_number;
use sync_machine::{Machine, Strategy, strategy_at};

/// The state of which the bag and the rest are the shards.
///
/// None where there is no such state: a variable has not exactly one token, two tokens of an option, a map or a set or
/// two stored permissions have one key, or a record does not bear out a persistent token. Permissions in the bag are
/// passed over. `Width` comes exactly where a partial sum of a count field's tokens, in the bag's order, leaves signed
/// 128 bits; it stands before none.
///
/// It asks for a record for each field; bags and rests that are shaped as they should be have one.
///
/// What it costs goes with the number of fields, of which a machine has at most 32, times n log n, n the tokens of the
/// bag and the stored permissions.
pub fn join(alloc: Global, m: &Machine, bag: &Bag, rest: &Rest) -> Result<Option<State>, JoinStop>
    requires { length rest.now.records ≡ length m.now.fields }
    ensures state { IfOk result (λ r. option_map state_tree r ≡ shards.join_of m.now.fields bag.now.tokens (kept_of rest.now)) }
    ensures fits { OnOk result (AreNarrow m.now.fields bag.now.tokens) }
    ensures width { result ≡ Err Width → AreNarrow m.now.fields bag.now.tokens → ⊥ }
{
    check_sums(m, bag)?;
    let mut values = Items::new(alloc);
    for f in 0..m.fields.len() {
        match value_at(alloc, m, bag, rest, place_number(f)?)? {
            Some(value) => values.push(value)?,
            None => return Ok(None),
        }
    }
    Ok(Some(State { values }))
}

/// Refuses where a partial sum of a count field leaves signed 128 bits.
fn check_sums(m: &Machine, bag: &Bag) -> Result<(), JoinStop>
    ensures fits { OnOk result (AreNarrow m.now.fields bag.now.tokens) }
    ensures width { result ≡ Err Width → AreNarrow m.now.fields bag.now.tokens → ⊥ }
{
    for f in 0..m.fields.len() {
        let field = place_number(f)?;
        if strategy_at(m.fields.as_slice(), field) == Strategy::Count
            && sum_of(bag.tokens.as_slice(), field).is_none()
        {
            return Err(JoinStop::Width);
        }
    }
    Ok(())
}

/// The value of a field in the joined state, none where it has none.
fn value_at(
    alloc: Global,
    m: &Machine,
    bag: &Bag,
    rest: &Rest,
    field: u32,
) -> Result<Option<Value>, JoinStop>
    requires within { field < length rest.now.records }
    requires narrow { AreNarrow m.now.fields bag.now.tokens }
    ensures value { IfOk result (λ v. option_map value_tree v ≡ shards.value_at m.now.fields bag.now.tokens (kept_of rest.now) field) }
    ensures narrow { result ≡ Err Width → ⊥ }
{
    let tokens = bag.tokens.as_slice();
    let recorded = &rest.records.as_slice()[field as usize];
    match strategy_at(m.fields.as_slice(), field) {
        Strategy::Variable => Ok(only_value(tokens, field).map(Value::Number)),
        Strategy::Option | Strategy::Map | Strategy::Set => keyed(alloc, tokens, field),
        Strategy::Multiset => Ok(Some(Value::Map(counts_of(alloc, tokens, field)?))),
        Strategy::Count => match sum_of(tokens, field) {
            Some(sum) => Ok(Some(Value::Number(sum))),
            None => Err(JoinStop::Width),
        },
        Strategy::PersistentOption | Strategy::PersistentMap => {
            borne_out(are_entries(recorded, tokens, field), recorded)
        }
        Strategy::PersistentSet => borne_out(are_elements(recorded, tokens, field), recorded),
        Strategy::PersistentCount => borne_out(are_reached(recorded, tokens, field), recorded),
        Strategy::Constant | Strategy::NotTokenized => Ok(Some(recorded.copy()?)),
        Strategy::StorageMap => keyed(alloc, rest.stored.as_slice(), field),
    }
}

/// A field's tokens as a map, none where two have one key.
fn keyed(alloc: Global, tokens: &[Token], field: u32) -> Result<Option<Value>, JoinStop>
    ensures value { IfOk result (λ v. option_map value_tree v ≡ option_map states.Mapped (shards.as_map (shards.tokens_of field tokens.now))) }
    ensures narrow { result ≡ Err Width → ⊥ }
{
    Ok(as_map(alloc, tokens, field)?.map(Value::Map))
}

/// The record, where it bears out every token.
fn borne_out(is_borne_out: bool, recorded: &Value) -> Result<Option<Value>, JoinStop>
    ensures value { IfOk result (λ v. option_map value_tree v ≡ shards.borne_out is_borne_out (value_tree recorded.now)) }
    ensures narrow { result ≡ Err Width → ⊥ }
{
    if is_borne_out {
        Ok(Some(recorded.copy()?))
    } else {
        Ok(None)
    }
}
