//! Maps that terms build from other maps.
ghost use Rattle.std.specs.Prelude.{◌≡◌, ℤ, Bool, true, ◌&&◌};
ghost use Rattle.sync_terms.specs.Maps as maps;
ghost use Rattle.sync_exchange_values.specs.Fitting.{values_fit};
ghost use Rattle.sync_entries.specs.Narrow.{is_narrow};
ghost use Rattle.sync_exchange_values.specs.Steps.{Evaluates};

use crate::stops::EvalStop;
use sync_entries::Entries;

/// The same map once more.
pub(crate) fn copied(map: &Entries) -> Result<Entries, EvalStop>
    ensures { Evaluates result map.now (values_fit is_narrow map.now) }
{
    match map.copy() {
        Ok(copy) => Ok(copy),
        Err(_) => Err(EvalStop::Memory),
    }
}

/// The map with a value at a key.
pub(crate) fn put(
    map: Result<Entries, EvalStop>,
    key: Result<i128, EvalStop>,
    value: Result<i128, EvalStop>,
) -> Result<Entries, EvalStop>
    ensures { (m : maps.Map) (k w : ℤ) (f g h : Bool) → Evaluates map m f → Evaluates key k g → Evaluates value w h → Evaluates result (maps.put m k w) (f && g && h) }
{
    match map {
        Err(stop) => Err(stop),
        Ok(mut map) => match key {
            Err(stop) => Err(stop),
            Ok(key) => match value {
                Err(stop) => Err(stop),
                Ok(value) => match map.put(key, value) {
                    Ok(()) => Ok(map),
                    Err(_) => Err(EvalStop::Memory),
                },
            },
        },
    }
}

/// The map without a key.
pub(crate) fn removed(
    map: Result<Entries, EvalStop>,
    key: Result<i128, EvalStop>,
) -> Result<Entries, EvalStop>
    ensures { (m : maps.Map) (k : ℤ) (f g : Bool) → Evaluates map m f → Evaluates key k g → Evaluates result (maps.del m k) (f && g) }
{
    match map {
        Err(stop) => Err(stop),
        Ok(mut map) => match key {
            Err(stop) => Err(stop),
            Ok(key) => {
                map.remove(key);
                Ok(map)
            }
        },
    }
}

/// The map with the value at a key raised by a count, or without the key where that leaves nothing.
pub(crate) fn bumped(
    map: Result<Entries, EvalStop>,
    key: Result<i128, EvalStop>,
    count: Result<i128, EvalStop>,
) -> Result<Entries, EvalStop>
    ensures { (m : maps.Map) (k n : ℤ) (f g h : Bool) → Evaluates map m f → Evaluates key k g → Evaluates count n h → Evaluates result (maps.bump m k n) (f && g && h && values_fit is_narrow (maps.bump m k n)) }
{
    match map {
        Err(stop) => Err(stop),
        Ok(map) => match key {
            Err(stop) => Err(stop),
            Ok(key) => match count {
                Err(stop) => Err(stop),
                Ok(count) => raised(map, key, count),
            },
        },
    }
}

/// `bumped`, once all is there.
fn raised(map: Entries, key: i128, count: i128) -> Result<Entries, EvalStop>
    ensures { Evaluates result (maps.bump map key count) (values_fit is_narrow (maps.bump map key count)) }
{
    let mut map = map;
    let old = map.get(key).unwrap_or(0);
    match old.checked_add(count) {
        Some(new) => {
            if new > 0 {
                match map.put(key, new) {
                    Ok(()) => Ok(map),
                    Err(_) => Err(EvalStop::Memory),
                }
            } else {
                map.remove(key);
                Ok(map)
            }
        }
        None => {
            if count > 0 {
                Err(EvalStop::Width)
            } else {
                map.remove(key);
                Ok(map)
            }
        }
    }
}
