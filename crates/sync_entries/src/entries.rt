//! Finite maps from numbers to numbers.
ghost use Rattle.std.specs.Prelude.{◌≡◌, IfOk, OnOk, OnErr, SomeIff, FitsSigned};
ghost use Rattle.std.specs.FinMap as finmap;
ghost use Rattle.std.specs.Int.{w128};
ghost use Rattle.sync_entries.specs.Narrow.{HasNarrowValues, sum_of};

use crate::totals::Total;
use std::alloc::Global;
use std::collections::BTreeMap;
use std::marker::Model;
use sync_base::NoMemory;

/// A finite map from numbers to numbers, with ascending keys.
#[derive(Drop)]
pub struct Entries {
    map: BTreeMap<i128, i128>,
}

impl Model for Entries {
    ghost use Rattle.std.specs.Coded.{coded_ℤ};
    ghost use Rattle.std.specs.FinMap.{code, from_entries};
    ghost use Rattle.sync_entries.specs.Narrow.{HasNarrowValues, Map};

    ghost Value = { Map };

    ghost coded = { code coded_ℤ coded_ℤ };

    ghost view = { λ e. from_entries e.map.entries };

    ghost invariant = { λ e. HasNarrowValues (from_entries e.map.entries) };
}

impl Entries {
    /// The map without a key.
    pub fn new(alloc: Global) -> Entries
        ensures { result ≡ finmap.empty }
    {
        Entries {
            map: BTreeMap::new(alloc),
        }
    }

    /// The value at a key, if it is there.
    pub fn get(&self, key: i128) -> Option<i128>
        ensures value { result ≡ finmap.get self.now key }
        ensures narrow { HasNarrowValues self.now }
    {
        self.map.get(&key).copied()
    }

    /// The number of keys.
    pub fn len(&self) -> usize
        ensures len { result ≡ finmap.len self.now }
        ensures narrow { HasNarrowValues self.now }
    {
        self.map.len()
    }

    /// The sum of the values, none exactly where it leaves signed 128 bits. Partial sums may leave them.
    pub fn sum(&self) -> Option<i128>
        ensures sum { SomeIff result (FitsSigned w128 (sum_of self.now)) (sum_of self.now) }
        ensures narrow { HasNarrowValues self.now }
    {
        let mut total = Total::zero();
        for value in self.map.values() {
            total = total.plus(*value);
        }
        total.narrow()
    }

    /// Puts a value at a key, in the place of the one that was there. After want of memory the map is as it was.
    pub fn put(&mut self, key: i128, value: i128) -> Result<(), NoMemory>
        ensures ok { OnOk result (self.new ≡ finmap.insert self.old key value) }
        ensures err { OnErr result (self.new ≡ self.old) }
    {
        self.map.insert(key, value)?;
        Ok(())
    }

    /// Takes a key away, and tells the value that was there.
    pub fn remove(&mut self, key: i128) -> Option<i128>
        ensures value { result ≡ finmap.get self.old key }
        ensures gone { self.new ≡ finmap.remove self.old key }
    {
        self.map.remove(&key)
    }

    /// The same map once more.
    pub fn copy(&self) -> Result<Entries, NoMemory>
        ensures same { IfOk result (λ e. e ≡ self.now) }
        ensures narrow { HasNarrowValues self.now }
    {
        Ok(Entries {
            map: copied(&self.map)?,
        })
    }
}

/// The same entries once more.
fn copied(map: &BTreeMap<i128, i128>) -> Result<BTreeMap<i128, i128>, NoMemory>
    ensures { IfOk result (λ m. m.entries ≡ map.now.entries) }
{
    Ok(map.clone()?)
}
