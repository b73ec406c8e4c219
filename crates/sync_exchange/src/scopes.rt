//! What symbols stand for in an exchange.
ghost use Rattle.std.specs.Prelude.{◌≡◌, pos, map, slice_index_or, IfOk, IfSome, IfNone};
ghost use Rattle.sync_terms.specs.Maps as maps;
ghost use Rattle.sync_machine.specs.States as states;
ghost use Rattle.sync_machine.specs.Views.{symbols_of};
ghost use Rattle.sync_join.specs.Join as shards;
ghost use Rattle.sync_join.specs.Views.{value_tree};
ghost use Rattle.sync_exchange.specs.Exchange as exchanges;
ghost use Rattle.sync_exchange.specs.Works.{outer_meaning, outer_number, outer_value, known_over, last_known, value_in_list};

use std::alloc::Global;
use sync_base::NoMemory;
use sync_exchange_values::Meanings;
use sync_join::{Entries, Token, Value, map_of_tokens};
use sync_machine::{Field, Strategy, strategy_at};
use sync_terms::Sym;

/// A symbol that has come to stand for a number.
#[derive(Clone, Copy, PartialEq, Eq, Debug)]
pub(crate) struct Known {
    pub symbol: u32,
    pub number: i128,
}

/// What symbols stand for before the first slot: what is kept and the whole state, and the arguments.
#[derive(Clone, Copy)]
pub(crate) struct Outer<'a> {
    pub fields: &'a [Field],
    pub params: &'a [Sym],
    pub args: &'a [i128],
    pub records: &'a [Value],
    pub stored: &'a [Token],
    pub whole: &'a [Value],
}

/// What symbols stand for in the course of an exchange. A later number hides an earlier one.
#[derive(Clone, Copy)]
pub(crate) struct Scope<'a> {
    pub outer: &'a Outer<'a>,
    pub known: &'a [Known],
}

/// The number at a place of a list of values, 0 where there is none.
fn number_in(values: &[Value], at: u32) -> i128
    ensures { result ≡ shards.number_of (value_in_list (map value_tree values.now) at) }
{
    match values.get(at as usize) {
        Some(Value::Number(n)) => *n,
        _ => 0,
    }
}

/// The map at a place of a list of values, if there is one.
fn map_in(values: &[Value], at: u32) -> Option<&Entries>
    ensures map { IfSome result (λ m. m.now ≡ shards.entries_of (value_in_list (map value_tree values.now) at)) }
    ensures none { IfNone result (shards.entries_of (value_in_list (map value_tree values.now) at) ≡ maps.nil) }
{
    match values.get(at as usize) {
        Some(Value::Map(entries)) => Some(entries),
        _ => None,
    }
}

/// The argument of a parameter, 0 where there is none.
fn argument(params: &[Sym], args: &[i128], x: u32) -> i128
    ensures { result ≡ exchanges.argument (symbols_of params.now) args.now x }
{
    for i in 0..params.len() {
        if i >= args.len() {
            return 0;
        }
        if x == params[i].0 {
            return args[i];
        }
    }
    0
}

impl Outer<'_> {
    /// The values among which a field's is, by its strategy. None is a field whose value is that of its stored objects.
    fn values(&self, x: u32) -> Option<&[Value]>
        ensures some { IfSome result (λ vs. outer_value self.now x ≡ value_in_list (map value_tree vs.now) x) }
        ensures none { IfNone result (outer_value self.now x ≡ states.Mapped (shards.map_of (shards.tokens_of x self.now.stored.now))) }
    {
        match strategy_at(self.fields, x) {
            Strategy::Constant
            | Strategy::NotTokenized
            | Strategy::PersistentOption
            | Strategy::PersistentMap
            | Strategy::PersistentSet
            | Strategy::PersistentCount => Some(self.records),
            Strategy::StorageMap => None,
            Strategy::Variable
            | Strategy::Option
            | Strategy::Map
            | Strategy::Set
            | Strategy::Multiset
            | Strategy::Count => Some(self.whole),
        }
    }

    /// The number that a symbol stands for.
    fn number(&self, x: u32) -> i128
        ensures { result ≡ outer_number self.now x }
    {
        if x as usize >= self.fields.len() {
            return argument(self.params, self.args, x);
        }
        match self.values(x) {
            Some(values) => number_in(values, x),
            None => 0,
        }
    }

    /// The map that a symbol stands for, where it is at hand.
    fn map(&self, x: u32) -> Option<&Entries>
        ensures { IfSome result (λ m. m.now ≡ shards.entries_of (outer_value self.now x)) }
    {
        match self.values(x) {
            Some(values) => map_in(values, x),
            None => None,
        }
    }

    /// The map that a symbol stands for, made anew: stored objects are no map before one asks for it.
    fn made(&self, alloc: Global, x: u32) -> Result<Entries, NoMemory>
        ensures { IfOk result (λ m. m ≡ shards.entries_of (outer_value self.now x)) }
    {
        match self.values(x) {
            Some(values) => match map_in(values, x) {
                Some(map) => map.copy(),
                None => Ok(Entries::new(alloc)),
            },
            None => map_of_tokens(alloc, self.stored, x),
        }
    }
}

/// The number that a symbol has come to stand for last, if it has.
fn known_as(known: &[Known], x: u32) -> Option<i128>
    ensures { result ≡ last_known x known.now }
{
    let mut found = None;
    for k in known {
        if x == k.symbol {
            found = Some(k.number);
        }
    }
    found
}

impl Meanings for Scope<'_> {
    ghost meaning = { λ s. known_over s.known.now (outer_meaning s.outer.now) };

    fn number(&self, x: Sym) -> i128 {
        match known_as(self.known, x.0) {
            Some(n) => n,
            None => self.outer.number(x.0),
        }
    }

    fn map(&self, x: Sym) -> Option<&Entries> {
        match known_as(self.known, x.0) {
            Some(_) => None,
            None => self.outer.map(x.0),
        }
    }

    fn made(&self, alloc: Global, x: Sym) -> Result<Entries, NoMemory> {
        match known_as(self.known, x.0) {
            Some(_) => Ok(Entries::new(alloc)),
            None => self.outer.made(alloc, x.0),
        }
    }
}
