//! What each move on the table tells its caller.
ghost use Rattle.std.specs.Prelude.{ℕ};

use crate::rule::View;
use atomic_table::{Join, Play, Split};
use std::marker::{Brand, PhantomData};

/// A number that a clause names and that is known when the program runs: a thread number, or where a seat is cut.
pub(crate) trait Number {
    ghost number: { ℕ };
}

impl Number for Brand {
    ghost number = { 0 };
}

pub(crate) struct Loads<N> {
    number: PhantomData<N>,
}

impl<N: Number> Play<u8, View> for Loads<N> {
    ghost use Rattle.sync_words.specs.declared.entries.Operation.TheVariants.{Load};
    ghost use Rattle.sync_words.specs.Entries.{entry};
    ghost use Rattle.sync_words.specs.Rule.{Finds};

    ghost then = { λ s m n w. Finds (entry N.number s.word (Load n)) n m w };
}

pub(crate) struct Stores<N> {
    number: PhantomData<N>,
}

impl<N: Number> Play<u8, View> for Stores<N> {
    ghost use Rattle.sync_words.specs.declared.entries.Operation.TheVariants.{Store};
    ghost use Rattle.sync_words.specs.Entries.{entry};
    ghost use Rattle.sync_words.specs.Rule.{Makes};

    ghost then = { λ s m n w. Makes (entry N.number s.word (Store s.first)) m w };
}

pub(crate) struct Swaps<N> {
    number: PhantomData<N>,
}

impl<N: Number> Play<u8, View> for Swaps<N> {
    ghost use Rattle.sync_words.specs.declared.entries.Operation.TheVariants.{Swap};
    ghost use Rattle.sync_words.specs.Entries.{entry};
    ghost use Rattle.sync_words.specs.Rule.{Finds};

    ghost then = { λ s m n w. Finds (entry N.number s.word (Swap s.first n)) n m w };
}

pub(crate) struct Adds<N> {
    number: PhantomData<N>,
}

impl<N: Number> Play<u8, View> for Adds<N> {
    ghost use Rattle.sync_words.specs.declared.entries.Operation.TheVariants.{Add};
    ghost use Rattle.sync_words.specs.Entries.{entry};
    ghost use Rattle.sync_words.specs.Rule.{Finds};

    ghost then = { λ s m n w. Finds (entry N.number s.word (Add s.first n)) n m w };
}

pub(crate) struct Subs<N> {
    number: PhantomData<N>,
}

impl<N: Number> Play<u8, View> for Subs<N> {
    ghost use Rattle.sync_words.specs.declared.entries.Operation.TheVariants.{Sub};
    ghost use Rattle.sync_words.specs.Entries.{entry};
    ghost use Rattle.sync_words.specs.Rule.{Finds};

    ghost then = { λ s m n w. Finds (entry N.number s.word (Sub s.first n)) n m w };
}

pub(crate) struct Exchanges<N> {
    number: PhantomData<N>,
}

impl<N: Number> Play<u8, View> for Exchanges<N> {
    ghost use Rattle.sync_words.specs.declared.entries.Operation.TheVariants.{Cas};
    ghost use Rattle.sync_words.specs.Entries.{entry};
    ghost use Rattle.sync_words.specs.Rule.{Finds};

    ghost then = { λ s m n w. Finds (entry N.number s.word (Cas s.first s.second n)) n m w };
}

// A load after a merge, which tells that a list has the seat.
pub(crate) struct Looks;

impl Play<u8, View> for Looks {
    ghost use Rattle.sync_words.specs.Rule.{Learns};

    ghost then = { λ s m n w. Learns m w };
}

pub(crate) struct Cuts<N> {
    number: PhantomData<N>,
}

impl<N: Number> Split<View> for Cuts<N> {
    ghost use Rattle.sync_words.specs.Views.{below, from};

    ghost left = { below N.number };

    ghost right = { from N.number };
}

pub(crate) struct Glues;

impl Join<View> for Glues {
    ghost use Rattle.sync_words.specs.Views.{merged, spent};

    ghost both = { merged };

    ghost spent = { spent };
}
