//! The six steps on a word. Each makes one entry, and is one atomic step of the processor.
ghost use Rattle.std.specs.Prelude.{◌≡◌};
ghost use Rattle.sync_words.specs.declared.entries.Operation.TheVariants.{Load, Store, Swap, Add, Sub, Cas};
ghost use Rattle.sync_words.specs.Entries.{entry};
ghost use Rattle.sync_words.specs.Views.{ReadsBack};
ghost use Rattle.sync_words.specs.Names.{view};
ghost use Rattle.sync_words.specs.Steps.{MayStep, HasStepped};

use crate::plays::{Adds, Exchanges, Loads, Number, Stores, Subs, Swaps};
use crate::seat::Seat;
use crate::words::Words;
use std::marker::Brand;

// A step makes one entry. A seat that has all numbers finds what it left in the word (`back`). In each function that ends in
// `_as`, N stands for the thread.
impl Words {
    /// What word `w` holds.
    pub fn load(&self, seat: &mut Seat, t: u32, w: usize) -> u64
        requires { MayStep self.now seat.old t w }
        ensures step { HasStepped self.now seat.old seat.new (entry t w (Load result)) }
        ensures back { ReadsBack (view seat.old) w result }
    {
        self.load_as::<Brand>(seat, t, w)
    }

    fn load_as<N: Number>(&self, seat: &mut Seat, t: u32, w: usize) -> u64
        requires number { t ≡ N.number }
        requires may { MayStep self.now seat.old t w }
        ensures step { HasStepped self.now seat.old seat.new (entry t w (Load result)) }
        ensures back { ReadsBack (view seat.old) w result }
    {
        self.table.shared.load::<Loads<N>>(&mut seat.token, w)
    }

    /// Writes `new` into word `w`.
    pub fn store(&self, seat: &mut Seat, t: u32, w: usize, new: u64)
        requires { MayStep self.now seat.old t w }
        ensures { HasStepped self.now seat.old seat.new (entry t w (Store new)) }
    {
        self.store_as::<Brand>(seat, t, w, new);
    }

    fn store_as<N: Number>(&self, seat: &mut Seat, t: u32, w: usize, new: u64)
        requires number { t ≡ N.number }
        requires may { MayStep self.now seat.old t w }
        ensures { HasStepped self.now seat.old seat.new (entry t w (Store new)) }
    {
        self.table
            .shared
            .store::<Stores<N>>(&mut seat.token, w, new);
    }

    /// Writes `new` into word `w`, and answers what it held.
    pub fn swap(&self, seat: &mut Seat, t: u32, w: usize, new: u64) -> u64
        requires { MayStep self.now seat.old t w }
        ensures step { HasStepped self.now seat.old seat.new (entry t w (Swap new result)) }
        ensures back { ReadsBack (view seat.old) w result }
    {
        self.swap_as::<Brand>(seat, t, w, new)
    }

    fn swap_as<N: Number>(&self, seat: &mut Seat, t: u32, w: usize, new: u64) -> u64
        requires number { t ≡ N.number }
        requires may { MayStep self.now seat.old t w }
        ensures step { HasStepped self.now seat.old seat.new (entry t w (Swap new result)) }
        ensures back { ReadsBack (view seat.old) w result }
    {
        self.table.shared.swap::<Swaps<N>>(&mut seat.token, w, new)
    }

    /// Adds `by` to word `w`, modulo 2^64, and answers what it held.
    pub fn add(&self, seat: &mut Seat, t: u32, w: usize, by: u64) -> u64
        requires { MayStep self.now seat.old t w }
        ensures step { HasStepped self.now seat.old seat.new (entry t w (Add by result)) }
        ensures back { ReadsBack (view seat.old) w result }
    {
        self.add_as::<Brand>(seat, t, w, by)
    }

    fn add_as<N: Number>(&self, seat: &mut Seat, t: u32, w: usize, by: u64) -> u64
        requires number { t ≡ N.number }
        requires may { MayStep self.now seat.old t w }
        ensures step { HasStepped self.now seat.old seat.new (entry t w (Add by result)) }
        ensures back { ReadsBack (view seat.old) w result }
    {
        self.table
            .shared
            .fetch_add::<Adds<N>>(&mut seat.token, w, by)
    }

    /// Takes `by` off word `w`, modulo 2^64, and answers what it held.
    pub fn sub(&self, seat: &mut Seat, t: u32, w: usize, by: u64) -> u64
        requires { MayStep self.now seat.old t w }
        ensures step { HasStepped self.now seat.old seat.new (entry t w (Sub by result)) }
        ensures back { ReadsBack (view seat.old) w result }
    {
        self.sub_as::<Brand>(seat, t, w, by)
    }

    fn sub_as<N: Number>(&self, seat: &mut Seat, t: u32, w: usize, by: u64) -> u64
        requires number { t ≡ N.number }
        requires may { MayStep self.now seat.old t w }
        ensures step { HasStepped self.now seat.old seat.new (entry t w (Sub by result)) }
        ensures back { ReadsBack (view seat.old) w result }
    {
        self.table
            .shared
            .fetch_sub::<Subs<N>>(&mut seat.token, w, by)
    }

    /// Writes `new` into word `w` where it holds `old`, and answers what it held.
    pub fn cas(&self, seat: &mut Seat, t: u32, w: usize, old: u64, new: u64) -> u64
        requires { MayStep self.now seat.old t w }
        ensures step { HasStepped self.now seat.old seat.new (entry t w (Cas old new result)) }
        ensures back { ReadsBack (view seat.old) w result }
    {
        self.cas_as::<Brand>(seat, t, w, old, new)
    }

    fn cas_as<N: Number>(&self, seat: &mut Seat, t: u32, w: usize, old: u64, new: u64) -> u64
        requires number { t ≡ N.number }
        requires may { MayStep self.now seat.old t w }
        ensures step { HasStepped self.now seat.old seat.new (entry t w (Cas old new result)) }
        ensures back { ReadsBack (view seat.old) w result }
    {
        self.table
            .shared
            .compare_exchange::<Exchanges<N>>(&mut seat.token, w, old, new)
    }
}
