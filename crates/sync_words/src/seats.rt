//! How seats are made, cut and put together. None of it makes an entry.
ghost use Rattle.std.specs.Prelude.{◌≡◌, ℕ, ◌<◌, ◌≤◌, false, length, filter, nat_lt, nat_le, IfOk};
ghost use Rattle.sync_words.specs.Entries.{has};
ghost use Rattle.sync_words.specs.Views.{opened, below, from, merged, log};
ghost use Rattle.sync_words.specs.Rule.{IsSeated};
ghost use Rattle.sync_words.specs.Names.{view, Belongs};

use crate::plays::{Cuts, Glues, Looks, Number};
use crate::rule::About;
use crate::seat::Seat;
use crate::words::Words;
use atomic_table::Table;
use std::alloc::Global;
use std::marker::Brand;
use sync_base::NoMemory;

impl Words {
    /// A table with these words, and the seat that has the thread numbers below `threads`.
    pub fn new(alloc: Global, init: &[u64], threads: u32) -> Result<(Words, Seat), NoMemory>
        requires words { 0 < length init.now }
        requires threads { 0 < threads }
        ensures own { IfOk result (λ made. Belongs made.0 made.1) }
        ensures view { IfOk result (λ made. view made.1 ≡ opened init.now threads) }
        ensures rests { IfOk result (λ made. IsSeated (view made.1)) }
    {
        let mut words = Vec::with_capacity(alloc, init.len())?;
        words.extend_from_slice(init)?;
        let about = About { words, threads };
        let (table, token) = Table::of_words(alloc, init, &about)?;
        Ok((Words { table }, Seat { token }))
    }

    /// Moves the numbers from `at` on, with their logs, into a new seat. It takes no memory.
    pub fn split(&self, seat: &mut Seat, at: u32) -> Seat
        requires own { Belongs self.now seat.old }
        requires low { 0 < length (filter (λ n. nat_lt n at) (view seat.old).numbers) }
        requires high { 0 < length (filter (λ n. nat_le at n) (view seat.old).numbers) }
        ensures own { Belongs self.now seat.new × Belongs self.now result }
        ensures kept { view seat.new ≡ below at (view seat.old) }
        ensures moved { view result ≡ from at (view seat.old) }
        ensures kept_logs { (t : ℕ) → t < at → log (view seat.new) t ≡ log (view seat.old) t }
        ensures moved_logs { (t : ℕ) → at ≤ t → log (view result) t ≡ log (view seat.old) t }
        ensures rests { ∥ IsSeated (view seat.new) ∥₁ × ∥ IsSeated (view result) ∥₁ }
    {
        self.split_as::<Brand>(seat, at)
    }

    fn split_as<N: Number>(&self, seat: &mut Seat, at: u32) -> Seat
        requires number { at ≡ N.number }
        requires own { Belongs self.now seat.old }
        requires low { 0 < length (filter (λ n. nat_lt n at) (view seat.old).numbers) }
        requires high { 0 < length (filter (λ n. nat_le at n) (view seat.old).numbers) }
        ensures own { Belongs self.now seat.new × Belongs self.now result }
        ensures kept { view seat.new ≡ below at (view seat.old) }
        ensures moved { view result ≡ from at (view seat.old) }
    {
        let token = self.table.shared.split_seat::<Cuts<N>>(&mut seat.token);
        Seat { token }
    }

    /// Puts the numbers and logs of `from` into `into`. It reads word 0 once more, to learn that a list has the seat.
    pub fn merge(&self, into: &mut Seat, from: Seat)
        requires own { Belongs self.now into.old × Belongs self.now from }
        ensures own { Belongs self.now into.new }
        ensures view { view into.new ≡ merged (view into.old) (view from) }
        ensures own_logs { (t : ℕ) → has (view from).numbers t ≡ false → log (view into.new) t ≡ log (view into.old) t }
        ensures other_logs { (t : ℕ) → has (view into.old).numbers t ≡ false → log (view into.new) t ≡ log (view from) t }
        ensures rests { IsSeated (view into.new) }
    {
        let Seat { token } = from;
        self.table.shared.join_seat::<Glues>(&mut into.token, token);
        self.table.shared.load::<Looks>(&mut into.token, 0);
    }
}
