//! How a table ends.
ghost use Rattle.std.specs.Prelude.{◌≡◌, ◌<◌, length, slice_index};
ghost use Rattle.sync_words.specs.Views.{HoldsAll, IsWhole};
ghost use Rattle.sync_words.specs.Names.{view, Belongs};
ghost use Rattle.sync_words.specs.Last.{last_words};

use crate::finished::Finished;
use crate::seat::Seat;
use crate::words::Words;

impl Words {
    /// Ends the table. One list of entries, which is legal from the first words, has this seat's entries and no others, and leaves
    /// the words that the answer has.
    pub fn finish(self, seat: Seat) -> Finished
        requires own { Belongs self seat }
        requires all { HoldsAll (view seat) }
        ensures size { length (last_words result) ≡ length (view seat).words }
        ensures whole { IsWhole (view seat) (last_words result) }
    {
        let Words { table } = self;
        let Seat { token } = seat;
        let closed = table.close_with(token);
        Finished { closed }
    }
}

impl Finished {
    /// What word `w` (from 0) holds at the end.
    pub fn word(&self, w: usize) -> u64
        requires { w < length (last_words self.now) }
        ensures { result ≡ slice_index (last_words self.now) w }
    {
        self.closed.word(w)
    }
}
