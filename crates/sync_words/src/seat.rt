//! The token that a thread steps with.
ghost use Rattle.std.specs.Prelude.{◌≡◌, ◌<◌, [], length};
ghost use Rattle.sync_words.specs.Rule.{IsSeated};

use crate::rule::View;

/// A set of thread numbers of one table, with the log of each. It has no bytes.
///
/// Its view says which numbers and which entries; some state of the table has a seat with this view.
#[derive(Drop)]
pub struct Seat {
    pub(crate) token: atomic_table::Seat<u8, View>,
    ghost bare: { token.me.1 ≡ [] },
    ghost some: { 0 < length token.me.0.numbers },
    ghost rests: { ∥ IsSeated token.me.0 ∥₁ },
}
