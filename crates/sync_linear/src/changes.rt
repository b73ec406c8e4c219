//! How one number changes another: by a sum, by a difference, or by a sum with a multiple.
ghost use Rattle.std.specs.Option.{SomeIff};
ghost use Rattle.sync_linear.specs.Changes.{changed, ChangeFits};

/// What is done with the second of two numbers.
#[derive(Clone, Copy, Debug)]
pub enum Change {
    /// It is added.
    Plus,
    /// It is taken away, in one step.
    Minus,
    /// So many times it is added: the multiple first, and then the sum.
    Times(i128),
}

/// Two numbers, the second of which changes the first.
#[derive(Clone, Copy, Debug)]
pub(crate) struct Pair {
    pub old: i128,
    pub by: i128,
}

impl Change {
    /// The first number, changed by the second; `None` exactly where a step leaves signed 128 bits.
    pub(crate) fn of(self, pair: Pair) -> Option<i128>
        ensures { SomeIff result (ChangeFits self pair.old pair.by) (changed self pair.old pair.by) }
    {
        match self {
            Change::Plus => pair.old.checked_add(pair.by),
            Change::Minus => pair.old.checked_sub(pair.by),
            Change::Times(times) => match times.checked_mul(pair.by) {
                Some(product) => pair.old.checked_add(product),
                None => None,
            },
        }
    }
}
