//! The leaves of sums: numbers, and multiples of one atom.
ghost use Rattle.std.specs.Prelude.{FitsSigned, ◌*ℤ◌};
ghost use Rattle.std.specs.Int.{w128};
ghost use Rattle.std.specs.Option.{SomeIff};
ghost use Rattle.sync_linear.specs.Leaves.{number_of, scaled_leaf};

/// A number, or the id of an atom with how many times it stands there.
#[derive(Clone, Copy, Debug)]
pub(crate) enum Leaf {
    Number(i128),
    Atom(u32, i128),
}

impl Leaf {
    /// A multiple of this leaf; `None` exactly where its number leaves signed 128 bits.
    pub(crate) fn scaled(self, times: i128) -> Option<Leaf>
        ensures { SomeIff result (FitsSigned w128 (times *ℤ number_of self)) (scaled_leaf times self) }
    {
        match self {
            Leaf::Number(number) => match times.checked_mul(number) {
                Some(product) => Some(Leaf::Number(product)),
                None => None,
            },
            Leaf::Atom(id, number) => match times.checked_mul(number) {
                Some(product) => Some(Leaf::Atom(id, product)),
                None => None,
            },
        }
    }
}
