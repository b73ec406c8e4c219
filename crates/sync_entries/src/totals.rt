//! Sums of numbers of 128 bits that may leave 128 bits on the way.
ghost use Rattle.std.specs.Prelude.{◌≡◌, pos, negsuc, ◌+ℤ◌, ◌-ℤ◌, ◌≤ℤ◌, ◌<ℤ◌, ◌-◌, ◌^◌, SomeIff, FitsSigned};
ghost use Rattle.std.specs.Int.{w128};
ghost use Rattle.sync_entries.specs.Totals.{sum_in};

/// The number `low`, and as many times 2^128 as `carries` says.
#[derive(Clone, Copy, Debug)]
pub(crate) struct Total {
    low: i128,
    carries: i64,
}

impl Total {
    pub(crate) fn zero() -> Total
        ensures value { sum_in result ≡ pos 0 }
        ensures carries { result.carries ≡ pos 0 }
    {
        Total { low: 0, carries: 0 }
    }

    /// The sum with one number more.
    pub(crate) fn plus(self, value: i128) -> Total
        requires above { negsuc (2 ^ 63 - 1) <ℤ self.carries }
        requires below { self.carries <ℤ pos (2 ^ 63 - 1) }
        ensures value { sum_in result ≡ sum_in self +ℤ value }
        ensures falls { (self.carries -ℤ pos 1) ≤ℤ result.carries }
        ensures rises { result.carries ≤ℤ (self.carries +ℤ pos 1) }
    {
        let (low, left) = self.low.overflowing_add(value);
        let carries = if !left {
            self.carries
        } else if value < 0 {
            self.carries - 1
        } else {
            self.carries + 1
        };
        Total { low, carries }
    }

    /// The sum, none where it is outside signed 128 bits.
    pub(crate) fn narrow(self) -> Option<i128>
        ensures { SomeIff result (FitsSigned w128 (sum_in self)) (sum_in self) }
    {
        if self.carries == 0 {
            Some(self.low)
        } else {
            None
        }
    }
}
