//! Which calls of an object in memory fail.
ghost use Rattle.std.specs.Prelude.{◌≡◌, ◌⊎◌, ◌↔◌, IsTrue};
ghost use Rattle.std.specs.Bool.{OnTrue, OnFalse};
ghost use Rattle.sync_base.specs.InMemory.{risen, FailsNext};

/// The numbers of the calls that are to fail, and the counts of calls and of faults so far.
#[derive(Debug, Drop)]
pub(crate) struct Plan {
    pub failing: Vec<u64>,
    pub calls: u64,
    pub faults: u64,
}

impl Plan {
    pub(crate) fn new(failing: Vec<u64>) -> Plan
        ensures { result ≡ record { failing = failing; calls = 0; faults = 0 } }
    {
        Plan {
            failing,
            calls: 0,
            faults: 0,
        }
    }

    /// Counts one more call, and a fault where it fails: by the plan, or since there is no room.
    pub(crate) fn fails(&mut self, is_full: bool) -> bool
        ensures fails { IsTrue result ↔ (IsTrue is_full ⊎ FailsNext self.old.failing.items self.old.calls) }
        ensures fault { OnTrue result (self.new ≡ record self.old { calls = risen self.old.calls; faults = risen self.old.faults }) }
        ensures sound { OnFalse result (self.new ≡ record self.old { calls = risen self.old.calls }) }
    {
        self.calls = self.calls.saturating_add(1);
        let fails = is_full || self.failing.contains(&self.calls);
        if fails {
            self.faults = self.faults.saturating_add(1);
        }
        fails
    }
}
