//! Machines that hold always.
ghost use Rattle.std.specs.Prelude.{◌≡◌};
ghost use Rattle.sync_machine.specs.States.{HoldsAlways};
ghost use Rattle.sync_machine.specs.Views.{machine_tree};

use std::marker::Model;
use sync_machine::Machine;

/// A machine that holds always: every state that it reaches meets every invariant, and no safety condition or assertion
/// fails at a reached state.
#[derive(Drop)]
pub struct Inductive {
    machine: Machine,
}

impl Model for Inductive {
    ghost use Rattle.sync_machine.specs.States.{HoldsAlways};
    ghost use Rattle.sync_machine.specs.Views.{machine_tree};
    ghost use Rattle.sync_machine.specs.declared.machine.Machine.{Machine};

    ghost Value = { Machine };

    ghost view = { λ i. i.machine };

    ghost invariant = { λ i. HoldsAlways (machine_tree i.machine) };
}

impl Inductive {
    /// The machine, which has been shown to hold always.
    pub(crate) fn new(machine: Machine) -> Inductive
        requires { HoldsAlways (machine_tree machine) }
        ensures { result ≡ machine }
    {
        Inductive { machine }
    }

    /// The machine.
    pub fn machine(&self) -> &Machine
        ensures machine { result.now ≡ self.now }
        ensures holds { HoldsAlways (machine_tree self.now) }
    {
        &self.machine
    }
}
