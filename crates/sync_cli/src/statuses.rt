//! How a call ends.
ghost use Rattle.std.specs.Prelude.{◌≡◌};
ghost use Rattle.sync_cli.specs.Statuses.{number_of};

/// How a call ended. The program ends with the status's number, 0 to 7 in this order.
#[derive(Clone, Copy)]
pub enum Status {
    /// The answer is on `out`.
    Done,
    /// The text breaks a rule.
    Refused,
    /// The words are not allowed.
    Usage,
    /// The source failed.
    ReadFault,
    /// A sink failed.
    WriteFault,
    /// Memory was wanting.
    NoMemory,
    /// A run used all its steps.
    Budget,
    /// A number left signed 128 bits.
    Width,
}

impl Status {
    /// The number that the program ends with.
    pub fn number(self) -> u8
        ensures { result ≡ number_of self }
    {
        self as u8
    }
}
