// How a run ended.
ghost use Rattle.std.specs.Prelude.{◌≡◌};
ghost use Rattle.ak_outside.specs.Codes.{exit_code};

/// How a run ended: this project's choice of causes.
#[derive(Clone, Copy, Debug, PartialEq, Eq)]
pub enum Status {
    /// The work was done.
    Done = 0,
    /// The work was done, and an entity was active on two nodes.
    Double = 1,
    /// There is no command, or its options are not accepted.
    Usage = 2,
    /// The configuration is refused.
    Configuration = 3,
    /// A line of the schedule is refused.
    Schedule = 4,
    /// A read failed.
    Read = 5,
    /// A write failed.
    Write = 6,
    /// There was no memory.
    Memory = 7,
    /// The link failed.
    Link = 8,
    /// Too many turns in a row made no tick.
    Turns = 9,
}

impl Status {
    /// The process's exit status, 0 to 9 in the order of the variants.
    pub fn code(&self) -> u8
        ensures { result ≡ exit_code self.now }
    {
        *self as u8
    }
}
