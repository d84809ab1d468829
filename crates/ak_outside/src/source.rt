// Where bytes come from.
ghost use Rattle.std.specs.Prelude.{ℕ, ◌≤◌, List, Option};
ghost use Rattle.ak_outside.specs.Reads.{FitsBuffer, LeavesRest, GivesFirst, EndsExactly, ReadCause};

/// The answer of a read.
#[derive(Clone, Copy, Debug, PartialEq, Eq)]
pub enum Read {
    /// So many bytes stand at the start of the buffer. None in a buffer that has room is the end.
    Got(usize),
    /// The source has failed and counted it. What is left is as it was.
    Failed,
}

/// A source of bytes. Each fault is counted: this project's choice.
pub trait Source {
    /// The bytes that are left, where they are known. Once known they stay known.
    ghost remaining: { Self → Option (List ℕ) };

    /// How often the source has failed. It never falls; kept as a `u64` it stays at 2^64 - 1 once there.
    ghost faults: { Self → ℕ };

    /// Gives some first bytes of those left, at most the buffer's length, at the start of the buffer,
    /// and leaves the rest of the buffer. `Got(0)` for a buffer that has room comes exactly where none
    /// is left. `Got` leaves the count of faults. `Failed` comes only where the count rose in this
    /// call, or stands at 2^64 - 1 after it, and leaves what was left and the whole buffer.
    fn read(&mut self, buffer: &mut [u8]) -> Read
        ensures count { faults self.old ≤ faults self.new }
        ensures cause { ReadCause (faults self.old) (faults self.new) result }
        ensures fits { FitsBuffer result buffer.new }
        ensures rest { LeavesRest result buffer.old buffer.new }
        ensures bytes { GivesFirst (remaining self.old) (remaining self.new) result buffer.new }
        ensures end { EndsExactly (remaining self.old) result buffer.new };
}
