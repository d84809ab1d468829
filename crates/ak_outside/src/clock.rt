// What tells the time.
ghost use Rattle.std.specs.Prelude.{◌≡◌, ◌+◌, ℕ, Option, Some, IfOk};
ghost use Rattle.ak_outside.specs.Clock.{Reads, reading_after};

use std::alloc::{AllocError, Global};

/// A clock of milliseconds. It has no fault: this project's choice.
pub trait Clock {
    /// The readings to come, by how many come before, where they are known.
    ghost readings: { Self → Option (ℕ → ℕ) };

    /// The next reading.
    fn now(&mut self) -> u64
        ensures { Reads (readings self.old) (readings self.new) result };
}

/// A clock in memory, whose readings are listed. They are known.
#[derive(Drop)]
pub struct MemoryClock {
    listed: Vec<u64>,
    next: usize,
}

impl MemoryClock {
    /// A clock with these readings. It repeats the last one, and reads 0 where there is none.
    pub fn new(alloc: Global, readings: &[u64]) -> Result<MemoryClock, AllocError>
        ensures { IfOk result (λ clock. ⟦<MemoryClock as Clock>⟧.readings clock ≡ Some (reading_after readings.now)) }
    {
        Ok(MemoryClock {
            listed: readings.to_vec(alloc)?,
            next: 0,
        })
    }
}

impl Clock for MemoryClock {
    ghost readings = { λ s. Some (λ n. reading_after s.listed.items (s.next + n)) };

    fn now(&mut self) -> u64 {
        let last = self.listed.len().saturating_sub(1);
        let reading = match self.listed.get(self.next.min(last)) {
            Some(reading) => *reading,
            None => 0,
        };
        if self.next < last {
            self.next += 1;
        }
        reading
    }
}
