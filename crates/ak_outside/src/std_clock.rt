// The system's clock, at the edge. What is trusted: that the runtime gives the time since some start, which never goes back.
ghost use Rattle.std.specs.Prelude.{◌≡◌, None};

use crate::clock::Clock;
use std::time;
use std::time::Duration;

/// The time since some start, in milliseconds. No readings are known.
#[derive(Drop)]
pub struct StdClock<'a, R: time::Clock> {
    runtime: &'a R,
    last: u64,
}

impl<'a, R: time::Clock> StdClock<'a, R> {
    /// The clock as the runtime has it. Until the system has given a reading it reads 0.
    pub fn new(rt: &'a R) -> Self
        ensures runtime { result.runtime.now ≡ rt.now }
        ensures last { result.last ≡ 0 }
    {
        StdClock {
            runtime: rt,
            last: 0,
        }
    }
}

impl<'a, R: time::Clock> Clock for StdClock<'a, R> {
    ghost readings = { λ _. None };

    /// The next reading, at most 2^64 - 1; where the system gives none, the last one, or 0.
    fn now(&mut self) -> u64 {
        if let Ok(since) = self.runtime.monotonic() {
            self.last = milliseconds(since);
        }
        self.last
    }
}

fn milliseconds(since: Duration) -> u64 {
    match u64::try_from(since.as_millis()) {
        Ok(milliseconds) => milliseconds,
        Err(_) => u64::MAX,
    }
}
