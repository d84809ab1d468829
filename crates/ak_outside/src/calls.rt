// The calls of one kind, which fail where they are listed.
ghost use Rattle.std.specs.Prelude.{◌≡◌, IfOk};
ghost use Rattle.ak_outside.specs.MemoryLink.{one_made, fails_next};

use std::alloc::{AllocError, Global};
use std::marker::Model;

/// How many calls were made, at most 2^64 - 1, and the numbers of those that fail, counted from 1.
#[derive(Drop)]
pub(crate) struct Calls {
    listed: Vec<u64>,
    count: u64,
}

impl Model for Calls {
    ghost use Rattle.ak_outside.specs.MemoryLink.{CallsMade};

    ghost Value = { CallsMade };

    ghost view = { λ s. record { failing = s.listed.items; made = s.count } };
}

impl Calls {
    /// No call was made yet.
    pub(crate) fn new(alloc: Global, failing: &[u64]) -> Result<Calls, AllocError>
        ensures { IfOk result (λ s. s ≡ record { failing = failing.now; made = 0 }) }
    {
        Ok(Calls {
            listed: failing.to_vec(alloc)?,
            count: 0,
        })
    }

    /// Counts one more call, and whether it is to fail.
    pub(crate) fn next_fails(&mut self) -> bool
        ensures value { result ≡ fails_next self.old }
        ensures count { self.new ≡ one_made self.old }
    {
        self.count = self.count.saturating_add(1);
        self.listed.contains(&self.count)
    }

    /// How many were made.
    pub(crate) fn made(&self) -> u64
        ensures { result ≡ self.now.made }
    {
        self.count
    }
}
