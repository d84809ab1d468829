// Calls to the outside that are tried again while a signal interrupts them, and whose failures are counted.
ghost use Rattle.std.specs.Prelude.{◌≡◌, ◌≤◌, ℕ, Result};
ghost use Rattle.std.specs.declared.io.Error.{Error};
ghost use Rattle.ak_outside.specs.Tries.{Settles, CountsFailure};

use std::io;
use std::io::ErrorKind;

/// A call to the outside that moves some bytes and may be interrupted.
pub(crate) trait Attempt<P> {
    /// What one call may give: the state before it, its answer and the state after it.
    ghost gives: { P → Self → Result ℕ Error → Self → Type 0 };

    /// One call. It says how many bytes were moved.
    fn attempt(&mut self, with: P) -> io::Result<usize>
        ensures { gives with self.old result self.new };
}

/// A caller, and how many of its calls have failed.
#[derive(Drop)]
pub(crate) struct Counted<C> {
    pub(crate) caller: C,
    pub(crate) fault_count: u64,
}

impl<C> Counted<C> {
    /// A caller that has not failed.
    pub(crate) fn new(caller: C) -> Self
        ensures caller { result.caller ≡ caller }
        ensures faults { result.fault_count ≡ 0 }
    {
        Counted {
            caller,
            fault_count: 0,
        }
    }

    /// Calls until a call is not interrupted, says how many bytes that one moved, and counts it where
    /// it failed, which is none. It gives up after 2^64 - 1 interruptions, which is none too.
    pub(crate) fn call<P: Copy>(&mut self, with: P) -> Option<usize>
    where
        C: Attempt<P>,
        ensures settled { Settles (C.gives with) self.old.caller result self.new.caller }
        ensures count { self.old.fault_count ≤ self.new.fault_count }
        ensures counted { CountsFailure self.old.fault_count self.new.fault_count result }
    {
        'tries: for _ in 0..u64::MAX {
            match self.caller.attempt(with) {
                Ok(count) => return Some(count),
                Err(e) => {
                    if e.kind() != ErrorKind::Interrupted {
                        self.fault_count = self.fault_count.saturating_add(1);
                        return None;
                    }
                }
            }
        }
        self.fault_count = self.fault_count.saturating_add(1);
        None
    }
}
