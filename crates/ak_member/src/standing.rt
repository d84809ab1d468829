ghost use Rattle.std.specs.Prelude.{◌≡◌};
ghost use Rattle.ak_member.specs.Standing.{greater_status, older_number, merged_standing};

use crate::status::Status;
use ak_address::{Duplicate, Merge};
use std::alloc::{AllocError, Global};

/// What is known of one process (Akka's Cluster Specification, "Membership Lifecycle").
#[derive(Clone, Copy, Debug, PartialEq, Eq)]
pub enum Standing {
    /// It is a member: its status, and the number with which it became Up, 0 where it was never Up.
    Member(Status, u64),
    /// It was removed for good, a tombstone: whether it is confirmed that it has stopped.
    Buried(bool),
}

impl Standing {
    /// What the two standings of one process come to. Takes no memory.
    pub fn with(&self, other: &Standing) -> Standing
        ensures { result ≡ merged_standing self.now other.now }
    {
        match (*self, *other) {
            (Standing::Member(status, number), Standing::Member(other_status, other_number)) => {
                Standing::Member(
                    greater_status(status, other_status),
                    older_number(number, other_number),
                )
            }
            (Standing::Buried(confirmed), Standing::Buried(other_confirmed)) => {
                Standing::Buried(confirmed || other_confirmed)
            }
            (Standing::Buried(confirmed), Standing::Member(_, _)) => Standing::Buried(confirmed),
            (Standing::Member(_, _), Standing::Buried(confirmed)) => Standing::Buried(confirmed),
        }
    }
}

impl Duplicate for Standing {
    fn copy(&self, _alloc: Global) -> Result<Standing, AllocError> {
        Ok(*self)
    }
}

/// Two views of one process: a tombstone stays one, confirmed where either is; a member has the greater status and
/// the least number other than 0.
impl Merge for Standing {
    ghost merged = { merged_standing };

    fn merged(&self, _alloc: Global, other: &Standing) -> Result<Standing, AllocError> {
        Ok(self.with(other))
    }
}

fn greater_status(one: Status, other: Status) -> Status
    ensures { result ≡ greater_status one other }
{
    if one.rank() < other.rank() {
        other
    } else {
        one
    }
}

fn older_number(one: u64, other: u64) -> u64
    ensures { result ≡ older_number one other }
{
    if one == 0 {
        return other;
    }
    if other == 0 {
        return one;
    }
    one.min(other)
}
