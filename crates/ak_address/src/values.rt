ghost use Rattle.std.specs.Prelude.{◌+◌, max, min};

use crate::address::Unique;
use crate::table::{Duplicate, Merge, Raise};
use std::alloc::{AllocError, Global};

impl Duplicate for () {
    fn copy(&self, _alloc: Global) -> Result<(), AllocError> {
        Ok(())
    }
}

impl Duplicate for u32 {
    fn copy(&self, _alloc: Global) -> Result<u32, AllocError> {
        Ok(*self)
    }
}

impl Duplicate for u64 {
    fn copy(&self, _alloc: Global) -> Result<u64, AllocError> {
        Ok(*self)
    }
}

impl Duplicate for Unique {
    fn copy(&self, alloc: Global) -> Result<Unique, AllocError> {
        Unique::copy(self, alloc)
    }
}

/// A process that both sets have is in the set of both.
impl Merge for () {
    ghost merged = { λ _ _. tt };

    fn merged(&self, alloc: Global, other: &()) -> Result<(), AllocError> {
        let _ = alloc;
        let _ = other;
        Ok(())
    }
}

/// Two counts of one process come to the greater: counts only rise, so the greater is the newer.
impl Merge for u64 {
    ghost merged = { max };

    fn merged(&self, _alloc: Global, other: &u64) -> Result<u64, AllocError> {
        Ok((*self).max(*other))
    }
}

/// A counter rises by one, and stands still at the most.
impl Raise for u32 {
    ghost raised = { λ most n. min (n + 1) most };

    fn raise(&mut self, most: u32) {
        if *self < most {
            *self += 1;
        } else {
            *self = most;
        }
    }
}
