ghost use Rattle.ak_member.specs.View.{later_row};

use ak_address::{Duplicate, Merge, Uniques};
use std::alloc::{AllocError, Global};
use std::marker::Model;

/// Whom an observer found unreachable, and the number of the observer's entry in the history that said so (Akka's
/// Cluster Specification, "Failure Detector": the reachability of a member is what its observers say).
#[derive(Drop)]
pub struct Row {
    pub number: u64,
    pub subjects: Uniques,
}

impl Model for Row {
    ghost use Rattle.ak_member.specs.View.{coded_row};
    ghost use Rattle.ak_member.specs.View as shown;

    ghost Value = { shown.Row };

    ghost coded = { coded_row };

    ghost view = { λ r. record { number = r.number; subjects = r.subjects } };
}

impl Duplicate for Row {
    fn copy(&self, alloc: Global) -> Result<Row, AllocError> {
        let number = self.number;
        let subjects = self.subjects.copy(alloc)?;
        Ok(Row { number, subjects })
    }
}

/// Two rows of one observer: the one with the greater number, at equal numbers the own one.
impl Merge for Row {
    ghost merged = { later_row };

    fn merged(&self, alloc: Global, other: &Row) -> Result<Row, AllocError> {
        if self.number < other.number {
            return other.copy(alloc);
        }
        self.copy(alloc)
    }
}
