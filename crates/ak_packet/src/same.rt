ghost use Rattle.std.specs.Prelude.{◌≡◌, ◌↔◌, IsTrue};
ghost use Rattle.std.specs.Option.{option_copied};

use ak_address::{Text, Unique, Uniques};
use ak_clock::{Relation, Version};
use ak_promise::Ballot;
use ak_shard_id::Report;
use ak_wire::Reports;

/// A value of which it is told whether it is the same as another.
pub(crate) trait Same: Sized {
    /// Whether both are the same. Takes no memory.
    fn is_same(&self, other: &Self) -> bool
        ensures { IsTrue result ↔ self.now ≡ other.now };
}

impl Same for Text {
    fn is_same(&self, other: &Text) -> bool {
        self.is(other)
    }
}

impl Same for Unique {
    fn is_same(&self, other: &Unique) -> bool {
        self.is(other)
    }
}

impl Same for Ballot {
    fn is_same(&self, other: &Ballot) -> bool {
        self.term == other.term && self.unique.is(&other.unique)
    }
}

impl Same for Version {
    fn is_same(&self, other: &Version) -> bool {
        matches!(self.compare(other), Relation::Same)
    }
}

impl Same for Uniques {
    fn is_same(&self, other: &Uniques) -> bool {
        let many = self.len();
        if other.len() != many {
            return false;
        }
        'processes: for index in 0..many {
            if !is_same_option(self.at(index), other.at(index)) {
                return false;
            }
        }
        true
    }
}

impl Same for Report {
    fn is_same(&self, other: &Report) -> bool {
        self.shard == other.shard && self.number == other.number && self.hosted == other.hosted
    }
}

impl Same for Reports {
    fn is_same(&self, other: &Reports) -> bool {
        are_same(self.as_slice(), other.as_slice())
    }
}

/// Whether both are none, or both the same. Takes no memory.
pub(crate) fn is_same_option<T: Same>(one: Option<&T>, other: Option<&T>) -> bool
    ensures { IsTrue result ↔ option_copied one.entry ≡ option_copied other.entry }
{
    match (one, other) {
        (None, None) => true,
        (Some(one), Some(other)) => one.is_same(other),
        _ => false,
    }
}

// Whether both have the same elements in the same order.
fn are_same<T: Same>(one: &[T], other: &[T]) -> bool
    ensures { IsTrue result ↔ one.now ≡ other.now }
{
    let many = one.len();
    if other.len() != many {
        return false;
    }
    'elements: for index in 0..many {
        if !one[index].is_same(&other[index]) {
            return false;
        }
    }
    true
}
