//! Whether two views know the same.

ghost use Rattle.std.specs.Prelude.{◌≡◌, ◌↔◌, IsTrue, option_map};
ghost use Rattle.ak_address.specs.Unique.{UniqueModel};
ghost use Rattle.ak_member.specs.declared.standing.Standing.{Standing};

use crate::members::Members;
use crate::standing::Standing;
use ak_address::Unique;

impl Members {
    /// Whether both know the same of the same processes. It is told sooner where the processes came to both in the same order, as
    /// they do to copies. Takes no memory.
    pub fn is(&self, other: &Members) -> bool
        ensures { IsTrue result ↔ self.now ≡ other.now }
    {
        self.has_slots_of(other) || are_same(self, other)
    }
}

// The same, process by process in their order.
fn are_same(one: &Members, other: &Members) -> bool
    ensures { IsTrue result ↔ one.now ≡ other.now }
{
    let many = one.uniques();
    if other.uniques() != many {
        return false;
    }
    'pairs: for index in 0..many {
        if !is_same_pair(one.pair(index), other.pair(index)) {
            return false;
        }
    }
    true
}

// Whether both are none, or both the same process of which the same is known.
fn is_same_pair(one: Option<(&Unique, Standing)>, other: Option<(&Unique, Standing)>) -> bool
    ensures { IsTrue result ↔ option_map {U = UniqueModel × Standing} (λ pair. (pair.0.now, pair.1)) one.entry ≡ option_map {U = UniqueModel × Standing} (λ pair. (pair.0.now, pair.1)) other.entry }
{
    match (one, other) {
        (None, None) => true,
        (Some((one, standing)), Some((other, known))) => standing == known && one.is(other),
        _ => false,
    }
}
