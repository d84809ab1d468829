ghost use Rattle.std.specs.Prelude.{◌≡◌, ◌≢◌, [], IfOk, OnErr, slice_get, option_copied, option_to_list};
ghost use Rattle.std.specs.FinMap as map;
ghost use Rattle.ak_member.specs.Standing.{member_pairs};
ghost use Rattle.ak_leader.specs.Leader.{founding_effects};
ghost use Rattle.ak_leader.specs.Walk.{joining};

use ak_address::Unique;
use ak_member::{Effect, Effects, Members, Standing, Status};
use std::alloc::{AllocError, Global};

/// What founds a cluster: each Joining member, in the order of processes, comes Up with the numbers 1, 2, 3 and so on
/// (this project's choice; in Akka the first seed node joins itself). Only memory can fail, and only where a member is Joining.
pub fn founding(alloc: Global, members: &Members) -> Result<Effects, AllocError>
    ensures ok { IfOk result (λ effects. effects ≡ founding_effects members.now) }
    ensures memory { OnErr result (founding_effects members.now ≢ []) }
{
    let mut effects = Effects::empty(alloc);
    let mut number = 0;
    'pairs: for pair in 0..members.uniques() {
        if let Some(who) = joining_at(members, pair) {
            number += 1;
            effects.push(Effect::Rise(who.copy(alloc)?, Status::Up, number))?;
        }
    }
    Ok(effects)
}

// The member at an index among all that are known, where there is a Joining one.
fn joining_at(members: &Members, pair: usize) -> Option<&Unique>
    ensures { option_to_list (option_copied result) ≡ joining (member_pairs (option_to_list (slice_get (map.entries members.now) pair))) }
{
    match members.pair(pair) {
        Some((who, Standing::Member(Status::Joining, _))) => Some(who),
        Some((_, Standing::Member(_, _))) => None,
        Some((_, Standing::Buried(_))) => None,
        None => None,
    }
}
