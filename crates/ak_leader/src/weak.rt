ghost use Rattle.std.specs.Prelude.{◌≡◌, ◌≢◌, [], IfOk, OnErr, slice_get, option_copied, option_to_list};
ghost use Rattle.std.specs.Prelude as list;
ghost use Rattle.std.specs.FinMap as map;
ghost use Rattle.ak_member.specs.Standing.{member_pairs};
ghost use Rattle.ak_member.specs.declared.effect.Effect.TheVariants.{Rise};
ghost use Rattle.ak_member.specs.declared.status.Status.TheVariants.{WeaklyUp};
ghost use Rattle.ak_reach.specs.Unreachable.{unreachable_members};
ghost use Rattle.ak_leader.specs.Leader.{all_let_in, weak_effects};

use ak_address::Unique;
use ak_member::{Effect, Effects, Members, Standing, Status};
use ak_reach::{Rows, is_unreachable};
use std::alloc::{AllocError, Global};

/// What the leader makes of a view that does not settle: each Joining member that can be reached becomes WeaklyUp, in the order
/// of processes (Akka's Cluster Specification, "WeaklyUp Members"). Only memory can fail, and only where there is an effect.
pub fn weak_effects(alloc: Global, members: &Members, rows: &Rows) -> Result<Effects, AllocError>
    ensures ok { IfOk result (λ effects. effects ≡ weak_effects (record { standings = members.now; rows = rows.now })) }
    ensures memory { OnErr result (weak_effects (record { standings = members.now; rows = rows.now }) ≢ []) }
{
    let mut effects = Effects::empty(alloc);
    'pairs: for pair in 0..members.uniques() {
        if let Some(who) = let_in_at(members, rows, pair) {
            effects.push(Effect::Rise(who.copy(alloc)?, Status::WeaklyUp, 0))?;
        }
    }
    Ok(effects)
}

// The member at an index among all that are known, where it is let in.
fn let_in_at<'a>(members: &'a Members, rows: &Rows, pair: usize) -> Option<&'a Unique>
    ensures { list.map (λ one. Rise one WeaklyUp 0) (option_to_list (option_copied result)) ≡ all_let_in (unreachable_members (record { standings = members.now; rows = rows.now })) (member_pairs (option_to_list (slice_get (map.entries members.now) pair))) }
{
    match members.pair(pair) {
        Some((who, Standing::Member(status, _))) => {
            if status.is_joining() && !is_unreachable(members, rows, who) {
                return Some(who);
            }
            None
        }
        Some((_, Standing::Buried(_))) => None,
        None => None,
    }
}
