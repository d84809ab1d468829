ghost use Rattle.std.specs.Prelude.{◌≡◌, ◌≢◌, [], IfOk, OnErr, slice_get, option_copied, option_to_list};
ghost use Rattle.std.specs.Prelude as list;
ghost use Rattle.std.specs.FinMap as map;
ghost use Rattle.ak_member.specs.declared.effect.Effect.TheVariants.{Rise};
ghost use Rattle.ak_member.specs.declared.status.Status.TheVariants as status;
ghost use Rattle.ak_member.specs.Standing.{member_pairs};
ghost use Rattle.ak_reach.specs.Unreachable.{unreachable_members};
ghost use Rattle.ak_downing.specs.Downing.{is_against, all_downed, downs};
ghost use Rattle.ak_downing.specs.Sides.{seen_with};

use crate::decision::Decision;
use crate::side::is_beside;
use ak_address::Unique;
use ak_member::{Effect, Effects, Members, Status};
use ak_reach::Rows;
use std::alloc::{AllocError, Global};

/// The effects of a decision, in the order of processes: whom it is against rises to Down, unless it is Down already
/// (Akka's Split Brain Resolver, "Strategies"). Only memory can fail, and only where somebody is downed.
pub fn downs(
    alloc: Global,
    decision: Decision,
    members: &Members,
    rows: &Rows,
    me: &Unique,
) -> Result<Effects, AllocError>
    ensures ok { IfOk result (λ effects. effects ≡ downs decision (seen_with members.now rows.now) me.now) }
    ensures memory { OnErr result (downs decision (seen_with members.now rows.now) me.now ≢ []) }
{
    let mut effects = Effects::empty(alloc);
    'pairs: for pair in 0..members.uniques() {
        if let Some(unique) = downed_at_pair(decision, members, rows, me, pair) {
            effects.push(Effect::Rise(unique.copy(alloc)?, Status::Down, 0))?;
        }
    }
    Ok(effects)
}

// The member at a pair, where there is one and the decision downs it.
fn downed_at_pair<'a>(
    decision: Decision,
    members: &'a Members,
    rows: &Rows,
    me: &Unique,
    pair: usize,
) -> Option<&'a Unique>
    ensures { list.map (λ who. Rise who status.Down 0) (option_to_list (option_copied result)) ≡ all_downed (is_against decision (unreachable_members (seen_with members.now rows.now)) me.now) (member_pairs (option_to_list (slice_get (map.entries members.now) pair))) }
{
    match members.member_at_pair(pair) {
        Some(member) => {
            if is_against(decision, members, rows, me, member.unique) && !member.status.is_down() {
                return Some(member.unique);
            }
            None
        }
        None => None,
    }
}

fn is_against(decision: Decision, members: &Members, rows: &Rows, me: &Unique, who: &Unique) -> bool
    ensures { result ≡ is_against decision (unreachable_members (seen_with members.now rows.now)) me.now who.now }
{
    match decision {
        Decision::DownUnreachable => !is_beside(members, rows, me, who),
        Decision::DownReachable => is_beside(members, rows, me, who),
        Decision::DownAll => true,
    }
}
