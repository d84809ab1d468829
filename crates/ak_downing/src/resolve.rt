ghost use Rattle.std.specs.Prelude.{◌≡◌, ◌<◌, ◌^◌};
ghost use Rattle.std.specs.FinMap as map;
ghost use Rattle.ak_member.specs.Standing.{members_of};
ghost use Rattle.ak_member.specs.Age.{role_pairs};
ghost use Rattle.ak_reach.specs.Unreachable.{unreachable_members};
ghost use Rattle.ak_downing.specs.Downing.{decide, by_quorum, by_majority, by_first, by_oldest, by_side, gives_way};
ghost use Rattle.ak_downing.specs.Sides.{seen_with};

use crate::decision::Decision;
use crate::side::{first_counted, is_beside, oldest_counted, reachable_addresses, sizes};
use ak_address::{Address, Unique};
use ak_member::Members;
use ak_reach::Rows;
use ak_settings::Strategy;

/// What the node decides about a partition (Akka's Split Brain Resolver, "Strategies"; the exact answers are this
/// project's choice). Members count that are Up or Leaving and have the role. Under static-quorum: where at least twice the
/// quorum of addresses count, so that two sides could have one, all are downed; else the side with a quorum of addresses goes
/// on. Under keep-majority the side with more counted members goes on, at equal numbers the side of the first counted one;
/// where nobody counts, none. Under keep-oldest the side of the oldest counted member goes on; with the flag, where it is alone
/// there and somebody counts on the other side, the other side does; where nobody counts, none. Under down-all none goes on.
/// Takes no memory.
pub fn decide(
    strategy: &Strategy,
    role: &[Address],
    members: &Members,
    rows: &Rows,
    me: &Unique,
) -> Decision
    requires { map.len members.now < 2 ^ 32 }
    ensures { result ≡ decide strategy.now role.now (seen_with members.now rows.now) me.now }
{
    match *strategy {
        Strategy::StaticQuorum(quorum) => by_quorum(quorum, role, members, rows, me),
        Strategy::KeepMajority => by_majority(role, members, rows, me),
        Strategy::KeepOldest(down_if_alone) => by_oldest(down_if_alone, role, members, rows, me),
        Strategy::DownAll => Decision::DownAll,
    }
}

fn by_quorum(quorum: u32, role: &[Address], members: &Members, rows: &Rows, me: &Unique) -> Decision
    requires { map.len members.now < 2 ^ 32 }
    ensures { result ≡ by_quorum quorum role.now (seen_with members.now rows.now) me.now }
{
    if u64::from(members.counted(role)) >= 2 * u64::from(quorum) {
        return Decision::DownAll;
    }
    if reachable_addresses(role, members, rows, me) >= quorum {
        return Decision::DownUnreachable;
    }
    Decision::DownReachable
}

fn by_majority(role: &[Address], members: &Members, rows: &Rows, me: &Unique) -> Decision
    ensures { result ≡ by_majority role.now (seen_with members.now rows.now) me.now }
{
    let (beside, others) = sizes(role, members, rows, me);
    if beside > others {
        return Decision::DownUnreachable;
    }
    if beside < others {
        return Decision::DownReachable;
    }
    by_first(role, members, rows, me)
}

fn by_first(role: &[Address], members: &Members, rows: &Rows, me: &Unique) -> Decision
    ensures { result ≡ by_first (unreachable_members (seen_with members.now rows.now)) me.now (role_pairs role.now (members_of members.now)) }
{
    match first_counted(role, members) {
        Some(first) => {
            if is_beside(members, rows, me, first) {
                return Decision::DownUnreachable;
            }
            Decision::DownReachable
        }
        None => Decision::DownReachable,
    }
}

fn by_oldest(
    down_if_alone: bool,
    role: &[Address],
    members: &Members,
    rows: &Rows,
    me: &Unique,
) -> Decision
    ensures { result ≡ by_oldest down_if_alone role.now (seen_with members.now rows.now) me.now }
{
    let Some(oldest) = oldest_counted(role, members) else {
        return Decision::DownReachable;
    };
    let (beside, others) = sizes(role, members, rows, me);
    by_side(
        down_if_alone,
        beside,
        others,
        is_beside(members, rows, me, oldest),
    )
}

// With so many beside the node, so many others, and the oldest beside it or not.
fn by_side(down_if_alone: bool, beside: usize, others: usize, with_oldest: bool) -> Decision
    ensures { result ≡ by_side down_if_alone beside others with_oldest }
{
    if with_oldest {
        if gives_way(down_if_alone, beside, others) {
            return Decision::DownReachable;
        }
        return Decision::DownUnreachable;
    }
    if gives_way(down_if_alone, others, beside) {
        return Decision::DownUnreachable;
    }
    Decision::DownReachable
}

// Whether the side of the oldest gives way: it is asked for, the oldest is alone here, and somebody is there.
fn gives_way(down_if_alone: bool, here: usize, there: usize) -> bool
    ensures { result ≡ gives_way down_if_alone here there }
{
    down_if_alone && here == 1 && there >= 1
}
