ghost use Rattle.std.specs.Prelude.{◌≡◌, ◌↔◌, ◌≤◌, ◌<◌, ◌^◌, IsTrue, slice_get, option_to_list};
ghost use Rattle.std.specs.List.{list_all};
ghost use Rattle.std.specs.FinMap as map;
ghost use Rattle.ak_member.specs.Standing.{member_pairs};
ghost use Rattle.ak_address.specs.Distinct.{distinct};
ghost use Rattle.ak_member.specs.Age.{role_addresses};
ghost use Rattle.ak_reach.specs.Unreachable.{unreachable_members};
ghost use Rattle.ak_converge.specs.Convergence.{is_passed_over, agrees, is_converged, is_settled, IsConverged};

use ak_address::{Address, Unique, Uniques};
use ak_member::{Members, Standing, Status};
use ak_reach::{Rows, is_unreachable};

/// Whether the members agree on the view: every Up or Leaving member is among those that have seen it, and every
/// unreachable member is Down or Exiting (Akka's Cluster Specification, "Gossip Convergence"). Takes no memory.
pub fn converged(members: &Members, rows: &Rows, seen: &Uniques) -> bool
    ensures value { result ≡ is_converged (record { standings = members.now; rows = rows.now }) seen.now }
    ensures meaning { IsTrue result ↔ IsConverged (record { standings = members.now; rows = rows.now }) seen.now }
{
    all_agree(members, rows, seen)
}

/// Whether the view is settled: the members agree on it, and the Up and Leaving ones have at least so many different
/// addresses with the role (this project's choice: so any two settled views share an address, where the quorum is more than
/// half of those with the role). Takes no memory.
pub fn settled_by(
    quorum: u32,
    role: &[Address],
    members: &Members,
    rows: &Rows,
    seen: &Uniques,
) -> bool
    requires { map.len members.now < 2 ^ 32 }
    ensures value { result ≡ is_settled quorum role.now (record { standings = members.now; rows = rows.now }) seen.now }
    ensures meaning { IsTrue result ↔ (IsConverged (record { standings = members.now; rows = rows.now }) seen.now × (quorum ≤ distinct (role_addresses role.now members.now))) }
{
    if quorum > members.counted(role) {
        return false;
    }
    converged(members, rows, seen)
}

fn all_agree(members: &Members, rows: &Rows, seen: &Uniques) -> bool
    ensures { result ≡ is_converged (record { standings = members.now; rows = rows.now }) seen.now }
{
    'pairs: for pair in 0..members.uniques() {
        if !agrees_at(members, rows, seen, pair) {
            return false;
        }
    }
    true
}

// The member at an index among all that are known agrees, if there is one.
fn agrees_at(members: &Members, rows: &Rows, seen: &Uniques, pair: usize) -> bool
    ensures { result ≡ list_all (agrees (unreachable_members (record { standings = members.now; rows = rows.now })) seen.now) (member_pairs (option_to_list (slice_get (map.entries members.now) pair))) }
{
    match members.pair(pair) {
        Some((who, Standing::Member(status, _))) => agrees(members, rows, seen, who, status),
        Some((_, Standing::Buried(_))) => true,
        None => true,
    }
}

// The member has seen the view where it counts, and where it is unreachable it is passed over.
fn agrees(members: &Members, rows: &Rows, seen: &Uniques, who: &Unique, status: Status) -> bool
    ensures { result ≡ agrees (unreachable_members (record { standings = members.now; rows = rows.now })) seen.now (who.now, (status, 0)) }
{
    if status.counts() && !seen.contains(who) {
        return false;
    }
    if is_passed_over(status) {
        return true;
    }
    !is_unreachable(members, rows, who)
}

// An unreachable member of this status hinders nobody.
pub(crate) fn is_passed_over(status: Status) -> bool
    ensures { result ≡ is_passed_over status }
{
    match status {
        Status::Joining => false,
        Status::WeaklyUp => false,
        Status::Up => false,
        Status::Leaving => false,
        Status::Exiting => true,
        Status::Down => true,
    }
}
