ghost use Rattle.std.specs.Prelude.{◌≡◌, slice_get, option_map, option_copied, option_to_list};
ghost use Rattle.std.specs.List.{find};
ghost use Rattle.std.specs.FinMap as map;
ghost use Rattle.ak_member.specs.Standing.{member_pairs};
ghost use Rattle.ak_reach.specs.Unreachable.{unreachable_members};
ghost use Rattle.ak_leader.specs.Leader.{leader, may_lead, IsLeader};

use ak_address::Unique;
use ak_member::{Members, Standing};
use ak_reach::{Rows, is_unreachable};

/// The leader: of the reachable Up and Leaving members the first in the order of processes; none exactly where there is
/// none (Akka's Cluster Specification, "Leader"; that members of every other status never lead is this project's choice).
/// Takes no memory.
pub fn leader<'a>(members: &'a Members, rows: &Rows) -> Option<&'a Unique>
    ensures value { option_copied result ≡ leader (record { standings = members.now; rows = rows.now }) }
    ensures meaning { IsLeader (record { standings = members.now; rows = rows.now }) (option_copied result) }
{
    first_leader(members, rows)
}

fn first_leader<'a>(members: &'a Members, rows: &Rows) -> Option<&'a Unique>
    ensures { option_copied result ≡ leader (record { standings = members.now; rows = rows.now }) }
{
    'pairs: for pair in 0..members.uniques() {
        if let Some(who) = leader_at(members, rows, pair) {
            return Some(who);
        }
    }
    None
}

// The member at an index among all that are known, where there is one that may lead.
fn leader_at<'a>(members: &'a Members, rows: &Rows, pair: usize) -> Option<&'a Unique>
    ensures { option_copied result ≡ option_map (λ pair. pair.0) (find (may_lead (unreachable_members (record { standings = members.now; rows = rows.now }))) (member_pairs (option_to_list (slice_get (map.entries members.now) pair)))) }
{
    match members.pair(pair) {
        Some((who, Standing::Member(status, _))) => {
            if status.counts() && !is_unreachable(members, rows, who) {
                return Some(who);
            }
            None
        }
        Some((_, Standing::Buried(_))) => None,
        None => None,
    }
}
